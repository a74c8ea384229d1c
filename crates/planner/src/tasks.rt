// Texts, records and states, for C.
ghost use Rattle.std.specs.Prelude.{◌≡◌};
ghost use Rattle.reader.specs.Grammar.{read_answer, read_leaves};
ghost use Rattle.reader.specs.Answers.{read_numbers};
ghost use Rattle.task_record.specs.Record.{record_check};
ghost use Rattle.task_record.specs.State.{state_check};
ghost use Rattle.task_record.specs.Answers.{record_numbers, state_numbers};
ghost use Rattle.plan_check.specs.ForC.{five_numbers};

use crate::answer::{PlannerAnswer, in_numbers};
use reader::text::read_text;
use task_record::record::{check_record, check_state};

#[tactic(auto, unfolding(reader::specs::Answers::read_numbers))]
#[unsafe(no_mangle)]
pub extern "C" fn planner_read_text(text: &[u8], rec: &mut [u8]) -> PlannerAnswer
    ensures { (result ≡ five_numbers (read_numbers (read_answer text.now rec.old))) × (rec.new ≡ read_leaves text.now rec.old) }
{
    in_numbers(read_text(text, rec))
}

#[unsafe(no_mangle)]
pub extern "C" fn planner_check_record(rec: &[u8]) -> PlannerAnswer
    ensures { result ≡ five_numbers (record_numbers (record_check rec.now)) }
{
    in_numbers(check_record(rec))
}

#[unsafe(no_mangle)]
pub extern "C" fn planner_check_state(rec: &[u8], state: &[u8]) -> PlannerAnswer
    ensures { result ≡ five_numbers (state_numbers (state_check rec.now state.now)) }
{
    in_numbers(check_state(rec, state))
}
