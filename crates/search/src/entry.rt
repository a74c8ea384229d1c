// The search of a record's task: the refusals 5 to 9, the tables, and rounds from its start. What every lent slice holds afterwards, and what
// is answered, is said for all records.
ghost use Rattle.std.specs.Prelude.{◌≡◌, length};
ghost use Rattle.tables.specs.RecordTables.{tables_prepared};
ghost use Rattle.search.specs.Answer.{answer_of, buffer_of};
ghost use Rattle.search.specs.Entry.{answer_within, search_answer, plan_after, search_numbers, search_by_lines};

use crate::affordable::fill_affordable;
use crate::built::BuiltTask;
use crate::byte_rows::{Blocks, fill_blocks};
use crate::constants::constants_of;
use crate::instance::Instance;
use crate::rounds::{TooLong, run_rounds};
use crate::weights::fill_weights;
use packed_task::layout::TASK_WORDS;
use patterns::entry::Entry;
use tables::record_tables::prepare;
use task_record::cells::budget;
use task_record::refusal::Refusal;

// Found with cost, count and the plan's length; over with the count; spent with round and count; none with the count.
#[derive(Clone, Copy, PartialEq, Eq)]
pub enum SearchAnswer {
    Found(u64, u64, u64),
    Over(u64),
    Spent(u64, u64),
    None(u64),
}

// The search of a built task.
fn search_built(built: &BuiltTask, plan: &mut [u8]) -> Result<SearchAnswer, TooLong>
    ensures answer { result ≡ answer_of (length plan.old) (answer_within built.now.budget built.now.rec.now) }
    ensures buffer { plan.new ≡ buffer_of (length plan.old) (answer_within built.now.budget built.now.rec.now) }
{
    let mut blocks = Blocks {
        sums: [0; 4096],
        spans: [None; 8],
    };
    let mut weights = [[0u16; 16]; 8];
    let mut offsets = [0u32; 8];
    fill_weights(built, &mut weights, &mut offsets);
    let constants = constants_of(built, offsets);
    fill_blocks(&weights, constants.patterns, &mut blocks);
    let mut affordable = [0u64; 256];
    fill_affordable(built.task, constants.actions, &mut affordable);
    let instance = Instance {
        task: built.task,
        sets: built.sets,
        affordable: &affordable,
        blocks: &blocks,
        weights: &weights,
        constants,
        tables: built.tables,
    };
    run_rounds(&instance, plan, built.start)
}

// The search from the record's start with its limit and budget. A found plan stands at the start of `plan`; `tables` are built here.
pub fn search(rec: &[u8], tables: &mut [Entry], plan: &mut [u8]) -> Result<SearchAnswer, Refusal>
    ensures answer { result ≡ search_answer rec.now (length tables.old) (length plan.old) }
    ensures tables { tables.new ≡ tables_prepared rec.now tables.old }
    ensures plan { plan.new ≡ plan_after rec.now (length tables.old) plan.old }
    ensures numbers { search_numbers result ≡ search_by_lines rec.now (length tables.old) (length plan.old) }
{
    let mut task = [0u64; TASK_WORDS];
    let mut sets = [0u64; 2048];
    let start = prepare(rec, tables, &mut task, &mut sets)?;
    let built = BuiltTask {
        rec,
        budget: budget(rec),
        task: &task,
        sets: &sets,
        start,
        tables,
    };
    let answer = search_built(&built, plan)?;
    Ok(answer)
}
