// Plans, for C: the search of one, and the check of a plan from any producer.
ghost use Rattle.std.specs.Prelude.{◌≡◌, length};
ghost use Rattle.tables.specs.RecordTables.{tables_prepared};
ghost use Rattle.search.specs.Entry.{search_answer, plan_after, search_numbers};
ghost use Rattle.plan_check.specs.Check.{plan_check_of};
ghost use Rattle.plan_check.specs.ForC.{numbers_of, five_numbers};

use crate::answer::{PlannerAnswer, in_numbers};
use patterns::entry::Entry;
use plan_check::check::check_plan;
use search::entry::search;

#[unsafe(no_mangle)]
pub extern "C" fn planner_search(rec: &[u8], tables: &mut [Entry], plan: &mut [u8]) -> PlannerAnswer
    ensures { (result ≡ five_numbers (search_numbers (search_answer rec.now (length tables.old) (length plan.old)))) × (tables.new ≡ tables_prepared rec.now tables.old) × (plan.new ≡ plan_after rec.now (length tables.old) plan.old) }
{
    in_numbers(search(rec, tables, plan))
}

#[unsafe(no_mangle)]
pub extern "C" fn planner_check_plan(rec: &[u8], state: &[u8], plan: &[u8]) -> PlannerAnswer
    ensures { result ≡ five_numbers (numbers_of (plan_check_of rec.now state.now plan.now)) }
{
    in_numbers(check_plan(rec, state, plan))
}
