// The check of a plan as an archive for C, `libplan_check.a`: slices come as pointer and length, the answer goes back as five numbers by value
// (c/planner.h).
// Stays: the entry stands once more here than in `plan_check`: a crate is a library or an archive, and `planner` calls the library.
#![tactic(auto)]

ghost use Rattle.std.specs.Prelude.{◌≡◌};
ghost use Rattle.plan_check.specs.Check.{plan_check_of};
ghost use Rattle.plan_check.specs.ForC.{numbers_of, five_numbers};

use plan_check::for_c;
use plan_check::for_c::PlannerAnswer;

#[unsafe(no_mangle)]
pub extern "C" fn planner_check_plan(rec: &[u8], state: &[u8], plan: &[u8]) -> PlannerAnswer
    ensures { result ≡ five_numbers (numbers_of (plan_check_of rec.now state.now plan.now)) }
{
    for_c::planner_check_plan(rec, state, plan)
}
