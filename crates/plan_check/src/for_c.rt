// The check for C: slices come as pointer and length, the answer goes back as five numbers by value (c/planner.h).
ghost use Rattle.std.specs.Prelude.{◌≡◌};
ghost use Rattle.task_record.specs.Refusals.{refusal_numbers};
ghost use Rattle.plan_check.specs.Check.{plan_check_of};
ghost use Rattle.plan_check.specs.ForC.{numbers_of, five_numbers};

use crate::check::check_plan;
use task_record::refusal::Refusal;

#[repr(C)]
#[derive(Clone, Copy)]
pub struct PlannerAnswer {
    pub number: u64,
    pub kind: u64,
    pub first: u64,
    pub second: u64,
    pub third: u64,
}

// Number and second number of a refusal.
// Stays: a function, and a literal for a pass, not `From`: `from_gives` would state the numbers a second time, and callers name this promise.
#[tactic(auto, unfolding(planning::specs::Numbers::refusal, crate::specs::ForC::five_numbers))]
pub fn refuse(refusal: Refusal) -> PlannerAnswer
    ensures { result ≡ five_numbers (refusal_numbers refusal) }
{
    let (number, second) = refusal.numbers();
    PlannerAnswer {
        number,
        kind: 0,
        first: second,
        second: 0,
        third: 0,
    }
}

#[unsafe(no_mangle)]
pub extern "C" fn planner_check_plan(rec: &[u8], state: &[u8], plan: &[u8]) -> PlannerAnswer
    ensures { result ≡ five_numbers (numbers_of (plan_check_of rec.now state.now plan.now)) }
{
    match check_plan(rec, state, plan) {
        Err(refusal) => refuse(refusal),
        Ok(passed) => PlannerAnswer {
            number: 0,
            kind: 0,
            first: passed.cost,
            second: passed.length,
            third: 0,
        },
    }
}
