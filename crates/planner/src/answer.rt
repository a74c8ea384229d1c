// Answers as the five numbers that every entry gives C: one form for all calls that say no by a refusal.
ghost use Rattle.std.specs.Prelude.{◌≡◌, ℕ};
ghost use Rattle.planning.specs.Numbers.{Numbers, answered};
ghost use Rattle.task_record.specs.Refusals.{answer_numbers};
ghost use Rattle.patterns.specs.Answers.{conflict_numbers, finite_numbers};
ghost use Rattle.search.specs.Entry.{outcome_numbers};
ghost use Rattle.plan_check.specs.ForC.{five_numbers};

use patterns::verdict::Conflict;
use plan_check::check::Passed;
pub use plan_check::for_c::PlannerAnswer;
pub(crate) use plan_check::for_c::refuse;
use search::entry::SearchAnswer;
use task_record::refusal::Refusal;

// The kind of an answer and its values.
#[tactic(auto, unfolding(planning::specs::Numbers::answered, plan_check::specs::ForC::five_numbers))]
pub(crate) fn reply(kind: u64, first: u64, second: u64, third: u64) -> PlannerAnswer
    ensures { result ≡ five_numbers (answered kind first second third) }
{
    PlannerAnswer {
        number: 0,
        kind,
        first,
        second,
        third,
    }
}

// What a call answers where it refuses nothing.
// Stays: a trait in place of `From`, since none may be written here: `PlannerAnswer` is of another crate, and so is each type below.
pub(crate) trait Told {
    ghost numbers: { Self → Numbers };

    fn told(self) -> PlannerAnswer
        ensures { result ≡ five_numbers (numbers self) };
}

// Nothing but that nothing was refused.
impl Told for () {
    ghost numbers = { λ done. answered 0 0 0 0 };

    fn told(self) -> PlannerAnswer {
        reply(0, 0, 0, 0)
    }
}

// How many entries or states.
impl Told for u64 {
    ghost numbers = { λ count. answered 0 count 0 0 };

    fn told(self) -> PlannerAnswer {
        reply(0, self, 0, 0)
    }
}

// A value; infinite is kind 1.
impl Told for Option<u64> {
    ghost numbers = { finite_numbers };

    fn told(self) -> PlannerAnswer {
        match self {
            Some(value) => reply(0, value, 0, 0),
            None => reply(1, 0, 0, 0),
        }
    }
}

// The verdict: additive, or a conflict, kind 1.
impl Told for Option<Conflict> {
    ghost numbers = { conflict_numbers };

    fn told(self) -> PlannerAnswer {
        match self {
            Some(found) => reply(1, found.action, found.lower, found.upper),
            None => reply(0, 0, 0, 0),
        }
    }
}

impl Told for SearchAnswer {
    ghost numbers = { outcome_numbers };

    fn told(self) -> PlannerAnswer {
        match self {
            SearchAnswer::Found(cost, count, length) => reply(0, cost, count, length),
            SearchAnswer::Over(count) => reply(1, 0, count, 0),
            SearchAnswer::Spent(round, count) => reply(2, round, count, 0),
            SearchAnswer::None(count) => reply(3, 0, count, 0),
        }
    }
}

impl Told for Passed {
    ghost numbers = { λ passed. answered 0 passed.cost passed.length 0 };

    fn told(self) -> PlannerAnswer {
        reply(0, self.cost, self.length, 0)
    }
}

// The answer of a call, or why it says no.
pub(crate) fn in_numbers<A: Told>(answer: Result<A, Refusal>) -> PlannerAnswer
    ensures { result ≡ five_numbers (answer_numbers A.numbers answer) }
{
    match answer {
        Ok(found) => found.told(),
        Err(refusal) => refuse(refusal),
    }
}
