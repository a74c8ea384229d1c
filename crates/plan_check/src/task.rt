// The task of a sound record, and the tests at a byte of a plan: whether it plans for a state that is reached by `depth` moves, of at most `most`.
ghost use Rattle.std.specs.Prelude.{◌≡◌, ◌<◌, ltb};
ghost use Rattle.task_record.specs.Numbers.{action_count};
ghost use Rattle.task_record.specs.TaskOf.{values_of};
ghost use Rattle.plan_check.specs.Tower.{tower};
ghost use Rattle.plan_check.specs.Refusal.{byte_judged};

use crate::cells::{cells_at, met};
use std::marker::Model;
use task_record::cells::action_count;
use task_record::layout::{AT_GOAL, at_precondition};
use task_record::refusal::Refusal;
use task_record::sound::SoundRecord;

// Arrival: no action's number.
// Stays: the search has this number too: it is a byte of plans, and `task_record`, the crate below both, knows no plans.
const ARRIVED: u8 = 254;

// A sound record, with the two parts of it that each byte asks for. Clauses see the record's bytes.
// Stays: the bytes, and no `SoundRecord`, whose fields would be those of a struct with an `impl Model` lent inside another, which the borrow checker does
// not cover (tried).
#[derive(Drop)]
pub(crate) struct Task<'a> {
    pub(crate) rec: &'a [u8],
    actions: u8,
    goal: [u8; 16],
}

impl<'a> Model for Task<'a> {
    ghost use Rattle.std.specs.Prelude.{◌≡◌, ℕ, List};
    ghost use Rattle.task_record.specs.Layout.{at_goal};
    ghost use Rattle.task_record.specs.Numbers.{action_count};
    ghost use Rattle.task_record.specs.Record.{Sound};
    ghost use Rattle.task_record.specs.TaskOf.{cells_at};

    ghost Value = { List ℕ };

    ghost view = { λ t. t.rec.now };

    ghost invariant = { λ t. (Sound t.rec.now) × (t.actions ≡ action_count t.rec.now) × (t.goal ≡ cells_at t.rec.now at_goal) };
}

impl<'a> Task<'a> {
    pub(crate) fn of(checked: &SoundRecord<'a>) -> Task<'a>
        ensures { result ≡ checked.now }
    {
        let rec = checked.cells;
        Task {
            rec,
            actions: action_count(rec),
            goal: cells_at(rec, AT_GOAL),
        }
    }

    // Whether the byte is an action's number.
    pub(crate) fn has_action(&self, b: u8) -> bool
        ensures { result ≡ ltb b (tower self.now).actions }
    {
        b < self.actions
    }

    // Whether the state meets the precondition of action m.
    fn action_met(&self, m: u8, state: [u8; 16]) -> bool
        requires { m < action_count self.now }
        ensures { result ≡ (tower self.now).enabled m (values_of self.now state) }
    {
        met(cells_at(self.rec, at_precondition(m)), state)
    }

    // The byte at offset `at`.
    // Stays: `as`, since an offset has no `From` into a word.
    pub(crate) fn judge_byte(
        &self,
        at: usize,
        b: u8,
        state: [u8; 16],
        depth: u16,
        most: u16,
    ) -> Result<(), Refusal>
        ensures { result ≡ byte_judged (tower self.now) most b depth (values_of self.now state) at }
    {
        let offset = at as u64;
        if b < self.actions {
            if most <= depth {
                return Err(Refusal::TooDeep(offset));
            }
            if !self.action_met(b, state) || met(self.goal, state) {
                return Err(Refusal::Inapplicable(offset));
            }
            return Ok(());
        }
        if b != ARRIVED {
            return Err(Refusal::UnknownByte(offset));
        }
        if !met(self.goal, state) {
            return Err(Refusal::EarlyArrival(offset));
        }
        Ok(())
    }
}
