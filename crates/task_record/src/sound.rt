// A record that has passed its check, as a type: what the calls ask of a record beyond its bytes.
ghost use Rattle.std.specs.Prelude.{◌≡◌, ℕ, List};
ghost use Rattle.task_record.specs.Record.{Sound};
ghost use Rattle.task_record.specs.State.{judge_state};
ghost use Rattle.task_record.specs.Answers.{state_numbers, judged_by_lines};

use crate::record::{check_record, judge_state};
use crate::refusal::Refusal;
use std::marker::Model;

#[derive(Drop)]
pub struct SoundRecord<'a> {
    pub cells: &'a [u8],
}

impl<'a> Model for SoundRecord<'a> {
    ghost Value = { List ℕ };

    ghost view = { λ s. s.cells.now };

    ghost invariant = { λ s. Sound s.cells.now };
}

impl<'a> SoundRecord<'a> {
    ghost use Rattle.task_record.specs.SoundRecord.{sound_record};
    ghost use Rattle.task_record.specs.Answers.{sound_numbers, record_by_lines};

    // Tested before all else by each call that is lent a record.
    pub fn new(rec: &'a [u8]) -> Result<SoundRecord<'a>, Refusal>
        ensures value { result ≡ sound_record rec.now }
        ensures numbers { sound_numbers result ≡ record_by_lines rec.now }
    {
        check_record(rec)?;
        Ok(SoundRecord { cells: rec })
    }

    // Whether `state` is a state of the record's task.
    pub fn check_state(&self, state: &[u8]) -> Result<(), Refusal>
        ensures value { result ≡ judge_state self.now state.now }
        ensures numbers { state_numbers result ≡ judged_by_lines self.now state.now }
    {
        judge_state(self.cells, state)
    }
}
