// The check of a record: first by columns, and where that finds a fault cell by cell in the order of the offsets, so that the lowest is told.
ghost use Rattle.std.specs.Prelude.{◌≡◌, true};
ghost use Rattle.task_record.specs.Numbers.{size_of};
ghost use Rattle.task_record.specs.Window.{Sixteen};
ghost use Rattle.task_record.specs.Record.{record_check, Sound};
ghost use Rattle.task_record.specs.State.{judge_state, state_check};
ghost use Rattle.task_record.specs.Answers.{record_numbers, state_numbers, record_by_lines, state_by_lines};

use crate::cells::copied;
use crate::columns::{actions_fit, costs_fit, front_fits, head_fits, patterns_fit, state_fits};
use crate::layout::{AT_GOAL, AT_SIZES, RECORD_SIZE, ROW_SIZE};
use crate::measured::{LongRecord, Measured};
use crate::refusal::Refusal;
use crate::rules::{is_cell_right, is_state_right};

fn sizes_of(record: &LongRecord) -> [u8; 16]
    ensures { Sixteen (size_of record.now.cells.now) result }
{
    copied(&record.cells[AT_SIZES..AT_GOAL])
}

// Whether the record passes the test by columns, which tells no offset, but takes 1,700 to 2,800 instructions where the search for one takes up to
// 516,000.
fn is_sound(record: &LongRecord) -> bool
    ensures { result ≡ true → Sound record.now.cells.now }
{
    let rec = record.cells;
    if !head_fits(rec) {
        return false;
    }
    let sizes = sizes_of(record);
    if !front_fits(record, &sizes) {
        return false;
    }
    let measured = Measured { rec, sizes };
    if !patterns_fit(&measured) {
        return false;
    }
    if !actions_fit(&measured) {
        return false;
    }
    costs_fit(record)
}

// The answer of every call that is lent a record, tested before all else.
// Stays: `as`, here and in `judge_state`: a length has no `From` into a word, and `try_from` has a case that never happens.
pub fn check_record(rec: &[u8]) -> Result<(), Refusal>
    ensures value { result ≡ record_check rec.now }
    ensures numbers { record_numbers result ≡ record_by_lines rec.now }
{
    if rec.len() < RECORD_SIZE {
        return Err(Refusal::ShortRecord(rec.len() as u64));
    }
    let long = LongRecord { cells: rec };
    if is_sound(&long) {
        return Ok(());
    }
    match (0..RECORD_SIZE).find(|&k| !is_cell_right(rec, k)) {
        Some(offset) => Err(Refusal::WrongCell(offset as u64)),
        None => Ok(()),
    }
}

pub(crate) fn judge_state(rec: &[u8], state: &[u8]) -> Result<(), Refusal>
    requires { Sound rec.now }
    ensures { result ≡ judge_state rec.now state.now }
{
    if state.len() != 16 {
        return Err(Refusal::WrongState(16));
    }
    let long = LongRecord { cells: rec };
    let sizes = sizes_of(&long);
    if state_fits(state, &sizes) {
        return Ok(());
    }
    match (0..ROW_SIZE).find(|&v| !is_state_right(rec, v, state[v])) {
        Some(offset) => Err(Refusal::WrongState(offset as u64)),
        None => Ok(()),
    }
}

// Whether `state` is a state of the task that `rec` holds.
#[tactic(auto, using(crate::proofs::ByLines::state_told), unfolding(crate::specs::Record::Sound, crate::specs::Answers::state_by_lines))]
pub fn check_state(rec: &[u8], state: &[u8]) -> Result<(), Refusal>
    ensures value { result ≡ state_check rec.now state.now }
    ensures numbers { state_numbers result ≡ state_by_lines rec.now state.now }
{
    check_record(rec)?;
    judge_state(rec, state)
}
