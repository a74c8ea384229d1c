// The check of a record of the first form: its length, then cell by cell in the order of the offsets, so that the lowest fault is told.
ghost use Rattle.std.specs.Prelude.{◌≡◌};
ghost use Rattle.stored.specs.FirstRecord.{first_check};

use crate::first_layout::FIRST_SIZE;
use crate::first_rules::is_cell_right;
use task_record::refusal::Refusal;

// Stays: `as`: a length has no `From` into a word, and `try_from` has a case that never happens. No test by columns, as `task_record` has one: a
// stored record is checked once, and not at every call.
pub(crate) fn check_first(rec: &[u8]) -> Result<(), Refusal>
    ensures { result ≡ first_check rec.now }
{
    if rec.len() < FIRST_SIZE {
        return Err(Refusal::ShortRecord(rec.len() as u64));
    }
    match (0..FIRST_SIZE).find(|&k| !is_cell_right(rec, k)) {
        Some(offset) => Err(Refusal::WrongCell(offset as u64)),
        None => Ok(()),
    }
}
