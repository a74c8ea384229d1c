// The entry: a stored record of the first form is written as a record of today's into a lent one.
ghost use Rattle.std.specs.Prelude.{◌≡◌, ◌≤◌, ◌++◌, length, drop, Ok};
ghost use Rattle.task_record.specs.Layout.{record_size};
ghost use Rattle.stored.specs.FirstLayout.{first_action_count};
ghost use Rattle.stored.specs.FirstRecord.{first_check};
ghost use Rattle.stored.specs.Upgrade.{added_costs, upgraded, upgrade_answer, upgrade_leaves};
ghost use Rattle.stored.specs.Answers.{upgrade_numbers, upgrade_by_lines};

use crate::first_cells::action_count;
pub use crate::first_layout::FIRST_SIZE;
use crate::first_record::check_first;
use task_record::layout::{AT_COSTS, RECORD_SIZE};
use task_record::refusal::Refusal;

// A used action costs 1, as each did before there were costs.
fn added_costs(stored: &[u8]) -> [u8; 64]
    requires { first_action_count stored.now ≤ 64 }
    ensures { result ≡ added_costs stored.now }
{
    let mut costs = [0; 64];
    costs[..usize::from(action_count(stored))].fill(1);
    costs
}

// Stays: a loop: of two slices that are both lent the library's copy_from_slice is the C library's memmove, and the archive asks for memcpy and memset
// alone.
fn copy_cells(cells: &[u8], target: &mut [u8])
    requires { length cells.now ≡ length target.old }
    ensures { target.new ≡ cells.now }
{
    for (i, x) in target.iter_mut().enumerate() {
        *x = cells[i];
    }
}

fn write_upgraded(stored: &[u8], target: &mut [u8])
    requires { (first_check stored.now ≡ Ok tt) × (record_size ≤ length target.old) }
    ensures { target.new ≡ upgraded stored.now ++ drop record_size target.old }
{
    copy_cells(&stored[..FIRST_SIZE], &mut target[..FIRST_SIZE]);
    target[AT_COSTS..RECORD_SIZE].copy_from_slice(&added_costs(stored));
}

// Of a longer stored record the first 9,464 bytes count. What stands behind the record in a longer target stays as it is.
// Stays: `as`: a length has no `From` into a word, and `try_from` has a case that never happens.
pub fn upgrade(stored: &[u8], target: &mut [u8]) -> Result<(), Refusal>
    ensures value { (result ≡ upgrade_answer stored.now (length target.old)) × (target.new ≡ upgrade_leaves stored.now target.old) }
    ensures numbers { upgrade_numbers result ≡ upgrade_by_lines stored.now (length target.old) }
{
    check_first(stored)?;
    if target.len() < RECORD_SIZE {
        return Err(Refusal::ShortRecord(target.len() as u64));
    }
    write_upgraded(stored, target);
    Ok(())
}
