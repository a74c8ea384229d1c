// Sixteen cells of a record by value, and what a state does with them. All sixteen are there: with no length to test, each function becomes a
// few vector instructions in the loop over a plan's bytes.
ghost use Rattle.std.specs.Prelude.{◌≡◌, ◌+◌, ◌≤◌, eqb, length};
ghost use Rattle.planning.specs.Task.{meets_cell, meets, apply_cell, apply};
ghost use Rattle.task_record.specs.TaskOf.{cells_at};

use std::array;
use task_record::layout::UNNAMED;

// Cell by cell and not by `copy_from_slice`, with which the check of a plan takes 76.6 instructions a byte in place of 40.1.
pub(crate) fn cells_at(rec: &[u8], at: usize) -> [u8; 16]
    requires { at + 16 ≤ length rec.now }
    ensures { result ≡ cells_at rec.now at }
{
    array::from_fn(move |i| rec[at + i])
}

// 0, or 1 where the state misses what the cell names: a byte, since faults are gathered in bytes.
fn misses(y: u8, x: u8) -> u8
    ensures { eqb result 0 ≡ meets_cell y x }
{
    u8::from(y != UNNAMED && y != x)
}

// Whether the state has all the values that the cells name. It does not stop at a fault, so that it becomes one vector compare.
// Stays: a loop of its own: `faultless` of task_record asks that its test can be called, and a public function asks nothing of its callers.
pub(crate) fn met(cells: [u8; 16], state: [u8; 16]) -> bool
    ensures { result ≡ meets cells state }
{
    let mut bad = 0u8;
    for (y, x) in cells.iter().zip(&state) {
        bad |= misses(*y, *x);
    }
    bad == 0
}

fn choose(y: u8, x: u8) -> u8
    ensures { result ≡ apply_cell y x }
{
    if y == UNNAMED { x } else { y }
}

// The state after an outcome: what the cells name is changed.
// Stays: a loop: by `array::from_fn` the closure captures both arrays, and `search` finds no proof that a call read these very arrays.
pub(crate) fn applied(cells: [u8; 16], state: [u8; 16]) -> [u8; 16]
    ensures { result ≡ apply cells state }
{
    let mut r = state;
    for (i, x) in r.iter_mut().enumerate() {
        *x = choose(cells[i], *x);
    }
    r
}
