// A compiled task within a mask: whether a state meets a precondition, of the digits of some variables alone.
ghost use Rattle.std.specs.Prelude.{◌≡◌};
ghost use Rattle.packed_task.specs.Within.{permitted};

use crate::compiled_task::{need, value};
use crate::layout::TASK_WORDS;
use crate::numbers::ActionNumber;

pub fn permits(task: &[u64; TASK_WORDS], mask: u64, m: ActionNumber, s: u64) -> bool
    ensures { result ≡ permitted task.now mask m.number s }
{
    s & (need(task, m) & mask) == value(task, m) & mask
}
