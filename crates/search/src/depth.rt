// The depth that an action leaves, of one that weighs no more than there is.
// Stays: `as` of a weight into a depth: a word has no `From` into it, and `try_from` has a case that never happens.
ghost use Rattle.std.specs.Prelude.{◌≡◌, ◌-◌, ◌≤◌};
ghost use Rattle.packed_task.specs.Packed.{action_weight};

use packed_task::compiled_task::weight;
use packed_task::layout::TASK_WORDS;
use packed_task::numbers::ActionNumber;

pub(crate) fn left_after(task: &[u64; TASK_WORDS], m: ActionNumber, d: u32) -> u32
    requires { action_weight task.now m.number ≤ d }
    ensures { result ≡ d - action_weight task.now m.number }
{
    d - weight(task, m) as u32
}
