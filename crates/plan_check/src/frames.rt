// An action under way, as it waits on the check's stack: some of its outcomes have had their plans, the others are to come.
ghost use Rattle.std.specs.Prelude.{◌≡◌, ◌+◌, ◌*◌, ◌≤◌, ◌<◌, length};
ghost use Rattle.planning.specs.PlanCheck.{most_moves};
ghost use Rattle.planning.specs.Table.{most_weight};
ghost use Rattle.planning.specs.Task.{apply};
ghost use Rattle.task_record.specs.Numbers.{action_count};
ghost use Rattle.task_record.specs.TaskOf.{cells_at};
ghost use Rattle.plan_check.specs.Stack.{begun_frame, rest_frame};

use crate::cells::{applied, cells_at};
use crate::task::Task;
use task_record::layout::{IN_OUTCOMES, ROW_SIZE, at_action, at_cost};

// The state in which the action was taken, the offset of the next outcome's cells, what the path to its outcomes costs, how many moves that path has,
// and how many outcomes are to come. The last two have 16 bits, so that a frame has 32 bytes and no gap: with 8 bits, where the gap is cleared each
// time, a plan's check takes 1.06 of the instructions. Both are made from bytes, so that no `as` is needed, which a shorter offset would ask for.
#[derive(Clone, Copy)]
pub(crate) struct Frame {
    pub(crate) state: [u8; 16],
    pub(crate) next: usize,
    pub(crate) paid: u32,
    pub(crate) depth: u16,
    pub(crate) left: u16,
}

impl Frame {
    // Action m taken in a state: all its outcomes are to come.
    pub(crate) fn begun(task: &Task, m: u8, state: [u8; 16], depth: u16, paid: u32) -> Frame
        requires { (m < action_count task.now) × (depth < most_moves) × (paid ≤ most_weight * depth) }
        ensures { result ≡ begun_frame task.now m state depth paid }
    {
        let action = at_action(m);
        Frame {
            state,
            next: action + IN_OUTCOMES,
            paid: paid + u32::from(task.rec[at_cost(m)]),
            depth: depth + 1,
            left: u16::from(task.rec[action]),
        }
    }

    // What stands at a place of the stack that is not in use.
    pub(crate) fn unused() -> Frame {
        Frame {
            state: [0; 16],
            next: 0,
            paid: 0,
            depth: 0,
            left: 0,
        }
    }

    // The state after the next outcome.
    pub(crate) fn next_state(&self, rec: &[u8]) -> [u8; 16]
        requires { self.now.next + 16 ≤ length rec.now }
        ensures { result ≡ apply (cells_at rec.now self.now.next) self.now.state }
    {
        applied(cells_at(rec, self.next), self.state)
    }

    // What is to come after the next outcome.
    #[tactic(auto, unfolding(crate::specs::Stack::rest_frame))]
    pub(crate) fn rest(&self) -> Frame
        requires { (self.now.next ≤ 65536) × (1 ≤ self.now.left) }
        ensures { result ≡ rest_frame self.now }
    {
        Frame {
            next: self.next + ROW_SIZE,
            left: self.left - 1,
            ..*self
        }
    }
}
