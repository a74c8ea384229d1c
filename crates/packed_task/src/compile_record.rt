// The compiled task of a record.
ghost use Rattle.std.specs.Prelude.{◌≡◌, ◌≤◌};
ghost use Rattle.task_record.specs.Numbers.{action_count};
ghost use Rattle.task_record.specs.TaskOf.{task_of};
ghost use Rattle.packed_task.specs.Packed.{compiled};
ghost use Rattle.packed_task.specs.Compiling.{ActionsCompiled, Cleared, compiled_over};

use crate::compile::{compile_action, named_digits};
use crate::layout::{ACTION_WORDS, GOAL_NEED, GOAL_VALUE, TASK_WORDS};
use crate::words::words_of;
use task_record::cells::{action_count, goal_cells};
use task_record::sound::SoundRecord;

// The words of every action.
fn compile_actions(record: &SoundRecord, task: &mut [u64; TASK_WORDS])
    ensures { ActionsCompiled record.now task.old task.new (action_count record.now) }
{
    for m in 0..action_count(record.cells) {
        compile_action(record, m, task);
    }
}

// 0 in the words of the actions that are not there.
fn clear_from(task: &mut [u64; TASK_WORDS], from: usize)
    requires { from ≤ GOAL_NEED }
    ensures { Cleared task.old task.new from GOAL_NEED }
{
    task[from..GOAL_NEED].fill(0);
}

// The compiled task over words that are lent: where there are fewer than 64 actions, the words of the others stay.
pub fn compile_over(record: &SoundRecord, task: &mut [u64; TASK_WORDS])
    ensures { task.new ≡ compiled_over (task_of record.now) task.old }
{
    compile_actions(record, task);
    let goal = goal_cells(record.cells);
    let words = words_of(goal);
    let mask = named_digits(goal, words.keep);
    task[GOAL_NEED] = mask;
    task[GOAL_VALUE] = words.value;
}

// The compiled task in words that are lent. Over words that were just made, and are 0, `compile_over` gives the same and clears none twice.
pub fn compile_record(record: &SoundRecord, task: &mut [u64; TASK_WORDS])
    ensures { task.new ≡ compiled (task_of record.now) }
{
    clear_from(task, ACTION_WORDS * usize::from(action_count(record.cells)));
    compile_over(record, task);
}
