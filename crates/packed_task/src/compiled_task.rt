// Reading the words of a compiled task: of each of 64 actions its precondition, the number of its outcomes, its weight and its 8 outcomes, and the goal;
// and what they say of a packed state. Only here, and where the words are written (`compile`, `compile_record`), is a word known by its place.
// Each function answers for every input. An action and an outcome are named by numbers whose types bound them (`numbers`), since a test at each read costs
// what a reading costs: by plain numbers, with 0 past the end as the definitions have it, a build of tables takes 1.04 of the instructions.
// Stays: an array, and no struct around it, since the words are handed out and every statement speaks of them: with a struct each would have one name
// more between. `as` of a word into a number of outcomes, since a word has no `From` into it, and `try_from` has a case that never happens.
ghost use Rattle.std.specs.Prelude.{◌≡◌, ◌==◌, bit_and, bit_or};
ghost use Rattle.packed_task.specs.Packed.{pre_mask, pre_value, outcome_count, action_weight, keep_mask, set_value, goal_mask, goal_value};

use crate::layout::{
    ACTION_WORDS, GOAL_NEED, GOAL_VALUE, IN_COUNT, IN_KEPT, IN_SET, IN_VALUE, IN_WEIGHT,
    OUTCOME_WORDS, TASK_WORDS,
};
use crate::numbers::{ActionNumber, OutcomeNumber};

// The digits that an action needs.
pub fn need(task: &[u64; TASK_WORDS], m: ActionNumber) -> u64
    ensures { result ≡ pre_mask task.now m.number }
{
    task[ACTION_WORDS * m.number]
}

// The values that it needs of them.
pub fn value(task: &[u64; TASK_WORDS], m: ActionNumber) -> u64
    ensures { result ≡ pre_value task.now m.number }
{
    task[ACTION_WORDS * m.number + IN_VALUE]
}

pub fn outcome_count(task: &[u64; TASK_WORDS], m: ActionNumber) -> usize
    ensures { result ≡ outcome_count task.now m.number }
{
    task[ACTION_WORDS * m.number + IN_COUNT] as usize
}

pub fn weight(task: &[u64; TASK_WORDS], m: ActionNumber) -> u64
    ensures { result ≡ action_weight task.now m.number }
{
    task[ACTION_WORDS * m.number + IN_WEIGHT]
}

// The digits that an outcome of an action leaves as they are.
pub fn kept(task: &[u64; TASK_WORDS], m: ActionNumber, o: OutcomeNumber) -> u64
    ensures { result ≡ keep_mask task.now m.number o.number }
{
    task[ACTION_WORDS * m.number + IN_KEPT + OUTCOME_WORDS * o.number]
}

// The values that it sets.
pub fn set(task: &[u64; TASK_WORDS], m: ActionNumber, o: OutcomeNumber) -> u64
    ensures { result ≡ set_value task.now m.number o.number }
{
    task[ACTION_WORDS * m.number + IN_SET + OUTCOME_WORDS * o.number]
}

// The state after it.
pub fn successor(task: &[u64; TASK_WORDS], s: u64, m: ActionNumber, o: OutcomeNumber) -> u64
    ensures { result ≡ bit_or (bit_and s (keep_mask task.now m.number o.number)) (set_value task.now m.number o.number) }
{
    (s & kept(task, m, o)) | set(task, m, o)
}

// The digits that the goal needs.
pub fn goal_need(task: &[u64; TASK_WORDS]) -> u64
    ensures { result ≡ goal_mask task.now }
{
    task[GOAL_NEED]
}

// The values that it needs of them.
pub fn goal_value(task: &[u64; TASK_WORDS]) -> u64
    ensures { result ≡ goal_value task.now }
{
    task[GOAL_VALUE]
}

pub fn is_goal(task: &[u64; TASK_WORDS], s: u64) -> bool
    ensures { result ≡ (bit_and s (goal_mask task.now) == goal_value task.now) }
{
    s & goal_need(task) == goal_value(task)
}
