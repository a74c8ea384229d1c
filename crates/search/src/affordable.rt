// The actions that a depth affords, as a set in one word for each depth below 256: those that weigh no more. Met with the actions that apply, it
// leaves those to try: in a task with unequal costs many that apply weigh more than the depth left, and each would be a call that fails at once. With
// these calls a search of 64 actions with costs from 1 to 9 took 1.34 of the instructions. Asks for at most 64 actions, whose weights fit a byte, and for
// sets that are all empty.
// Stays: `as` of a weight into an index: a word has no `From` into it, and `try_from` has a case that never happens.
ghost use Rattle.std.specs.Prelude.{◌≡◌, ℕ, ◌<◌, ◌≤◌, slice_index};
ghost use Rattle.packed_task.specs.Packed.{action_weight};
ghost use Rattle.search.specs.Examination.{Affordable};

use packed_task::compiled_task::weight;
use packed_task::layout::TASK_WORDS;
use packed_task::numbers::ActionNumber;

// Enters each action in the set of its weight, then adds to each set the one below it.
pub(crate) fn fill_affordable(task: &[u64; TASK_WORDS], actions: usize, sets: &mut [u64; 256])
    requires { (actions ≤ 64) × ((m : ℕ) → m < actions → action_weight task.now m ≤ 255) × ((i : ℕ) → slice_index sets.old i ≡ 0) }
    ensures { Affordable task.now sets.new actions }
{
    for m in 0..actions {
        let w = weight(task, ActionNumber { number: m }) as usize;
        sets[w] |= 1 << m;
    }
    for d in 1..256usize {
        sets[d] |= sets[d - 1];
    }
}
