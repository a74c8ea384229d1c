// The goals of a pattern: their entries are 0, and they wait. They are found by going over the digits that the goal leaves free, and by no look at each
// state: most patterns have few goals (`build` looks at each state where they are many and no action counts).
ghost use Rattle.std.specs.Prelude.{◌≡◌, ℕ, ◌+◌, ◌*◌, ◌≤◌, List, length};
ghost use Rattle.tables.specs.Steps.{started};
ghost use Rattle.tables.specs.Patterned.{states_of};
ghost use Rattle.tables.specs.Listed.{WeightsOf, WordsOf};
ghost use Rattle.tables.specs.Goals.{Entered, Zeroed, Held};

use crate::pattern::Pattern;
use crate::steps::times;
use crate::worklist::index::index_of_few;
use crate::worklist::queue::WaitingStates;
use packed_task::compiled_task::{goal_need, goal_value};
use patterns::entry::{Entry, INFINITE};

// State i is a goal, if there is one with this index.
fn put_goal<const N: usize, const L: usize>(
    entries: &mut [Entry],
    queue: &mut WaitingStates<N, L>,
    i: usize,
)
    requires { Held entries.old queue.old.states queue.old.marks queue.old.count }
    ensures { (Zeroed entries.old entries.new i) × Held entries.new queue.new.states queue.new.marks queue.new.count }
{
    if i < entries.len() {
        entries[i] = 0;
        queue.put(i, 0);
    }
}

// The states are goals whose index is `at` and any values of the free digits from v on.
fn put_goals_from<const N: usize, const L: usize>(
    weights: &[u16; 16],
    sizes: &[u8; 16],
    v: usize,
    free: u64,
    at: usize,
    entries: &mut [Entry],
    queue: &mut WaitingStates<N, L>,
)
    requires { (v ≤ 16) × (at ≤ 65536 + 983025 * v) × Held entries.old queue.old.states queue.old.marks queue.old.count }
    ensures { (Entered weights.now sizes.now v free at entries.old entries.new) × Held entries.new queue.new.states queue.new.marks queue.new.count }
{
    if free == 0 || v >= 16 {
        put_goal(entries, queue, at);
        return;
    }
    if free % 16 == 0 {
        put_goals_from(weights, sizes, v + 1, free / 16, at, entries, queue);
        return;
    }
    let end = u64::from(sizes[v]).min(16);
    for d in 0..end {
        let i = at + times(d, weights[v]);
        // Behind the last free digit there is one state: without this test each goal takes a call.
        if free < 16 {
            put_goal(entries, queue, i);
        } else {
            put_goals_from(weights, sizes, v + 1, free / 16, i, entries, queue);
        }
    }
}

// Every entry is 0 at a goal, which waits, and infinite elsewhere.
pub(crate) fn put_goals<const N: usize, const L: usize>(
    pattern: &Pattern,
    weights: &[u16; 16],
    entries: &mut [Entry],
    queue: &mut WaitingStates<N, L>,
)
    requires { (WeightsOf pattern.now weights.now) × (length entries.old ≡ states_of pattern.now) × (queue.old.states ≡ length entries.old) }
    ensures started { (words : List ℕ) → WordsOf pattern.now words → entries.new ≡ started pattern.now.task pattern.now.mask words (length entries.old) }
    ensures held { Held entries.new queue.new.states queue.new.marks queue.new.count }
{
    entries.fill(INFINITE);
    let need = goal_need(pattern.task) & pattern.mask;
    let at = index_of_few(weights, goal_value(pattern.task) & pattern.mask);
    put_goals_from(
        weights,
        &pattern.sizes,
        0,
        pattern.mask - need,
        at,
        entries,
        queue,
    );
}
