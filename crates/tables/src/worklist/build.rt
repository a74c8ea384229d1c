// The table of one pattern. Arrays are cleared, which is most of what a small table costs: there are several sizes of them.
ghost use Rattle.std.specs.Prelude.{◌≡◌, ℕ, ◌≤◌, List, length, cond, bit_and, ◌==◌};
ghost use Rattle.planning.specs.Table.{infinite_entry};
ghost use Rattle.tables.specs.Patterned.{states_of, TableOf};
ghost use Rattle.tables.specs.Steps.{started};
ghost use Rattle.tables.specs.Listed.{RoomFor, WordsOf, edges_most};

use crate::pattern::Pattern;
use crate::ranking::{fill_states, weights_of};
use crate::worklist::edge::NO_EDGE;
use crate::worklist::edges::edge_count;
use crate::worklist::goals::put_goals;
use crate::worklist::parts::parts_of;
use crate::worklist::queue::WaitingStates;
use crate::worklist::settle::{Room, settle};
use crate::worklist::states::States;
use packed_task::compiled_task::{goal_need, goal_value};
use patterns::entry::{Entry, INFINITE};

// The table, with room for so many states, edges and sets; with no room for sets the edges are tested one by one.
// A function makes room for all its arrays where it begins, those of functions compiled into it among them: this one is compiled into no other, so
// that a small table touches no page of the large arrays.
#[inline(never)]
fn build_within<const STATES: usize, const EDGES: usize, const SETS: usize>(
    pattern: &Pattern,
    entries: &mut [Entry],
)
    requires { (length entries.old ≡ states_of pattern.now) × (RoomFor pattern.now STATES EDGES SETS) }
    ensures { TableOf pattern.now entries.new }
{
    let mut states = [0u64; STATES];
    let mut edges = [NO_EDGE; EDGES];
    let mut sets = [0u64; SETS];
    fill_states(pattern, &mut states);
    let weights = weights_of(pattern);
    let parts = parts_of(pattern);
    let listed = States {
        pattern,
        weights: &weights,
        words: &states,
    };
    let room = Room {
        edges: &mut edges,
        sets: &mut sets,
    };
    settle::<STATES>(&listed, parts, room, entries);
}

// 0 where a state meets the goal within the pattern, else infinite.
fn entry_at_start(state: u64, need: u64, value: u64) -> Entry
    ensures { result ≡ cond (bit_and state need == value) 0 infinite_entry }
{
    if state & need == value { 0 } else { INFINITE }
}

// Whether the goals are many: more than a sixteenth of the states. How many they are carries no proof.
fn has_many_goals(pattern: &Pattern) -> bool {
    let need = goal_need(pattern.task) & pattern.mask;
    let mut named = 1u64;
    for (v, size) in pattern.sizes.iter().enumerate() {
        if need >> (4 * v) & 15 != 0 {
            named = named.saturating_mul(u64::from(*size));
        }
    }
    named < 16
}

// The entries with the goals alone, by a look at each state.
#[inline(never)]
fn look_at_states<const STATES: usize>(pattern: &Pattern, entries: &mut [Entry])
    requires { (length entries.old ≡ states_of pattern.now) × (length entries.old ≤ STATES) × (1 ≤ STATES) × (STATES ≤ 4096) }
    ensures { (words : List ℕ) → WordsOf pattern.now words → entries.new ≡ started pattern.now.task pattern.now.mask words (length entries.old) }
{
    let mut words = [0u64; STATES];
    fill_states(pattern, &mut words);
    let need = goal_need(pattern.task) & pattern.mask;
    let value = goal_value(pattern.task) & pattern.mask;
    for (i, entry) in entries.iter_mut().enumerate() {
        *entry = entry_at_start(words[i], need, value);
    }
}

// The entries with the goals alone: found by the digits that the goal leaves free, which costs some tens of instructions for each goal, or, where they
// are many, by a look at each state.
#[inline(never)]
fn build_goals<const STATES: usize>(pattern: &Pattern, entries: &mut [Entry])
    requires { (length entries.old ≡ states_of pattern.now) × (length entries.old ≤ STATES) × (1 ≤ STATES) × (STATES ≤ 4096) }
    ensures { (words : List ℕ) → WordsOf pattern.now words → entries.new ≡ started pattern.now.task pattern.now.mask words (length entries.old) }
{
    if has_many_goals(pattern) {
        return look_at_states::<STATES>(pattern, entries);
    }
    let weights = weights_of(pattern);
    let mut queue: WaitingStates<STATES, 1> = WaitingStates::new(entries.len(), 0);
    put_goals(pattern, &weights, entries, &mut queue);
}

// The table of a pattern of few states and edges. Each size has a number of states of its own, and the functions that go by it are compiled for that size
// alone.
fn build_small(pattern: &Pattern, edges: usize, entries: &mut [Entry])
    requires { (length entries.old ≡ states_of pattern.now) × (length entries.old ≤ 1024) × (edges_most pattern.now ≤ edges) × (edges ≤ 32) }
    ensures { TableOf pattern.now entries.new }
{
    if entries.len() <= 16 && edges <= 16 {
        return build_within::<16, 16, 0>(pattern, entries);
    }
    if entries.len() <= 32 {
        return build_within::<32, 32, 0>(pattern, entries);
    }
    if entries.len() <= 64 {
        return build_within::<64, 32, 77>(pattern, entries);
    }
    if entries.len() <= 256 {
        return build_within::<256, 32, 116>(pattern, entries);
    }
    build_within::<1024, 32, 269>(pattern, entries)
}

// The table, with arrays of the least size that will do.
fn build_sized(pattern: &Pattern, edges: usize, entries: &mut [Entry])
    requires { (length entries.old ≡ states_of pattern.now) × (edges_most pattern.now ≤ edges) × (edges ≤ 512) }
    ensures { TableOf pattern.now entries.new }
{
    // Where every action may leave each state as it is, only the goals count.
    if pattern.effective == 0 {
        if entries.len() <= 64 {
            return build_goals::<64>(pattern, entries);
        }
        return build_goals::<4096>(pattern, entries);
    }
    if entries.len() <= 1024 && edges <= 32 {
        return build_small(pattern, edges, entries);
    }
    if entries.len() <= 128 && edges <= 128 {
        return build_within::<128, 128, 180>(pattern, entries);
    }
    if edges <= 32 {
        return build_within::<4096, 32, 884>(pattern, entries);
    }
    if edges <= 128 {
        return build_within::<4096, 128, 1768>(pattern, entries);
    }
    build_within::<4096, 512, 7072>(pattern, entries)
}

// Fills `entries` with the table of the pattern.
pub(crate) fn build_table(pattern: &Pattern, entries: &mut [Entry])
    requires { length entries.old ≡ states_of pattern.now }
    ensures { TableOf pattern.now entries.new }
{
    // Where the goal names no variable of the pattern, every state is a goal.
    if goal_need(pattern.task) & pattern.mask == 0 {
        entries.fill(0);
        return;
    }
    let edges = edge_count(
        pattern.task,
        pattern.mask,
        pattern.actions,
        pattern.effective,
    );
    build_sized(pattern, edges, entries);
}
