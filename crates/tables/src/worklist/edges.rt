// The edges of a pattern's abstraction: for each outcome of an action the test of a state after it and the way back to the states before it. Outcomes
// of one action that do the same within the pattern share an edge.
// Stays: `as`: a word has no `From` into an index or into what is narrower, and `try_from` has a case that never happens.
ghost use Rattle.std.specs.Prelude.{◌≡◌, ℕ, ◌+◌, ◌*◌, ◌<◌, ◌≤◌, true, not, length, IfSome, IfNone};
ghost use Rattle.packed_task.specs.Packed.{outcome_count, Readable};
ghost use Rattle.planning.specs.Sets.{set_from};
ghost use Rattle.packed_task.specs.Within.{idles};
ghost use Rattle.tables.specs.Edges.{edge_at, outcomes_from, EdgesOf};
ghost use Rattle.tables.specs.Incoming.{Tests};
ghost use Rattle.tables.specs.Patterned.{states_of};
ghost use Rattle.tables.specs.Listed.{space_in, edges_most};
ghost use Rattle.tables.specs.Made.{LaneOf, back_of, Same, EdgeFor, Untouched, Spanned, ActionPut};

use crate::steps::index_of;
use crate::worklist::edge::Edge;
use crate::worklist::index::index_of_few;
use crate::worklist::states::States;
use packed_task::compiled_task::{kept, need, outcome_count, set, value, weight};
use packed_task::layout::TASK_WORDS;
use packed_task::numbers::{ActionNumber, OutcomeNumber};
use packed_task::sets::Members;
use std::marker::Model;

// The abstract states of a pattern with the edges between them: what the build works on, the edges, and for each state those
// that lead into it, by the lower and the upper part of its index.
// Stays: the parts of `States` one by one: behind a `States` that is lent to it the pattern's fields would be those of a struct with an `impl Model` behind
// a field that is a reference, which the borrow checker does not cover (tried).
#[derive(Drop)]
pub(crate) struct Graph<'a> {
    pub(crate) task: &'a [u64; TASK_WORDS],
    pub(crate) mask: u64,
    pub(crate) weights: &'a [u16; 16],
    pub(crate) states: &'a [u64],
    pub(crate) actions: usize,
    pub(crate) sizes: [u8; 16],
    pub(crate) n: usize,
    pub(crate) edges: &'a [Edge],
    pub(crate) k: usize,
    pub(crate) sets: &'a [u64],
    pub(crate) lower: usize,
    pub(crate) upper: usize,
    pub(crate) inverse: usize,
}

impl<'a> Model for Graph<'a> {
    ghost use Rattle.tables.specs.Steps.{space};
    ghost use Rattle.tables.specs.Graph.{Graphed, Walked};

    ghost Value = { Graphed };

    ghost view = { λ g. record { space = space g.task.now g.mask g.weights.now g.states.now g.actions; sizes = g.sizes; number = g.n; edges = g.edges.now; edge_number = g.k; sets = g.sets.now; lower = g.lower; upper = g.upper; inverse = g.inverse } };

    ghost invariant = { λ g. Walked (record { space = space g.task.now g.mask g.weights.now g.states.now g.actions; sizes = g.sizes; number = g.n; edges = g.edges.now; edge_number = g.k; sets = g.sets.now; lower = g.lower; upper = g.upper; inverse = g.inverse }) };
}

// A free digit as a lane, and the free digits without it.
#[derive(Clone, Copy)]
struct FreeLane {
    lane: u64,
    rest: u64,
}

// A lane of the lowest free digit: its weight, its position in a word and its number of values. Where there is none it has one value, and adds nothing.
fn lane_of(weights: &[u16; 16], sizes: [u8; 16], free: u64) -> FreeLane
    ensures { (LaneOf weights.now sizes free result.lane result.rest) × (result.lane < 4294967296) }
{
    let u = u64::trailing_zeros(free) as usize / 4 % 16;
    let place = 1u64 << (4 * u);
    if free / place % 16 != 15 {
        return FreeLane {
            lane: 16777216,
            rest: free,
        };
    }
    let lane = u64::from(weights[u]) + 65536 * (4 * u) as u64 + 16777216 * u64::from(sizes[u]);
    FreeLane {
        lane,
        rest: free - 15 * place,
    }
}

// Whether an outcome of action m before outcome o keeps and sets the same within the mask.
fn is_twin(task: &[u64; TASK_WORDS], mask: u64, m: ActionNumber, o: OutcomeNumber) -> bool
    ensures { result ≡ true → (p : ℕ) × (p < o.number) × Same task.now mask m.number p o.number }
{
    let keeps = kept(task, m, o) & mask;
    let sets = set(task, m, o) & mask;
    (0..o.number).any(
        |p|
            requires { p < 8 }
        {
            let other = OutcomeNumber { number: p };
            kept(task, m, other) & mask == keeps && set(task, m, other) & mask == sets
        },
    )
}

// How the index changes on the way back, modulo 65,536.
fn way_back(gain: usize, loss: usize) -> u16
    ensures { result ≡ back_of gain loss }
{
    ((gain % 65536 + 65536 - loss % 65536) % 65536) as u16
}

// The edge of outcome o of action m, unless an earlier outcome does the same; it does not know yet which are the edges of the action.
fn edge_of(states: &States, m: ActionNumber, o: OutcomeNumber) -> Option<Edge>
    requires { m.number < states.now.pattern.now.actions }
    ensures some { IfSome result (EdgeFor states.now.pattern.now.task states.now.pattern.now.mask states.now.weights.now states.now.pattern.now.sizes m.number o.number) }
    ensures none { IfNone result ((p : ℕ) × (p < o.number) × Same states.now.pattern.now.task states.now.pattern.now.mask m.number p o.number) }
{
    let pattern = states.pattern;
    let task = pattern.task;
    let mask = pattern.mask;
    let weights = states.weights;
    let sizes = pattern.sizes;
    if is_twin(task, mask, m, o) {
        return None;
    }
    let need = need(task, m);
    let value = value(task, m);
    let keeps = kept(task, m, o) & mask;
    let sets = set(task, m, o) & mask;
    let names = mask - keeps;
    let back = way_back(
        index_of_few(weights, value & names),
        index_of_few(weights, sets),
    );
    let weight = weight(task, m) as u16;
    let one = lane_of(weights, sizes, names - (need & names));
    let two = lane_of(weights, sizes, one.rest);
    Some(Edge {
        mask: names | (need & keeps),
        value: sets | (value & keeps),
        lanes: one.lane + 4294967296 * two.lane,
        free: two.rest,
        back,
        weight,
        first: 0,
        action: m.number as u8,
        many: 0,
    })
}

// The edges of an action are those from `first` to `end`, and each knows it.
fn put_span(edges: &mut [Edge], first: usize, end: usize)
    requires { (first ≤ end) × (end ≤ first + 8) × (end ≤ 512) × (end ≤ length edges.old) }
    ensures { Spanned edges.old edges.new first end end }
{
    for e in first..end {
        edges[e] = Edge {
            first: first as u16,
            many: (end - first) as u8,
            ..edges[e]
        };
    }
}

// The edges of action m, from number `first` on. Answers where they end.
fn put_action(states: &States, edges: &mut [Edge], first: usize, m: usize) -> usize
    requires { (m < states.now.pattern.now.actions) × (first + outcome_count states.now.pattern.now.task m ≤ 512) × (first + outcome_count states.now.pattern.now.task m ≤ length edges.old) }
    ensures { ActionPut states.now.pattern.now.task states.now.pattern.now.mask states.now.weights.now states.now.pattern.now.sizes edges.old edges.new first m result }
{
    let pattern = states.pattern;
    let action = ActionNumber { number: m };
    let n = outcome_count(pattern.task, action);
    let mut e = first;
    for o in 0..n {
        if let Some(edge) = edge_of(states, action, OutcomeNumber { number: o }) {
            edges[e] = edge;
            e += 1;
        }
    }
    put_span(edges, first, e);
    e
}

// The edges of the effective actions. Answers how many.
pub(crate) fn fill_edges(states: &States, edges: &mut [Edge]) -> usize
    requires { (edges_most states.now.pattern.now ≤ 512) × (edges_most states.now.pattern.now ≤ length edges.old) }
    ensures { (EdgesOf (space_in states.now.pattern.now states.now.weights.now states.now.words.now) states.now.pattern.now.sizes (states_of states.now.pattern.now) edges.new result) × (Tests edges.new result) × (result ≤ edges_most states.now.pattern.now) }
{
    let pattern = states.pattern;
    let mut c = 0usize;
    for m in Members(pattern.effective) {
        c = put_action(states, edges, c, m);
    }
    c
}

// How many outcomes the effective actions have: they have no more edges.
pub(crate) fn edge_count(
    task: &[u64; TASK_WORDS],
    mask: u64,
    actions: usize,
    effective: u64,
) -> usize
    requires { (Readable task.now actions) × (effective ≡ set_from (λ m. not (idles task.now mask m)) 0 actions) }
    ensures { (result ≡ outcomes_from task.now mask 0 actions) × (result ≤ 512) }
{
    let mut c = 0usize;
    for m in Members(effective) {
        c += outcome_count(task, ActionNumber { number: m });
    }
    c
}
