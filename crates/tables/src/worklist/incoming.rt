// Which edges lead into a state: the index is split into a lower and an upper part, and for each part and each 64 edges there is one set of
// edges. The meet of the two sets misses no edge that leads into the state; going along another edge does no harm. A table of few states has
// no sets, and its edges are tested one by one.
// Stays: `as` of a digit: a word has no `From` into an index, and `try_from` has a case that never happens.
ghost use Rattle.std.specs.Prelude.{◌≡◌, ℕ, ◌+◌, ◌-◌, ◌*◌, ◌/◌, ◌<◌, ◌≤◌, min, true, length, slice_index};
ghost use Rattle.packed_task.specs.Sets.{SlotsOf};
ghost use Rattle.tables.specs.Incoming.{Row, Tests, Halved, Incoming, edge_need, digits_meet, PartFilled, EdgeRow};

use crate::sets::set_of;
use crate::worklist::edge::Edge;
use crate::worklist::edges::Graph;
use packed_task::applying::enter;

// The edges of a row, entered in the slots of what their tests ask of each digit, and the set of all of them.
#[derive(Drop)]
struct EdgeSlots {
    slots: [u64; 272],
    all: u64,
}

// Enters the edges from `first` on, `count` of them.
fn enter_edges(edges: &[Edge], first: usize, count: usize, slots: &mut [u64; 272])
    requires { (count ≤ 64) × (first + count ≤ 512) × (first + count ≤ length edges.now) × ((i : ℕ) → slice_index slots.old i ≡ 0) }
    ensures { SlotsOf (edge_need edges.now first) count 16 slots.new }
{
    for q in 0..count {
        let edge = edges[first + q];
        enter(slots, edge.mask, edge.value, 1 << q, 16);
    }
}

// Those of the edges whose tests the digits of a word within a part pass.
fn meet_digits(edges: &EdgeSlots, part: u64, word: u64) -> u64
    ensures { result ≡ digits_meet edges.now.slots part word edges.now.all 0 16 }
{
    let slots = &edges.slots;
    let mut set = edges.all;
    let mut rest = part;
    let mut w = word;
    for v in 0..16 {
        if rest == 0 {
            return set;
        }
        if rest % 16 != 0 {
            set &= slots[17 * v + (w % 16) as usize] | slots[17 * v + 16];
        }
        rest /= 16;
        w /= 16;
    }
    set
}

// The sets of a part, for states `step` apart.
fn fill_part(edges: &EdgeSlots, states: &[u64], part: u64, step: usize, sets: &mut [u64])
    requires { (1 ≤ step) × (length sets.old * step ≤ length states.now) }
    ensures { PartFilled states.now edges.now.slots edges.now.all part step sets.new }
{
    for (h, set) in sets.iter_mut().enumerate() {
        *set = meet_digits(edges, part, states[h * step]);
    }
}

// How the index of the states is split: `lower` states of the digits `low`, and `upper` of the digits `high`; and the words of all.
#[derive(Clone, Copy)]
pub(crate) struct Halves<'a> {
    pub(crate) words: &'a [u64],
    pub(crate) lower: usize,
    pub(crate) upper: usize,
    pub(crate) low: u64,
    pub(crate) high: u64,
}

// The row of the edges from `first` on, `count` of them.
fn fill_row(halves: &Halves, edges: &[Edge], first: usize, count: usize, row: &mut [u64])
    requires { (count ≤ 64) × (first + count ≤ 512) × (first + count ≤ length edges.now) × (Halved halves.now.words.now halves.now.lower halves.now.upper halves.now.low halves.now.high) × (1 ≤ halves.now.upper) × (length row.old ≡ halves.now.lower + halves.now.upper) }
    ensures { EdgeRow halves.now.words.now edges.now row.new halves.now.low halves.now.high halves.now.lower halves.now.upper first count }
{
    let mut entered = EdgeSlots {
        slots: [0; 272],
        all: set_of(count, |_| true),
    };
    enter_edges(edges, first, count, &mut entered.slots);
    let (lows, highs) = row.split_at_mut(halves.lower);
    fill_part(&entered, halves.words, halves.low, 1, lows);
    fill_part(&entered, halves.words, halves.high, halves.lower, highs);
}

// Every row, if there is room for sets at all.
pub(crate) fn fill_sets(halves: &Halves, edges: &[Edge], k: usize, sets: &mut [u64])
    requires { (Tests edges.now k) × (Halved halves.now.words.now halves.now.lower halves.now.upper halves.now.low halves.now.high) × (1 ≤ length sets.old → (c : ℕ) → 64 * c < k → (halves.now.lower + halves.now.upper) * c + halves.now.lower + halves.now.upper ≤ length sets.old) }
    ensures { Incoming halves.now.words.now edges.now (halves.now.upper * halves.now.lower) k halves.now.lower halves.now.upper sets.new }
{
    if sets.is_empty() {
        return;
    }
    if halves.upper == 0 {
        return;
    }
    let width = halves.lower + halves.upper;
    for c in 0..k.div_ceil(64) {
        let first = 64 * c;
        let count = (k - first).min(64);
        let base = width * c;
        fill_row(halves, edges, first, count, &mut sets[base..base + width]);
    }
}

// The edges of row c whose tests a word passes, tried one by one.
fn tested(edges: &[Edge], word: u64, k: usize, c: usize) -> u64
    requires { (Tests edges.now k) × (64 * c < k) }
    ensures { Row edges.now word k c result }
{
    let count = (k - 64 * c).min(64);
    set_of(count, |q| {
        let edge = edges[64 * c + q];
        word & edge.mask == edge.value
    })
}

// j / lower by a product; the division itself is made only where that is off.
pub(crate) fn upper_part(j: usize, lower: usize, inverse: usize) -> usize
    requires { (j < 65536) × (1 ≤ lower) × (lower ≤ 64) × (inverse < 4294967296) }
    ensures { result ≡ j / lower }
{
    let h = j * inverse / 1048576;
    let at = h * lower;
    if at <= j && j - at < lower {
        return h;
    }
    j / lower
}

// The edges of row c that may lead into state j, whose upper part is h.
pub(crate) fn edges_into(graph: &Graph, j: usize, h: usize, c: usize) -> u64
    requires { (j < graph.now.number) × (h ≡ j / graph.now.lower) × (64 * c < graph.now.edge_number) }
    ensures { Row graph.now.edges (slice_index graph.now.space.states j) graph.now.edge_number c result }
{
    let sets = graph.sets;
    let lower = graph.lower;
    if sets.is_empty() {
        return tested(graph.edges, graph.states[j], graph.k, c);
    }
    let base = (lower + graph.upper) * c;
    sets[base + (j - h * lower)] & sets[base + lower + h]
}
