// The states before a state: the actions that lead to it are asked about them, and an entry above an action's Bellman value is lowered and waits.
// Stays: `as`: an index has no `From` into what is narrower, and `try_from` has a case that never happens.
ghost use Rattle.std.specs.Prelude.{◌≡◌, ℕ, ◌+◌, ◌-◌, ◌*◌, ◌^◌, ◌<◌, ◌≤◌, true, length, drop, slice_index};
ghost use Rattle.planning.specs.Table.{infinite_entry};
ghost use Rattle.tables.specs.Steps.{weigh, permitted_at};
ghost use Rattle.tables.specs.Edges.{edge_action, Plain, Single, Choices};
ghost use Rattle.tables.specs.Visits.{above, way_forward, BellmanValue, Lowers, Only, Asked, AskedFrom, Laned, Freed, Passed};

use crate::steps::{raise, times};
use crate::worklist::edge::Edge;
use crate::worklist::edges::Graph;
use crate::worklist::queue::WaitingStates;
use packed_task::numbers::ActionNumber;
use packed_task::within::permits;
use patterns::entry::{Entry, INFINITE, entry_at};

// What goes on while states wait: the graph, the entries of its states so far, and those that wait.
#[derive(Drop)]
pub(crate) struct Worklist<'a, const N: usize, const L: usize> {
    pub(crate) graph: &'a Graph<'a>,
    pub(crate) entries: &'a mut [Entry],
    pub(crate) queue: &'a mut WaitingStates<N, L>,
    ghost all: { graph.now.number ≡ length entries.now },
    ghost queue_states: { queue.now.states ≡ length entries.now },
}

// Edge e into state j, whose entry is `entry`.
// Stays: numbers narrower than an index: with fields of a `usize` there is a gap that is cleared for each edge, and going along one takes up to 1.18.
#[derive(Clone, Copy)]
struct Arrival {
    e: u16,
    j: u16,
    entry: Entry,
}

// How many digits of a word are 0 below the lowest that is not.
fn digits_skipped(s: u64) -> usize
    ensures { (result < 16) × (a : ℕ) × (s ≡ a * 16 ^ result) }
{
    u64::trailing_zeros(s) as usize / 4 % 16
}

// The index of the digits of a word from v on, those that are 0 passed over. It calls itself, since a loop is unrolled and takes the registers of the
// loops around it.
fn weigh_from(weights: &[u16; 16], v: usize, s: u64) -> usize
    requires { (v ≤ 16) × (length weights.now ≤ 16) }
    ensures { (result ≡ weigh (drop v weights.now) s) × (result ≤ 983025 * (16 - v)) }
{
    if s == 0 {
        return 0;
    }
    let skipped = digits_skipped(s);
    let u = v + skipped;
    if u >= 16 {
        return 0;
    }
    let rest = s >> (4 * skipped);
    times(rest % 16, weights[u]) + weigh_from(weights, u + 1, rest / 16)
}

// The index of the state after edge e from state i.
fn index_after(edges: &[Edge], weights: &[u16; 16], e: usize, i: usize, s: u64) -> usize
    requires { (e < length edges.now) × (i ≤ 4096) × (length weights.now ≤ 16) }
    ensures { result ≡ way_forward edges.now weights.now e i s }
{
    let edge = edges[e];
    let mut free = edge.one().sum(s) + edge.two().sum(s);
    if edge.free != 0 {
        free += weigh_from(weights, 0, s & edge.free);
    }
    (i + 65536 - free % 65536 + 65536 - usize::from(edge.back)) % 65536
}

// The Bellman value of the action of edge e in state i, by its own edges, and infinite if one of them leads to a state that waits.
#[inline(always)]
fn bellman_value_along(
    graph: &Graph,
    entries: &[Entry],
    marks: &[bool],
    e: usize,
    i: usize,
) -> Entry
    requires { (e < graph.now.edge_number) × (i < length entries.now) × (graph.now.number ≡ length entries.now) × (length entries.now ≤ length marks.now) × (permitted_at graph.now.space (edge_action graph.now.edges e) i ≡ true) }
    ensures { BellmanValue graph.now.space entries.now marks.now (edge_action graph.now.edges e) i result }
{
    let edges = graph.edges;
    let states = graph.states;
    let s = states[i];
    let edge = edges[e];
    let first = usize::from(edge.first);
    let many = usize::from(edge.many);
    let end = first + many;
    let mut most: Entry = 0;
    for f in first..end {
        let j = index_after(edges, graph.weights, f, i, s);
        let v = entry_at(entries, j);
        if v == INFINITE {
            return INFINITE;
        }
        if marks[j] {
            return INFINITE;
        }
        most = most.max(v);
    }
    raise(u64::from(edge.weight), most)
}

// The action of edge e is asked about state i: its entry falls to the action's Bellman value, if that is less, and then the state waits.
// It is compiled into no other function: it would take the registers of the loops around it.
// Stays: over the parts of a worklist, with clauses on their lengths, as `ask_only` and `ask_from`: as methods of `Worklist` they read it again after
// each store, and tables of 16^3 states take 1.06 times the instructions. The bounds of e, i and j, here and below, are each of a single number that
// an index needs.
#[inline(never)]
fn ask<const N: usize, const L: usize>(
    graph: &Graph,
    entries: &mut [Entry],
    queue: &mut WaitingStates<N, L>,
    e: usize,
    i: usize,
)
    requires { (e < graph.now.edge_number) × (i < length entries.old) × (graph.now.number ≡ length entries.old) × (queue.old.states ≡ length entries.old) }
    ensures { (Asked graph.now.space (edge_action graph.now.edges e) i entries.old queue.old.marks queue.old.count entries.new queue.new.marks queue.new.count) × (queue.new.states ≡ queue.old.states) }
{
    let states = graph.states;
    let edge = graph.edges[e];
    let action = ActionNumber {
        number: usize::from(edge.action),
    };
    if !permits(graph.task, graph.mask, action, states[i]) {
        return;
    }
    let v = bellman_value_along(graph, entries, &queue.marks, e, i);
    if v >= entries[i] {
        return;
    }
    entries[i] = v;
    queue.put(i, v);
}

// The action of edge e, which has no other edge and leads from state i on, is asked about i: entry i falls to the value along the
// edge, if the action is permitted.
#[inline(always)]
fn ask_only<const N: usize, const L: usize>(
    graph: &Graph,
    entries: &mut [Entry],
    queue: &mut WaitingStates<N, L>,
    e: usize,
    i: usize,
    value: u64,
)
    requires { (e < graph.now.edge_number) × (i < length entries.old) × (graph.now.number ≡ length entries.old) × (queue.old.states ≡ length entries.old) × (Only graph.now.space graph.now.edges entries.old e i value) }
    ensures { (Asked graph.now.space (edge_action graph.now.edges e) i entries.old queue.old.marks queue.old.count entries.new queue.new.marks queue.new.count) × (queue.new.states ≡ queue.old.states) }
{
    let states = graph.states;
    let edge = graph.edges[e];
    let action = ActionNumber {
        number: usize::from(edge.action),
    };
    if !permits(graph.task, graph.mask, action, states[i]) {
        return;
    }
    entries[i] = value as Entry;
    queue.put(i, entries[i]);
}

// The action of edge e, which leaves no digit free but that of its first lane, is asked about the state i, whose entry is above the value
// along the edge, if that leads from i to j.
#[inline(always)]
fn ask_from<const N: usize, const L: usize>(
    graph: &Graph,
    entries: &mut [Entry],
    queue: &mut WaitingStates<N, L>,
    e: usize,
    j: usize,
    i: usize,
    value: u64,
)
    requires { (e < graph.now.edge_number) × (i < length entries.old) × (graph.now.number ≡ length entries.old) × (queue.old.states ≡ length entries.old) × (Lowers graph.now.edges entries.old e i j value) × (Single graph.now.edges e) }
    ensures { (AskedFrom graph.now.space graph.now.edges e j i entries.old queue.old.marks queue.old.count entries.new queue.new.marks queue.new.count) × (queue.new.states ≡ queue.old.states) }
{
    let states = graph.states;
    let edge = graph.edges[e];
    if !edge.is_only() {
        ask(graph, entries, queue, e, i);
        return;
    }
    let at = (j + usize::from(edge.back)) % 65536;
    if at + edge.one().sum(states[i]) == i {
        ask_only(graph, entries, queue, e, i, value);
    }
}

// Whether entry i is there and above this value.
fn is_above(entries: &[Entry], i: usize, value: u64) -> bool
    ensures { (result ≡ above entries.now i value) × (slice_index entries.now i ≤ infinite_entry) }
{
    if i < entries.len() {
        return u64::from(entries[i]) > value;
    }
    false
}

// Whether edge e leaves no digit free.
#[inline(always)]
pub(crate) fn is_plain(edges: &[Edge], e: usize) -> bool
    requires { e < length edges.now }
    ensures { result ≡ true → Plain edges.now e }
{
    let edge = edges[e];
    edge.free == 0 && edge.is_plain()
}

// Whether edge e leaves no digit free but that of its first lane.
fn is_single(edges: &[Edge], e: usize) -> bool
    requires { e < length edges.now }
    ensures { result ≡ true → Single edges.now e }
{
    let edge = edges[e];
    edge.free == 0 && edge.two().weight() == 0
}

// How many values of a digit are gone through: one where it is not free.
fn values_of(free: u64, size: u8) -> u64
    ensures { (result ≤ 16) × (free ≡ 0 → 1 ≤ result) × (1 ≤ free → (d : ℕ) → d < 16 → d < size → d < result) }
{
    if free == 0 {
        return 1;
    }
    u64::from(size).min(16)
}

impl<'a, const N: usize, const L: usize> Worklist<'a, N, L> {
    ghost use Rattle.tables.specs.Worklist.{Goes};

    // The action of an edge is asked about the states whose index is `at` and any values of its two lanes.
    #[inline(always)]
    fn visit_lanes(&mut self, by: Arrival, at: usize)
        requires { (by.e < self.old.graph.now.edge_number) × (by.j < length self.old.entries.now) × (slice_index self.old.entries.now by.j ≡ by.entry) × (at ≤ 17000000) }
        ensures { Goes (λ g. Laned g.space g.edges by.e by.j at) self.old self.new }
    {
        let graph = self.graph;
        let entries = &mut *self.entries;
        let queue = &mut *self.queue;
        let e = usize::from(by.e);
        let edge = graph.edges[e];
        let value = u64::from(by.entry) + u64::from(edge.weight);
        let one = usize::from(edge.one().weight());
        let two = usize::from(edge.two().weight());
        let ones = usize::from(edge.one().values());
        let twos = usize::from(edge.two().values());
        // Stays: with the index as `at + y * two + x * one` tables of 16^3 and of 2^12 states take 1.06 times the instructions.
        let mut row = at;
        for y in 0..twos {
            let mut i = row;
            for x in 0..ones {
                if is_above(entries, i, value) {
                    ask(graph, entries, queue, e, i);
                }
                i += one;
            }
            row += two;
        }
    }

    // The action of an edge is asked about the states whose index is `at`, any values of its two lanes and of the free digits from v on; digits that are
    // not free are passed over.
    fn visit_free(&mut self, by: Arrival, v: usize, free: u64, at: usize)
        requires { (by.e < self.old.graph.now.edge_number) × (by.j < length self.old.entries.now) × (slice_index self.old.entries.now by.j ≡ by.entry) × (Choices self.old.graph.now.space.states self.old.graph.now.sizes (length self.old.entries.now) v free) × (v ≤ 16) × (at ≤ 65536 + 983025 * v) }
        ensures { Goes (λ g. Freed g.space g.edges by.e by.j v free at) self.old self.new }
    {
        let graph = self.graph;
        let weights = graph.weights;
        let skipped = digits_skipped(free);
        let u = v + skipped;
        if free == 0 || u >= 16 {
            self.visit_lanes(by, at);
            return;
        }
        let rest = free >> (4 * skipped);
        let end = values_of(rest % 16, graph.sizes[u]);
        for d in 0..end {
            let next = at + times(d, weights[u]);
            self.visit_free(by, u + 1, rest / 16, next);
        }
    }

    // The action of edge e, which leaves no digit free, is asked about the one state from which the edge leads to j.
    #[inline(always)]
    pub(crate) fn visit_plain(&mut self, e: usize, j: usize, entry: Entry)
        requires { (e < self.old.graph.now.edge_number) × (j < length self.old.entries.now) × (slice_index self.old.entries.now j ≡ entry) × (Plain self.old.graph.now.edges e) }
        ensures { Goes (λ g. Passed g.space g.edges e j) self.old self.new }
    {
        let graph = self.graph;
        let edges = graph.edges;
        let entries = &mut *self.entries;
        let queue = &mut *self.queue;
        let edge = edges[e];
        let at = (j + usize::from(edge.back)) % 65536;
        let value = u64::from(entry) + u64::from(edge.weight);
        if !is_above(entries, at, value) {
            return;
        }
        if edge.is_only() {
            ask_only(graph, entries, queue, e, at, value);
            return;
        }
        ask(graph, entries, queue, e, at);
    }

    // The action of edge e, which leaves no digit free but that of its first lane, is asked about the states from which the edge leads to j.
    #[inline(always)]
    fn visit_lane(&mut self, e: usize, j: usize, entry: Entry)
        requires { (e < self.old.graph.now.edge_number) × (j < length self.old.entries.now) × (slice_index self.old.entries.now j ≡ entry) × (Single self.old.graph.now.edges e) }
        ensures { Goes (λ g. Passed g.space g.edges e j) self.old self.new }
    {
        let graph = self.graph;
        let edges = graph.edges;
        let entries = &mut *self.entries;
        let queue = &mut *self.queue;
        let edge = edges[e];
        let value = u64::from(entry) + u64::from(edge.weight);
        let one = usize::from(edge.one().weight());
        let values = usize::from(edge.one().values());
        let at = (j + usize::from(edge.back)) % 65536;
        let mut i = at;
        for x in 0..values {
            if is_above(entries, i, value) {
                ask_from(graph, entries, queue, e, j, i, value);
            }
            i += one;
        }
    }

    // The action of edge e is asked about every state from which the edge leads to j.
    // Like `ask` it is compiled into no other function.
    #[inline(never)]
    fn visit_wide(&mut self, e: usize, j: usize, entry: Entry)
        requires { (e < self.old.graph.now.edge_number) × (j < length self.old.entries.now) × (slice_index self.old.entries.now j ≡ entry) }
        ensures { Goes (λ g. Passed g.space g.edges e j) self.old self.new }
    {
        let graph = self.graph;
        let edges = graph.edges;
        let edge = edges[e];
        let at = (j + usize::from(edge.back)) % 65536;
        let free = edge.free;
        let by = Arrival {
            e: e as u16,
            j: j as u16,
            entry,
        };
        if free == 0 {
            self.visit_lanes(by, at);
            return;
        }
        self.visit_free(by, 0, free, at);
    }

    // The same, by the shortest way that the edge allows.
    #[inline(always)]
    pub(crate) fn visit_edge(&mut self, e: usize, j: usize, entry: Entry)
        requires { (e < self.old.graph.now.edge_number) × (j < length self.old.entries.now) × (slice_index self.old.entries.now j ≡ entry) }
        ensures { Goes (λ g. Passed g.space g.edges e j) self.old self.new }
    {
        let graph = self.graph;
        let edges = graph.edges;
        if is_plain(edges, e) {
            self.visit_plain(e, j, entry);
            return;
        }
        if is_single(edges, e) {
            self.visit_lane(e, j, entry);
            return;
        }
        self.visit_wide(e, j, entry);
    }
}
