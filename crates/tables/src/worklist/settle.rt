// The worklist: the goals have 0 and wait; a state that waits is taken, and the actions that lead to it are asked about the states before it; an
// entry that falls waits. It ends when no state waits, or none that waits can lower an entry. The order in which states are taken carries no proof.
ghost use Rattle.std.specs.Prelude.{◌≡◌, ℕ, ◌/◌, ◌<◌, ◌≤◌, true, length, slice_index};
ghost use Rattle.tables.specs.Steps.{started, Settled};
ghost use Rattle.tables.specs.Waiting.{Kept};
ghost use Rattle.tables.specs.Edges.{edge_weight};
ghost use Rattle.tables.specs.Incoming.{Row};
ghost use Rattle.tables.specs.Patterned.{states_of};
ghost use Rattle.tables.specs.Listed.{SplitAt, Roomy, space_in};
ghost use Rattle.tables.specs.Visits.{RowDone, Visited, Level, Weighing};

use crate::worklist::edge::Edge;
use crate::worklist::edges::{Graph, fill_edges};
use crate::worklist::goals::put_goals;
use crate::worklist::incoming::{Halves, edges_into, fill_sets, upper_part};
use crate::worklist::parts::Parts;
use crate::worklist::queue::WaitingStates;
use crate::worklist::states::States;
use crate::worklist::visits::{Worklist, is_plain};
use packed_task::sets::Members;
use patterns::entry::{Entry, INFINITE};

// The least and the largest weight of some edges.
#[derive(Clone, Copy)]
struct Weights {
    least: u16,
    most: u16,
}

// Those of the first k edges.
fn weights_among(edges: &[Edge], k: usize) -> Weights
    requires { k ≤ length edges.now }
    ensures { (e : ℕ) → e < k → result.least ≤ edge_weight edges.now e }
{
    let mut least = u16::MAX;
    let mut most = 0u16;
    for e in 0..k {
        let weight = edges[e].weight;
        least = least.min(weight);
        most = most.max(weight);
    }
    Weights { least, most }
}

// Whether no state that waits can lower an entry, where an action weighs at least so much: none is more than that above the least that waits.
fn is_level(entries: &[Entry], marks: &[bool], weight: u16) -> bool
    requires { length entries.now ≤ length marks.now }
    ensures { result ≡ true → Level entries.now marks.now weight }
{
    let mut most = 0u64;
    let mut least = u64::from(INFINITE);
    for (i, entry) in entries.iter().enumerate() {
        let e = u64::from(*entry);
        most = most.max(e);
        if marks[i] {
            least = least.min(e);
        }
    }
    most <= least + u64::from(weight)
}

impl<'a, const N: usize, const L: usize> Worklist<'a, N, L> {
    ghost use Rattle.tables.specs.Worklist.{Goes};

    // The edges of a set, of the 64 from 64 * c on, without those below number `from` of these.
    #[inline(never)]
    fn visit_row(&mut self, j: usize, entry: Entry, c: usize, from: usize, set: u64)
        requires { (j < length self.old.entries.now) × (slice_index self.old.entries.now j ≡ entry) × (Row self.old.graph.now.edges (slice_index self.old.graph.now.space.states j) self.old.graph.now.edge_number c set) × (c ≤ 8) × (from < 64) }
        ensures { Goes (λ g. RowDone g.space g.edges g.edge_number j c from) self.old self.new }
    {
        for q in Members(set >> from << from) {
            self.visit_edge(64 * c + q, j, entry);
        }
    }

    // The edges of a set, of the 64 from 64 * c on. Those that leave no digit free are many and quickly gone along, and need few registers; at the first
    // other one the rest is handed over.
    #[inline(always)]
    fn visit_set(&mut self, j: usize, entry: Entry, c: usize, set: u64)
        requires { (j < length self.old.entries.now) × (slice_index self.old.entries.now j ≡ entry) × (Row self.old.graph.now.edges (slice_index self.old.graph.now.space.states j) self.old.graph.now.edge_number c set) × (c ≤ 8) }
        ensures { Goes (λ g. RowDone g.space g.edges g.edge_number j c 0) self.old self.new }
    {
        let graph = self.graph;
        for q in Members(set) {
            let e = 64 * c + q;
            if !is_plain(graph.edges, e) {
                self.visit_row(j, entry, c, q, set);
                return;
            }
            self.visit_plain(e, j, entry);
        }
    }

    // Every edge that leads into state j, whose upper part is h, 64 by 64.
    #[inline(never)]
    fn visit_rows(&mut self, j: usize, entry: Entry, h: usize)
        requires { (j < length self.old.entries.now) × (slice_index self.old.entries.now j ≡ entry) × (h ≡ j / self.old.graph.now.lower) }
        ensures { Goes (λ g. Visited g.space j) self.old self.new }
    {
        let graph = self.graph;
        for c in 0..graph.k.div_ceil(64) {
            let set = edges_into(graph, j, h, c);
            self.visit_set(j, entry, c, set);
        }
    }

    // Every edge that leads into state j: most graphs have no more than 64.
    fn visit(&mut self, j: usize)
        requires { j < length self.old.entries.now }
        ensures { Goes (λ g. Visited g.space j) self.old self.new }
    {
        let graph = self.graph;
        let entry = self.entries[j];
        let h = upper_part(j, graph.lower, graph.inverse);
        if graph.k == 0 || graph.k > 64 {
            self.visit_rows(j, entry, h);
            return;
        }
        let set = edges_into(graph, j, h, 0);
        self.visit_set(j, entry, 0, set);
    }

    // Takes the waiting states one by one; an action weighs at least `least`. When as many were taken or wait as there are states, each is likely to have
    // its entry, and one look at all of them may show that no other can fall; that look is made once for as many states.
    fn run(&mut self, least: u16)
        requires { (Kept self.old.graph.now.space self.old.entries.now self.old.entries.now self.old.queue.now.marks) × Weighing self.old.graph.now.space least }
        ensures same_entries { self.new.entries.ghost_name ≡ self.old.entries.ghost_name }
        ensures same_queue { self.new.queue.ghost_name ≡ self.old.queue.ghost_name }
        ensures settled { Settled self.old.graph.now.space self.old.entries.now self.new.entries.now }
    {
        let graph = self.graph;
        let n = graph.n;
        let mut since = 0usize;
        // Stays: no iterator: the loop goes on while states wait, and makes states wait again.
        while let Some(j) = self.queue.take() {
            self.visit(j);
            since += 1;
            if since + self.queue.count >= n {
                let entries = &mut *self.entries;
                let queue = &mut *self.queue;
                if is_level(entries, &queue.marks, least) {
                    return;
                }
                since = 0;
            }
        }
    }
}

// The goals are 0 and wait first, and then what can be lowered is. Where the weights differ, L is N, else 1.
// Like `build_within` it is compiled into no other, so that a table of equal weights touches no page of the lists.
#[inline(never)]
fn settle_by<const N: usize, const L: usize>(
    states: &States,
    graph: &Graph,
    entries: &mut [Entry],
    weights: Weights,
)
    requires { (graph.now.space ≡ space_in states.now.pattern.now states.now.weights.now states.now.words.now) × (graph.now.number ≡ length entries.old) × (length entries.old ≡ states_of states.now.pattern.now) × (length entries.old ≤ N) × (1 ≤ N) × (N ≤ 4096) × (1 ≤ L) × (L ≤ 4096) × Weighing graph.now.space weights.least }
    ensures { Settled graph.now.space (started graph.now.space.task graph.now.space.mask graph.now.space.states (length entries.old)) entries.new }
{
    let mut queue: WaitingStates<N, L> = WaitingStates::new(graph.n, weights.most);
    put_goals(states.pattern, states.weights, entries, &mut queue);
    let mut work = Worklist {
        graph,
        entries,
        queue: &mut queue,
    };
    work.run(weights.least);
}

// The same with the lists of an order by entry, in few sizes: the code of the worklist is there once for each.
fn settle_listed(states: &States, graph: &Graph, entries: &mut [Entry], weights: Weights)
    requires { (graph.now.space ≡ space_in states.now.pattern.now states.now.weights.now states.now.words.now) × (graph.now.number ≡ length entries.old) × (length entries.old ≡ states_of states.now.pattern.now) × (length entries.old ≤ 4096) × Weighing graph.now.space weights.least }
    ensures { Settled graph.now.space (started graph.now.space.task graph.now.space.mask graph.now.space.states (length entries.old)) entries.new }
{
    if entries.len() <= 64 {
        return settle_by::<64, 64>(states, graph, entries, weights);
    }
    if entries.len() <= 1024 {
        return settle_by::<1024, 1024>(states, graph, entries, weights);
    }
    settle_by::<4096, 4096>(states, graph, entries, weights)
}

// The same, with lists only where the weights differ.
fn settle_started<const N: usize>(states: &States, graph: &Graph, entries: &mut [Entry])
    requires { (graph.now.space ≡ space_in states.now.pattern.now states.now.weights.now states.now.words.now) × (graph.now.number ≡ length entries.old) × (length entries.old ≡ states_of states.now.pattern.now) × (length entries.old ≤ N) × (1 ≤ N) × (N ≤ 4096) }
    ensures { Settled graph.now.space (started graph.now.space.task graph.now.space.mask graph.now.space.states (length entries.old)) entries.new }
{
    let weights = weights_among(graph.edges, graph.k);
    if weights.least < weights.most {
        return settle_listed(states, graph, entries, weights);
    }
    settle_by::<N, 1>(states, graph, entries, weights)
}

// The arrays that a table takes: for the edges, and for their sets.
#[derive(Drop)]
pub(crate) struct Room<'a> {
    pub(crate) edges: &'a mut [Edge],
    pub(crate) sets: &'a mut [u64],
}

// The entries of a pattern's states, from the goals on along the edges.
pub(crate) fn settle<const N: usize>(
    states: &States,
    parts: Parts,
    room: Room,
    entries: &mut [Entry],
)
    requires { (length entries.old ≡ states_of states.now.pattern.now) × (SplitAt states.now.pattern.now parts.lower parts.low) × (Roomy states.now.pattern.now room.edges.now room.sets.now) × (length entries.old ≤ N) × (1 ≤ N) × (N ≤ 4096) }
    ensures { Settled (space_in states.now.pattern.now states.now.weights.now states.now.words.now) (started states.now.pattern.now.task states.now.pattern.now.mask states.now.words.now (length entries.old)) entries.new }
{
    let pattern = states.pattern;
    let n = entries.len();
    let Room { edges, sets } = room;
    let lower = parts.lower;
    let upper = n / lower;
    let k = fill_edges(states, edges);
    let halves = Halves {
        words: states.words,
        lower,
        upper,
        low: parts.low,
        high: pattern.mask - parts.low,
    };
    fill_sets(&halves, edges, k, sets);
    let graph = Graph {
        task: pattern.task,
        mask: pattern.mask,
        weights: states.weights,
        states: states.words,
        actions: pattern.actions,
        sizes: pattern.sizes,
        n,
        edges,
        k,
        sets,
        lower,
        upper,
        inverse: 1048576 / lower + 1,
    };
    settle_started::<N>(states, &graph, entries);
}
