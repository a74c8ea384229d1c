// The states that wait, each once: a mark for each, and how many they are. Put and take promise only that what was put in and not taken out is in; in
// which order they are taken is a guess of `order`, and each of its answers is tested.
// Stays: bounds of N and L where a queue is made: a const parameter has no type that bounds it.
ghost use Rattle.std.specs.Prelude.{◌≡◌, ◌+◌, ◌-◌, ◌<◌, ◌≤◌, IfSome, IfNone};
ghost use Rattle.tables.specs.Waiting.{Waits};
ghost use Rattle.tables.specs.Queue.{waiting, Queue, Put, Taken};

use crate::worklist::order::Order;
use patterns::entry::Entry;

// So many of the states with indices below `states` wait.
#[derive(Drop)]
pub(crate) struct WaitingStates<const N: usize, const L: usize> {
    pub(crate) states: usize,
    pub(crate) marks: [bool; N],
    pub(crate) count: usize,
    order: Order<N, L>,
    ghost small: { N + L ≤ 8192 },
    ghost waits: { Queue states marks count },
}

// The first state that waits.
fn first_waiting(marks: &[bool]) -> usize
    ensures { 1 ≤ waiting marks.now → Waits marks.now result }
{
    for (j, mark) in marks.iter().enumerate() {
        if *mark {
            return j;
        }
    }
    0
}

// This state if it waits, else another one that does.
fn waiting_one(marks: &[bool], guess: usize) -> usize
    ensures { 1 ≤ waiting marks.now → Waits marks.now result }
{
    if guess < marks.len() {
        if marks[guess] {
            return guess;
        }
    }
    first_waiting(marks)
}

impl<const N: usize, const L: usize> WaitingStates<N, L> {
    // No state waits. Entries that wait will be at most `most` apart, or all weights are equal and L is 1.
    pub(crate) fn new(states: usize, most: u16) -> WaitingStates<N, L>
        requires { (states ≤ N) × (N ≤ 4096) × (1 ≤ N) × (1 ≤ L) × (L ≤ 4096) }
        ensures { result.states ≡ states }
    {
        WaitingStates {
            states,
            marks: [false; N],
            count: 0,
            order: Order::new(most),
        }
    }

    // State j, whose entry is this, waits from now on.
    pub(crate) fn put(&mut self, j: usize, entry: Entry)
        requires { j < self.old.states }
        ensures { (Put self.old.states self.old.marks self.old.count j self.new.marks self.new.count) × (self.new.states ≡ self.old.states) }
    {
        if self.marks[j] {
            self.order.lower(j, entry);
            return;
        }
        self.order.put(j, entry);
        self.marks[j] = true;
        self.count += 1;
    }

    // A state waits no longer: the one of the least entry, if the order is right; none if no state waits.
    pub(crate) fn take(&mut self) -> Option<usize>
        ensures taken { IfSome result (λ j. (Taken self.old.states self.old.marks self.old.count self.new.marks j) × (1 ≤ self.old.count) × (self.new.count ≡ self.old.count - 1)) }
        ensures none { IfNone result (self.old.count ≡ 0) }
        ensures states { self.new.states ≡ self.old.states }
    {
        if self.count == 0 {
            return None;
        }
        let guess = self.order.take();
        let j = waiting_one(&self.marks, guess);
        self.count -= 1;
        self.marks[j] = false;
        Some(j)
    }
}
