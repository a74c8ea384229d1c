// The order in which waiting states are taken: by rising entry, so that each is mostly taken once, with its last entry. It is a guess: whoever asks
// for the next state looks whether that waits. So nothing is promised here, and each index is cut to its array where it is used.
// Where all weights are equal, entries rise in the order in which states are put: a ring of their indices, with no array for lists. Else the states that
// wait stand in lists by entry. Those that wait are at most the largest weight apart, so the lists are used round and round.
// Stays: `as` of the index of a state: it has no `From` into what is narrower, and `try_from` has a case that never happens.
ghost use Rattle.std.specs.Prelude.{◌+◌, ◌≤◌};

use patterns::entry::Entry;

// No state: what stands behind the last one of a list.
const NONE: u16 = 65535;

// What stands before the first state of list b is this and b.
const FIRST: u16 = 4096;

// L is N for lists, and 1 for the ring.
#[derive(Drop)]
pub(crate) struct Order<const N: usize, const L: usize> {
    // In the ring the states that wait, in lists the state behind each.
    next: [u16; N],
    before: [u16; L],
    // The first state of each list that is not empty, and the set of these.
    first: [u16; L],
    filled: [u64; 4],
    // The lowest digits of each state's entry: what differs within a list.
    lowest: [u8; L],
    // Where the ring begins, or the list in turn; where the ring ends.
    turn: usize,
    end: usize,
    // Entries that differ in this many of their lowest bits alone share a list; with 256 lists it is 0.
    shift: u32,
    ghost some: { 1 ≤ N },
    ghost lists: { 1 ≤ L },
    ghost small: { N + L ≤ 8192 },
}

// How many of the lowest bits of an entry are left out, so that entries that are at most `most` apart are in different lists of so many, or in one.
fn shift_for(most: u16, lists: usize) -> u32 {
    if usize::from(most) < lists {
        return 0;
    }
    for shift in 1..8u32 {
        if usize::from(most >> shift) + 1 < lists {
            return shift;
        }
    }
    8
}

impl<const N: usize, const L: usize> Order<N, L> {
    // Entries that wait will be at most `most` apart.
    pub(crate) fn new(most: u16) -> Order<N, L>
        requires { (1 ≤ N) × (1 ≤ L) × (N + L ≤ 8192) }
    {
        Order {
            next: [0u16; N],
            before: [0u16; L],
            first: [0u16; L],
            filled: [0u64; 4],
            lowest: [0u8; L],
            turn: 0,
            end: 0,
            shift: shift_for(most, L.min(256)),
        }
    }

    // State j, which did not wait, is put in.
    pub(crate) fn put(&mut self, j: usize, entry: Entry) {
        if L > 1 {
            self.enlist(j % N, entry);
            return;
        }
        let at = self.end % N;
        self.next[at] = (j % 65536) as u16;
        self.end = at + 1;
    }

    // The entry of state j, which waits, fell. In the ring it stays where it is.
    pub(crate) fn lower(&mut self, j: usize, entry: Entry) {
        if L > 1 {
            self.delist(j % N);
            self.enlist(j % N, entry);
        }
    }

    // The next state, and it is in no longer; any number if there is none.
    pub(crate) fn take(&mut self) -> usize {
        if L > 1 {
            return self.take_listed();
        }
        let at = self.turn % N;
        self.turn = at + 1;
        usize::from(self.next[at])
    }

    fn take_listed(&mut self) -> usize {
        let list = self.next_list();
        self.turn = list;
        let first = self.first[list % L];
        if L < 256 && self.shift > 0 {
            let least = self.least_from(first);
            self.delist(least);
            return least;
        }
        let behind = self.next[usize::from(first) % N];
        if behind != NONE {
            self.before[usize::from(behind) % L] = FIRST + (list % 256) as u16;
        }
        self.begin(list, behind);
        usize::from(first)
    }

    // The list in turn, or the next one that is not empty.
    fn next_list(&self) -> usize {
        let word = self.turn / 64 % 4;
        let rest = self.filled[word] >> (self.turn % 64) << (self.turn % 64);
        if rest != 0 {
            return 64 * word + rest.trailing_zeros() as usize % 64;
        }
        for k in 1..5 {
            let set = self.filled[(word + k) % 4];
            if set != 0 {
                return 64 * ((word + k) % 4) + set.trailing_zeros() as usize % 64;
            }
        }
        0
    }

    // The state whose entry is the least in the list that begins with this one.
    fn least_from(&self, first: u16) -> usize {
        let mut least = usize::from(first);
        let mut j = least;
        for _ in 0..N {
            let behind = self.next[j % N];
            if behind == NONE {
                return least;
            }
            j = usize::from(behind);
            if self.lowest[j % L] < self.lowest[least % L] {
                least = j;
            }
        }
        least
    }

    // A list begins with this state, or is empty.
    fn begin(&mut self, list: usize, first: u16) {
        self.first[list % L] = first;
        if first == NONE {
            self.filled[list / 64 % 4] &= !(1u64 << (list % 64));
        }
    }

    // State j becomes the first one of the list of its entry.
    fn enlist(&mut self, j: usize, entry: Entry) {
        let mut key = entry;
        if L < 256 {
            key = entry >> (self.shift % 32);
            self.lowest[j % L] = (entry % 256) as u8;
        }
        let list = key as usize % L % 256;
        let word = list / 64 % 4;
        let bit = 1u64 << (list % 64);
        let mut behind = NONE;
        if self.filled[word] & bit != 0 {
            behind = self.first[list % L];
            self.before[usize::from(behind) % L] = (j % 65536) as u16;
        }
        self.filled[word] |= bit;
        self.next[j % N] = behind;
        self.before[j % L] = FIRST + (list % 256) as u16;
        self.first[list % L] = (j % 65536) as u16;
    }

    // State j is taken out of its list.
    fn delist(&mut self, j: usize) {
        let before = self.before[j % L];
        let behind = self.next[j % N];
        if behind != NONE {
            self.before[usize::from(behind) % L] = before;
        }
        if before < FIRST {
            self.next[usize::from(before) % N] = behind;
            return;
        }
        self.begin(usize::from(before) % 256, behind);
    }
}
