// One edge (specs/Edges): the test of a state after it, and the way back to the states before it.
// Stays: `as` of a part of a word: a word has no `From` into what is narrower, and `try_from` has a case that never happens.
ghost use Rattle.std.specs.Prelude.{◌≡◌, ◌≤◌, true};
ghost use Rattle.tables.specs.Edges.{lane_weight, lane_values, lane_after, lane_sum};

// Two lanes of one value each that add nothing: no digit is free, and one state is before another.
const PLAIN: u64 = 72057594054705152;

// A lane, in the lower half of a word.
#[derive(Clone, Copy)]
pub(crate) struct Lane(u64);

impl Lane {
    pub(crate) fn weight(self) -> u16
        ensures { result ≡ lane_weight self.0 }
    {
        (self.0 % 65536) as u16
    }

    // How many values its digit has.
    pub(crate) fn values(self) -> u8
        ensures { result ≡ lane_values self.0 }
    {
        (self.0 / 16777216 % 256) as u8
    }

    // What it adds to the index of a word.
    pub(crate) fn sum(self, s: u64) -> usize
        ensures { (result ≡ lane_sum self.0 s) × (result ≤ 983025) }
    {
        ((s >> (self.0 / 65536 % 64)) % 16 * (self.0 % 65536)) as usize
    }
}

// The test, mask and value; the two lanes, and the other free digits; what is added to the index on the way back; the weight of the action, and the
// action; and the edges of the action: so many from `first` on.
#[derive(Clone, Copy)]
pub(crate) struct Edge {
    pub(crate) mask: u64,
    pub(crate) value: u64,
    pub(crate) lanes: u64,
    pub(crate) free: u64,
    pub(crate) back: u16,
    pub(crate) weight: u16,
    pub(crate) first: u16,
    pub(crate) action: u8,
    pub(crate) many: u8,
}

// What stands where no edge was made yet.
pub(crate) const NO_EDGE: Edge = Edge {
    mask: 0,
    value: 0,
    lanes: 0,
    free: 0,
    back: 0,
    weight: 0,
    first: 0,
    action: 0,
    many: 0,
};

impl Edge {
    pub(crate) fn one(self) -> Lane
        ensures { result.0 ≡ self.lanes }
    {
        Lane(self.lanes)
    }

    pub(crate) fn two(self) -> Lane
        ensures { result.0 ≡ lane_after self.lanes }
    {
        Lane(self.lanes / 4294967296)
    }

    // Whether its lanes add nothing.
    pub(crate) fn is_plain(self) -> bool
        ensures { result ≡ true → (lane_weight self.lanes ≡ 0) × (lane_weight (lane_after self.lanes) ≡ 0) }
    {
        self.lanes == PLAIN
    }

    // Whether its action has no other.
    pub(crate) fn is_only(self) -> bool
        ensures { result ≡ true → self.many ≡ 1 }
    {
        self.many == 1
    }
}
