// What was written once is copied: where the plan of a state with a depth stands in the buffer, and copying it. Such a place is noted in a slot as
// those of `memory`, with the number of the plan's bytes in place of the examinations and the place of the first in place of the size; a slot that is
// taken for another plan only costs writing the first again. Asks for one slot at least.
ghost use Rattle.std.specs.Prelude.{◌+◌, ◌<◌, ◌≤◌, length};
ghost use Rattle.search.specs.Memory.{stored, Noted};
ghost use Rattle.search.specs.Written.{Copied, Finds};

use crate::memory::{Slot, note, recall};

// Where a plan's bytes stand, and how many there are.
// Stays: `as` between these and a slot's numbers of 32 bits, which have no `From` into each other.
#[derive(Clone, Copy)]
pub(crate) struct Passage {
    pub from: usize,
    pub size: usize,
}

impl Passage {
    // Copies the bytes to a place behind them.
    pub(crate) fn copy_to(self, plan: &mut [u8], to: usize)
        requires { (self.from + self.size ≤ to) × (to + self.size ≤ length plan.old) }
        ensures { Copied self.from to self.size plan.old plan.new }
    {
        plan.copy_within(self.from..self.from + self.size, to);
    }
}

// Where the plan of state s with depth d stands, if that is known.
pub(crate) fn find_passage(written: &[Slot], s: u64, d: u32) -> Option<Passage>
    requires { 1 ≤ length written.now }
    ensures { Finds written.now s d result }
{
    let known = recall(written, s, d, 1048575)?;
    Some(Passage {
        from: known.size as usize,
        size: known.made as usize,
    })
}

// The plan of state s with depth d has n bytes, which stand from `from` on.
pub(crate) fn note_passage(written: &mut [Slot], s: u64, d: u32, from: usize, n: u32)
    requires { (1 ≤ length written.old) × (d < 256) × (from + n ≤ 1000000) }
    ensures { Noted written.old written.new (stored s d n from 0) }
{
    note(written, s, d, n, from as u32, 0);
}
