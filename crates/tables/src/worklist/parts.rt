// How the index of a pattern is split into a lower part of at most 64 states and an upper part.
ghost use Rattle.std.specs.Prelude.{◌≡◌, ◌+◌, ◌*◌, ◌%◌, ◌^◌, ◌<◌, ◌≤◌, take};
ghost use Rattle.planning.specs.Table.{state_count};
ghost use Rattle.packed_task.specs.Packed.{pack_by, picking};
ghost use Rattle.tables.specs.Patterned.{states_of};
ghost use Rattle.tables.specs.Incoming.{Split};

use crate::pattern::Pattern;
use crate::ranking::{next_weight, state_count};

// So many states, of the variables with these digits.
#[derive(Clone, Copy)]
pub(crate) struct Parts {
    pub(crate) lower: usize,
    pub(crate) low: u64,
}

// How many variables make the lower part: as many as have at most 64 states. As none has more than 16 values, these have at least 5 states, or all there
// are: the others have at most a fifth of all states, and one more.
fn lower_variables(pattern: &Pattern) -> usize
    ensures { (result ≤ pattern.now.variables) × (state_count (take result pattern.now.sizes) pattern.now.picked ≤ 64) × (5 * states_of pattern.now ≤ (states_of pattern.now + 5) * state_count (take result pattern.now.sizes) pattern.now.picked) }
{
    let mut w = 1usize;
    for v in 0..pattern.n {
        let next = next_weight(pattern.picked[v], w, pattern.sizes[v]);
        if next > 64 {
            return v;
        }
        w = next;
    }
    pattern.n
}

// The digits of the first v variables.
fn digits_below(mask: u64, v: usize) -> u64
    ensures { result ≡ mask % 16 ^ v }
{
    if v >= 16 {
        return mask;
    }
    // Stays: `as`: an index has no `From` into an exponent.
    mask % 16u64.pow(v as u32)
}

// The parts of a pattern, told apart by the digits of its mask, which are those of its variables.
pub(crate) fn parts_of(pattern: &Pattern) -> Parts
    ensures masked { pattern.now.mask ≡ pack_by picking pattern.now.picked }
    ensures split { Split pattern.now.sizes pattern.now.picked pattern.now.variables pattern.now.mask result.lower result.low }
{
    let v = lower_variables(pattern);
    Parts {
        lower: state_count(pattern.sizes, pattern.picked, v),
        low: digits_below(pattern.mask, v),
    }
}
