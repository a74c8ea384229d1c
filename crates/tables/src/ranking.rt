// The abstract states of a pattern: the weights that give their indices, and their words by index.
// Stays: `as` of a weight: an index has no `From` into what is narrower, and `try_from` has a case that never happens.
ghost use Rattle.std.specs.Prelude.{◌≡◌, ℕ, ◌+◌, ◌-◌, ◌*◌, ◌%◌, ◌<◌, ◌≤◌, ◌++◌, min, length, take, replicate, if◌then◌else◌, nat_eq, slice_index};
ghost use Rattle.planning.specs.Table.{state_count, state_at};
ghost use Rattle.packed_task.specs.Packed.{pack_by, low};
ghost use Rattle.tables.specs.Patterned.{states_of};
ghost use Rattle.tables.specs.Steps.{weights_from, Bounded, Extended};

use crate::pattern::Pattern;

// The weight of a variable: that of the next one in the pattern, 0 outside it.
fn weight_in(b: u8, w: usize) -> u16
    requires { w ≤ 4096 }
    ensures { result ≡ (if nat_eq b 1 then w else 0) }
{
    if b == 1 {
        return w as u16;
    }
    0
}

// The weight of the next variable in the pattern after one of size z.
pub(crate) fn next_weight(b: u8, w: usize, z: u8) -> usize
    requires { w ≤ 4096 }
    ensures { result ≡ (if nat_eq b 1 then w * z else w) }
{
    if b == 1 {
        return w * usize::from(z);
    }
    w
}

pub(crate) fn weights_of(pattern: &Pattern) -> [u16; 16]
    ensures { result ≡ weights_from 1 (take pattern.now.variables pattern.now.sizes) pattern.now.picked ++ replicate (16 - pattern.now.variables) 0 }
{
    let mut r = [0u16; 16];
    let mut w = 1usize;
    for v in 0..pattern.n {
        r[v] = weight_in(pattern.picked[v], w);
        w = next_weight(pattern.picked[v], w, pattern.sizes[v]);
    }
    r
}

// The number of abstract states: the weight of a variable after the last.
// Stays: sizes, pattern and n with their clause, and no `Pattern`: `spread` counts the states of patterns that it makes none of, and `parts_of` those of
// fewer variables.
pub(crate) fn state_count(sizes: [u8; 16], pattern: [u8; 16], n: usize) -> usize
    requires { Bounded sizes pattern n }
    ensures { result ≡ state_count (take n sizes) pattern }
{
    let mut w = 1usize;
    for v in 0..n {
        w = next_weight(pattern[v], w, sizes[v]);
    }
    w
}

// Sixteen times a place value, for the next variable; beyond the sixteenth it is not used.
fn next_place(place: u64) -> u64
    ensures { result ≡ place % 1152921504606846976 * 16 }
{
    place % 1152921504606846976 * 16
}

// The words from `w` to `end`: each is the word `w` before it, with the new variable's value one higher.
fn extend(states: &mut [u64], w: usize, end: usize, place: u64)
    requires { (1 ≤ w) × (end ≤ length states.old) }
    ensures { Extended states.old states.new w end place }
{
    for k in w..end {
        states[k] = states[k - w].wrapping_add(place);
    }
}

// The words of the abstract states, of which no pattern has more than 4,096: the first is 0, and each variable of the pattern makes as many more as it
// has values.
pub(crate) fn fill_states(pattern: &Pattern, states: &mut [u64])
    requires { (min (states_of pattern.now) 4096 ≤ length states.old) × (slice_index states.old 0 ≡ 0) }
    ensures { (i : ℕ) → i < states_of pattern.now → slice_index states.new i ≡ pack_by low (state_at (take pattern.now.variables pattern.now.sizes) pattern.now.picked i) }
{
    let mut w = 1usize;
    let mut place = 1u64;
    for v in 0..pattern.n {
        let next = next_weight(pattern.picked[v], w, pattern.sizes[v]);
        extend(states, w, next, place);
        w = next;
        place = next_place(place);
    }
}
