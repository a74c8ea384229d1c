// The estimate of a packed state from weights: its index in a pattern's table, the entry there, and its value.
// Stays: `as` of a word and of a table's place into an index: they have no `From` into one, and `try_from` has a case that never happens. `as` in the
// value of a constant: that may call no function.
// Asks for a pattern of the instance; the tables may be any.
// Stays: `p < instance.constants.patterns`, here and in `byte_rows` and `carried`: each index needs the bound of this one number, and a type for it would
// be made at every call.
ghost use Rattle.std.specs.Prelude.{◌≡◌, ◌+◌, ◌*◌, ◌<◌, ◌≤◌, [], slice_index, slice_index_or};
ghost use Rattle.planning.specs.Table.{infinite_entry};
ghost use Rattle.patterns.specs.Value.{value_of};
ghost use Rattle.tables.specs.Steps.{weigh};
ghost use Rattle.search.specs.Packed.{instance_value};

use crate::instance::Instance;
use patterns::entry::entry_at;

// An infinite entry as a number. Where it stands for a value, that is above every depth.
pub(crate) const INFINITE: u64 = patterns::entry::INFINITE as u64;

// A digit times a weight.
fn times(x: u64, w: u16) -> usize
    requires { x < 16 }
    ensures { (result ≡ x * w) × (result ≤ 983025) }
{
    x as usize * usize::from(w)
}

// The index of a state by a pattern's weights. It ends with the last digit that is not 0.
// Stays: one digit at a time, where `tables` takes four for its build: compiled into the cycle, four take up to 1.05 of the instructions of a search. Most
// patterns have blocks.
pub(crate) fn index_of(weights: &[u16; 16], s: u64) -> usize
    ensures { (result ≡ weigh weights.now s) × (result ≤ 983025 * 16) }
{
    let mut i = 0usize;
    let mut rest = s;
    for w in weights {
        if rest == 0 {
            return i;
        }
        i += times(rest % 16, *w);
        rest /= 16;
    }
    i
}

// The cost that the table of pattern p gives at an index.
pub(crate) fn cost_at(instance: &Instance, p: usize, i: usize) -> u64
    requires { (p < instance.now.constants.patterns) × (i ≤ 983025 * 16) }
    ensures { (result ≡ slice_index_or instance.now.tables.now (slice_index instance.now.constants.offsets p + i) infinite_entry) × (result ≤ infinite_entry) }
{
    u64::from(entry_at(instance.tables, instance.constants.offsets[p] as usize + i))
}

// The value of a state; an infinite one is none.
pub(crate) fn value_of(instance: &Instance, s: u64) -> Option<u64>
    ensures { result ≡ value_of (instance_value instance.now s) }
{
    let mut sum = 0u64;
    for p in 0..instance.constants.patterns {
        let e = cost_at(instance, p, index_of(&instance.weights[p], s));
        if e == INFINITE {
            return None;
        }
        sum += e;
    }
    Some(sum)
}
