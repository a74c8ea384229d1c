// The value of a state, carried along an action: what all patterns but the action's owner add, and that with the owner's entry after an outcome.
// Asks for the value of the state that the action is tried in.
ghost use Rattle.std.specs.Prelude.{◌≡◌, ◌<◌, ◌≤◌};
ghost use Rattle.planning.specs.Extended.{fin};
ghost use Rattle.planning.specs.Table.{infinite_entry};
ghost use Rattle.search.specs.Packed.{instance_entry, instance_rest, instance_sum, instance_value};

use crate::byte_rows::index_by_bytes;
use crate::estimate::cost_at;
use crate::instance::Instance;

// The entry of a state in the table of pattern p.
fn entry_in(instance: &Instance, s: u64, p: usize) -> u64
    requires { p < instance.now.constants.patterns }
    ensures { (result ≡ instance_entry instance.now s p) × (result ≤ infinite_entry) }
{
    cost_at(instance, p, index_by_bytes(instance, s, p))
}

// What the patterns that do not own action m add to the value of s.
pub(crate) fn rest_of(instance: &Instance, s: u64, m: usize, value: u64) -> u64
    requires { (m < 64) × (instance_value instance.now s ≡ fin value) }
    ensures { (result ≡ instance_rest instance.now s m value) × (result ≤ value) }
{
    let p = usize::from(instance.constants.owners[m]);
    if p < instance.constants.patterns {
        return value - entry_in(instance, s, p);
    }
    value
}

// What they add, and the entry of x in the pattern that owns m.
pub(crate) fn sum_with(instance: &Instance, x: u64, m: usize, rest: u64) -> u64
    requires { (m < 64) × (rest < 256) }
    ensures { result ≡ instance_sum instance.now x m rest }
{
    let p = usize::from(instance.constants.owners[m]);
    if p < instance.constants.patterns {
        return rest + entry_in(instance, x, p);
    }
    rest
}
