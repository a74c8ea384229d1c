// The parts of a step that lowers an entry, over packed words: the index of a word, the sum of a Bellman value, and the effective
// actions: those of which no outcome may leave a state as it is.
// Stays: `as` of a digit: a word has no `From` into an index, and `try_from` has a case that never happens.
// Stays: task, mask and m side by side, since a `Graph` and a `Pattern` lend them alike.
ghost use Rattle.std.specs.Prelude.{◌≡◌, ℕ, ◌+◌, ◌*◌, ◌/◌, ◌%◌, ◌<◌, ◌≤◌, true, not, length, if◌then◌else◌, slice_index};
ghost use Rattle.packed_task.specs.Packed.{outcome_count, Readable};
ghost use Rattle.planning.specs.Sets.{set_from};
ghost use Rattle.packed_task.specs.Within.{idles};
ghost use Rattle.tables.specs.Steps.{weigh, raised};

use crate::sets::set_of;
use packed_task::compiled_task::{kept, outcome_count};
use packed_task::layout::TASK_WORDS;
use packed_task::numbers::{ActionNumber, OutcomeNumber};
use patterns::entry::{Entry, INFINITE};

// A digit times a weight.
pub(crate) fn times(x: u64, w: u16) -> usize
    requires { x < 16 }
    ensures { (result ≡ x * w) × (result ≤ 983025) }
{
    let y = x as usize;
    y * usize::from(w)
}

// Four digits of a word, from the lowest on, times the weights from v on.
fn four_digits(weights: &[u16; 16], v: usize, s: u64) -> usize
    requires { v ≤ 12 }
    ensures { (result ≡ s % 16 * slice_index weights.now v + s / 16 % 16 * slice_index weights.now (v + 1) + s / 256 % 16 * slice_index weights.now (v + 2) + s / 4096 % 16 * slice_index weights.now (v + 3)) × (result ≤ 3932100) }
{
    let low = times(s % 16, weights[v]) + times(s / 16 % 16, weights[v + 1]);
    low + times(s / 256 % 16, weights[v + 2]) + times(s / 4096 % 16, weights[v + 3])
}

// The index of a word, four digits at a time: a test at each digit would cost more than the digit. It ends with the last that are not 0.
pub(crate) fn index_of(weights: &[u16; 16], s: u64) -> usize
    ensures { result ≡ weigh weights.now s }
{
    let mut sum = 0usize;
    let mut rest = s;
    for g in 0..4usize {
        if rest == 0 {
            return sum;
        }
        sum += four_digits(weights, 4 * g, rest);
        rest /= 65536;
    }
    sum
}

// A Bellman value: a sum that reaches the infinite entry counts as that.
#[tactic(auto, unfolding(crate::specs::Steps::raised))]
pub(crate) fn raise(w: u64, v: Entry) -> Entry
    ensures { result ≡ raised w v }
{
    Entry::try_from(w).unwrap_or(INFINITE).saturating_add(v)
}

// Whether an outcome names no variable of the pattern. It leads from each abstract state to itself, so the action never lowers an
// entry.
// Stays: a loop, and no `any` over the outcomes: with it a turn has 9 instructions in place of 6, and tables of a few states took up to 1.03 times as many;
// a build may not become slower.
fn may_idle(task: &[u64; TASK_WORDS], mask: u64, m: ActionNumber) -> bool
    requires { outcome_count task.now m.number ≤ 8 }
    ensures { result ≡ idles task.now mask m.number }
{
    let n = outcome_count(task, m);
    for o in 0..n {
        if kept(task, m, OutcomeNumber { number: o }) & mask == mask {
            return true;
        }
    }
    false
}

// The effective actions: those of which no outcome leaves every state as it is.
pub(crate) fn effective(task: &[u64; TASK_WORDS], mask: u64, actions: usize) -> u64
    requires { Readable task.now actions }
    ensures { result ≡ set_from (λ m. not (idles task.now mask m)) 0 actions }
{
    set_of(
        actions,
        |m|
            requires { (m < 64) × (outcome_count task.now m ≤ 8) }
        { !may_idle(task, mask, ActionNumber { number: m }) },
    )
}
