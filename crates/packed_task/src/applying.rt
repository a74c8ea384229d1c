// The actions whose preconditions a packed state meets, as a set in one word: one set is looked up for each byte of the state, and the
// sets are met. A word has room for 64 actions: with more no set is filled, and the sets stay as lent. The number of bytes may be any, and 2,
// 4 or 8 are looked at; the number of digits may be any, and 16 at most are entered. `applying` is for the innermost loop of the search.
// Stays: `as` of a digit or a byte: a word has no `From` into an index, and `try_from` has a case that never happens.
ghost use Rattle.std.specs.Prelude.{◌≡◌, ℕ, ◌+◌, ◌*◌, ◌/◌, ◌%◌, ◌<◌, ◌≤◌, min, bit_and, slice_index};
ghost use Rattle.packed_task.specs.Sets.{lowest_need, action_need, met_bytes, meet_from, entered, SlotsOf, RowFilled, RowsFilled, sets_filled};

use crate::compiled_task::{need, value};
use crate::layout::TASK_WORDS;
use crate::numbers::ActionNumber;

// The slot of the lowest digit that an action needs: its value, or the last of seventeen where any value will do.
// Stays: 16 is a place among the slots like the others, and goes into an index as it is; an Option would be turned into it at once.
fn lowest_need(need: u64, value: u64) -> usize
    ensures { (result ≡ lowest_need need value) × (result < 17) }
{
    if need % 16 == 0 {
        return 16;
    }
    (value % 16) as usize
}

// Enters an action in the slots of what it needs of each digit: seventeen slots for each, and there are sixteen digits.
pub fn enter(slots: &mut [u64; 272], need: u64, value: u64, bit: u64, digits: usize)
    ensures { slots.new ≡ entered slots.old need value bit (min digits 16) }
{
    let few = digits.min(16);
    let mut n = need;
    let mut x = value;
    for v in 0..few {
        let at = 17 * v + lowest_need(n, x);
        slots[at] |= bit;
        n /= 16;
        x /= 16;
    }
}

// Enters every action.
fn enter_all(
    task: &[u64; TASK_WORDS],
    mask: u64,
    actions: usize,
    digits: usize,
    slots: &mut [u64; 272],
)
    requires { (actions ≤ 64) × (digits ≤ 16) × ((i : ℕ) → slice_index slots.old i ≡ 0) }
    ensures { SlotsOf (action_need task.now mask) actions digits slots.new }
{
    for m in 0..actions {
        let action = ActionNumber { number: m };
        enter(
            slots,
            need(task, action) & mask,
            value(task, action) & mask,
            1 << m,
            digits,
        );
    }
}

// The sixteen sets of row q: the upper digit of their byte is the same.
fn fill_row(slots: &[u64; 272], sets: &mut [u64; 2048], q: usize)
    requires { q < 128 }
    ensures { RowFilled slots.now sets.old sets.new q }
{
    let at = 34 * (q / 16);
    let free = slots[at + 16];
    let high = slots[at + 17 + q % 16] | slots[at + 33];
    for l in 0..16usize {
        sets[16 * q + l] = (slots[at + l] | free) & high;
    }
}

fn met_bytes(bytes: usize) -> usize
    ensures { (result ≡ met_bytes bytes) × (result ≤ 8) }
{
    if bytes <= 2 {
        return 2;
    }
    if bytes <= 4 {
        return 4;
    }
    8
}

fn fill_rows(slots: &[u64; 272], sets: &mut [u64; 2048], bytes: usize)
    requires { bytes ≤ 8 }
    ensures { RowsFilled slots.now sets.old sets.new bytes }
{
    for q in 0..16 * bytes {
        fill_row(slots, sets, q);
    }
}

// The sets of a compiled task within a mask.
pub fn fill_sets(
    task: &[u64; TASK_WORDS],
    mask: u64,
    actions: usize,
    bytes: usize,
    sets: &mut [u64; 2048],
)
    ensures { sets.new ≡ sets_filled task.now mask actions bytes sets.old }
{
    if actions > 64 {
        return;
    }
    let n = met_bytes(bytes);
    let mut slots = [0u64; 272];
    enter_all(task, mask, actions, 2 * n, &mut slots);
    fill_rows(&slots, sets, n);
}

fn byte(s: u64) -> usize
    ensures { (result ≡ s % 256) × (result < 256) }
{
    (s % 256) as usize
}

// The sets of two bytes from number b on, met.
fn two_bytes(sets: &[u64; 2048], b: usize, s: u64, rest: u64) -> u64
    requires { b ≤ 6 }
    ensures { result ≡ bit_and (slice_index sets.now (256 * b + s % 256)) (bit_and (slice_index sets.now (256 * (b + 1) + s / 256 % 256)) rest) }
{
    sets[256 * b + byte(s)] & (sets[256 * (b + 1) + byte(s / 256)] & rest)
}

// The actions whose preconditions a state meets, goal or not.
pub fn applying(sets: &[u64; 2048], s: u64, bytes: usize) -> u64
    ensures { result ≡ meet_from sets.now 0 (met_bytes bytes) s }
{
    let all = u64::MAX;
    if bytes <= 2 {
        return two_bytes(sets, 0, s, all);
    }
    if bytes <= 4 {
        return two_bytes(sets, 0, s, two_bytes(sets, 2, s / 65536, all));
    }
    let upper = two_bytes(
        sets,
        4,
        s / 4294967296,
        two_bytes(sets, 6, s / 281474976710656, all),
    );
    two_bytes(sets, 0, s, two_bytes(sets, 2, s / 65536, upper))
}
