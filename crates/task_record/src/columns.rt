// Whether the parts of a record are inside their rules, without the offset of a fault. A column is the cells of one variable in several rows; it
// answers a byte that is 0 only if all of them are right, so that sixteen columns are tried at once (`faultless`). What is not
// found right here is looked through again by `record`, so the answer "no" promises nothing.
ghost use Rattle.std.specs.Prelude.{◌≡◌, ℕ, ◌+◌, ◌-◌, ◌*◌, ◌<◌, ◌≤◌, true, length, replicate, ◌==◌, bit_and, nat_lt, slice_index};
ghost use Rattle.task_record.specs.Layout.{action_size, at_action, at_cost, at_goal, at_pattern, at_sizes, at_start, record_size};
ghost use Rattle.task_record.specs.Numbers.{size_of, variable_count, action_count, pattern_count};
ghost use Rattle.task_record.specs.Scan.{first_from};
ghost use Rattle.task_record.specs.Window.{fits, Sixteen};
ghost use Rattle.task_record.specs.Record.{head_ok, cell_ok};
ghost use Rattle.task_record.specs.Columns.{ActionColumn, MemberColumn, FrontPassed, Ramp};

use crate::cells::{action_count, pattern_count, variable_count};
use crate::layout::{AT_COSTS, AT_GOAL, AT_PATTERNS, AT_SIZES, AT_START, UNNAMED, at_action};
use crate::measured::{LongRecord, Measured};
use crate::rules::is_head_right;

// 0 where x fits the window, else what it is too high: faults can then be gathered by `|`, and the difference is one vector instruction.
fn misfit(x: u8, shift: u8, top: u8) -> u8
    ensures { (result == 0) ≡ fits x shift top }
{
    x.wrapping_add(shift).saturating_sub(top)
}

// Whether each of sixteen tests answers 0. It does not stop at a fault, so that it becomes one vector compare.
fn faultless<F: Fn(usize) -> u8>(fault: F) -> bool
    requires callable { (v : ℕ) → v < 16 → F.pre fault v }
    ensures { result ≡ true → (v : ℕ) → v < 16 → F.post fault v 0 }
{
    let mut bad = 0u8;
    for v in 0..16usize {
        bad |= fault(v);
    }
    bad == 0
}

// A state's cell: below the size, or 255 where the size is 0.
fn value_fault(x: u8, size: u8) -> u8
    ensures { (result == 0) ≡ fits x (1 - size) (size - 1) }
{
    misfit(x, 1u8.saturating_sub(size), size.saturating_sub(1))
}

// `used` is 255 for a variable that the task has, else 0.
fn front_fault(used: u8, size: u8, goal: u8, start: u8) -> u8
    ensures { result ≡ 0 → (fits size (bit_and used 254) (bit_and used 14) ≡ true) × (fits goal 1 size ≡ true) × (fits start (1 - size) (size - 1) ≡ true) }
{
    misfit(size, used & 254, used & 14) | misfit(goal, 1, size) | value_fault(start, size)
}

// The head, which is no column: its cells one by one.
pub(crate) fn head_fits(rec: &[u8]) -> bool
    ensures { result ≡ true → (k : ℕ) → k < at_sizes → head_ok rec.now k ≡ true }
{
    (0..AT_SIZES).all(|k| is_head_right(rec, k))
}

// Sixteen times 255, then 0: sixteen cells from place 16 - n on have 255 in the first n.
fn ramp() -> [u8; 32]
    ensures { Ramp result }
{
    let mut r = [0; 32];
    r[..16].fill(255);
    r
}

// Sizes, goal and start.
pub(crate) fn front_fits(record: &LongRecord, sizes: &[u8; 16]) -> bool
    requires { (Sixteen (size_of record.now.cells.now) sizes.now) × (variable_count record.now.cells.now ≤ 16) }
    ensures { result ≡ true → FrontPassed record.now.cells.now }
{
    let rec = record.cells;
    let from = ramp();
    let skipped = 16 - usize::from(variable_count(rec));
    faultless(|v| {
        front_fault(
            from[skipped + v],
            sizes[v],
            rec[AT_GOAL + v],
            rec[AT_START + v],
        )
    })
}

pub(crate) fn state_fits(c: &[u8], sizes: &[u8; 16]) -> bool
    requires { length c.now ≡ 16 }
    ensures { result ≡ true → (v : ℕ) → v < 16 → fits (slice_index c.now v) (1 - slice_index sizes.now v) (slice_index sizes.now v - 1) ≡ true }
{
    faultless(|v| value_fault(c[v], sizes[v]))
}

// Stays: bounds of an offset and of an action's number as clauses, here and below: each is the bound of a single number that the function's own
// index needs, and a type for it would be made of the number at every call and say no more.
// A column of the eight patterns, of which the first `used` are used: at most 1, and 0 where the size is 0.
fn member_fault(c: &[u8], size: u8, a: usize, used: usize) -> u8
    requires { (a + 112 < length c.now) × (a ≤ 65536) × (used ≤ 8) }
    ensures { result ≡ 0 → MemberColumn c.now size a used }
{
    let mut high = 0u8;
    for j in 0..8usize {
        high |= c[a + 16 * j];
    }
    let mut rest = 0u8;
    for j in used..8 {
        rest |= c[a + 16 * j];
    }
    high.saturating_sub(1u8.saturating_sub(1u8.saturating_sub(size))) | rest
}

fn eight_fit<const USED: usize>(record: &Measured) -> bool
    requires { USED ≤ 8 }
    ensures { result ≡ true → (v : ℕ) → v < 16 → MemberColumn record.now.rec.now (slice_index record.now.sizes v) (at_pattern 0 + v) USED }
{
    faultless(
        |v|
            requires { (record_size ≤ length record.now.rec.now) × (v < 16) × (USED ≤ 8) }
            ensures { result ≡ 0 → MemberColumn record.entry.now.rec.now (slice_index record.entry.now.sizes v) (at_pattern 0 + v) USED }
        { member_fault(record.rec, record.sizes[v], AT_PATTERNS + v, USED) },
    )
}

// Stays: a case for each number of patterns, since the loops of a column are unrolled only where their ends are known (`rows_fit` has the figure).
pub(crate) fn patterns_fit(record: &Measured) -> bool
    ensures { result ≡ true → first_from (cell_ok record.now.rec.now) (at_pattern 0) (at_action 0 - at_pattern 0) ≡ at_action 0 }
{
    match pattern_count(record.rec) {
        0 => eight_fit::<0>(record),
        1 => eight_fit::<1>(record),
        2 => eight_fit::<2>(record),
        3 => eight_fit::<3>(record),
        4 => eight_fit::<4>(record),
        5 => eight_fit::<5>(record),
        6 => eight_fit::<6>(record),
        7 => eight_fit::<7>(record),
        8 => eight_fit::<8>(record),
        _ => false,
    }
}

// A column of the nine rows of an action, of which the first `used` are used: the highest of them, moved up by 1 so that 255 goes to 0, is at
// most the size, and the others have 255 in common.
fn action_fault(c: &[u8], size: u8, a: usize, used: usize) -> u8
    requires { (a + 128 < length c.now) × (a ≤ 65536) × (used ≤ 9) }
    ensures { result ≡ 0 → ActionColumn c.now size a used }
{
    let mut high = 0u8;
    for j in 0..used {
        high = high.max(c[a + 16 * j].wrapping_add(1));
    }
    let mut low = UNNAMED;
    for j in used..9 {
        low &= c[a + 16 * j];
    }
    high.saturating_sub(size) | (UNNAMED - low)
}

fn nine_fit<const USED: usize>(c: &[u8], sizes: &[u8; 16], a: usize) -> bool
    requires { (a + 144 ≤ length c.now) × (a ≤ 65000) × (USED ≤ 9) }
    ensures { result ≡ true → (v : ℕ) → v < 16 → ActionColumn c.now (slice_index sizes.now v) (a + v) USED }
{
    faultless(
        |v|
            requires { (a + v + 128 < length c.now) × (a + v ≤ 65536) × (v < 16) × (USED ≤ 9) }
            ensures { result ≡ 0 → ActionColumn c.entry.now (slice_index sizes.entry.now v) (a + v) USED }
        { action_fault(c, sizes[v], a + v, USED) },
    )
}

// A case for each number of outcomes; a used block more is the precondition's.
// Stays: with an end that is a variable the loops of a column are not unrolled, and the check of 64 actions of 8 outcomes takes 75,700 instructions in
// place of 2,900.
fn rows_fit(c: &[u8], sizes: &[u8; 16], a: usize, count: u8) -> bool
    requires { (a + 144 ≤ length c.now) × (a ≤ 65000) }
    ensures { result ≡ true → (1 ≤ count) × (count ≤ 8) × ((v : ℕ) → v < 16 → ActionColumn c.now (slice_index sizes.now v) (a + v) (1 + count)) }
{
    match count {
        1 => nine_fit::<2>(c, sizes, a),
        2 => nine_fit::<3>(c, sizes, a),
        3 => nine_fit::<4>(c, sizes, a),
        4 => nine_fit::<5>(c, sizes, a),
        5 => nine_fit::<6>(c, sizes, a),
        6 => nine_fit::<7>(c, sizes, a),
        7 => nine_fit::<8>(c, sizes, a),
        8 => nine_fit::<9>(c, sizes, a),
        _ => false,
    }
}

fn used_fits(record: &Measured, m: u8) -> bool
    requires { (m < action_count record.now.rec.now) × (m < 64) }
    ensures { result ≡ true → first_from (cell_ok record.now.rec.now) (at_action m) action_size ≡ at_action (m + 1) }
{
    let a = at_action(m);
    rows_fit(record.rec, &record.sizes, a + 1, record.rec[a])
}

fn unused_fits(record: &Measured, m: u8) -> bool
    requires { (action_count record.now.rec.now ≤ m) × (m < 64) }
    ensures { result ≡ true → first_from (cell_ok record.now.rec.now) (at_action m) action_size ≡ at_action (m + 1) }
{
    let a = at_action(m);
    if record.rec[a] != 0 {
        return false;
    }
    nine_fit::<0>(record.rec, &record.sizes, a + 1)
}

// Stays: by `all` over the used actions and over the others the check of a record takes 1.02 of the instructions, and up to 1.04, and
// it may not become slower.
pub(crate) fn actions_fit(record: &Measured) -> bool
    requires { action_count record.now.rec.now ≤ 64 }
    ensures { result ≡ true → first_from (cell_ok record.now.rec.now) (at_action 0) (at_action 64 - at_action 0) ≡ at_action 64 }
{
    let used = action_count(record.rec);
    for m in 0..used {
        if !used_fits(record, m) {
            return false;
        }
    }
    for m in used..64 {
        if !unused_fits(record, m) {
            return false;
        }
    }
    true
}

// An action has a cost where it is used, and nowhere else.
fn cost_fault(used: u8, m: u8, cost: u8) -> u8
    ensures { result ≡ 0 → nat_lt 0 cost ≡ nat_lt m used }
{
    u8::from((0 < cost) != (m < used))
}

// The costs. It does not stop at a fault, so that it becomes a few vector compares.
pub(crate) fn costs_fit(record: &LongRecord) -> bool
    ensures { result ≡ true → first_from (cell_ok record.now.cells.now) (at_cost 0) (record_size - at_cost 0) ≡ record_size }
{
    let rec = record.cells;
    let used = action_count(rec);
    let mut bad = 0u8;
    for m in 0..64u8 {
        bad |= cost_fault(used, m, rec[AT_COSTS + usize::from(m)]);
    }
    bad == 0
}
