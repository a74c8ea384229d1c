// The cells of a record by name, for the layers above. Every function is total: past the end of the slice a cell is 0 and a part is empty.
ghost use Rattle.std.specs.Prelude.{◌≡◌, ◌+◌, ◌*◌, ◌<◌, ◌≤◌, length, take, drop, slice_index_or};
ghost use Rattle.planning.specs.Pattern.{counted_cell};
ghost use Rattle.task_record.specs.Layout.{at_goal, at_start, at_pattern, at_precondition, at_outcome};
ghost use Rattle.task_record.specs.Numbers.{byte, variable_count, action_count, pattern_count, limit_of, budget_of, size_of, outcome_count};
ghost use Rattle.task_record.specs.TaskOf.{action_of};
ghost use Rattle.task_record.specs.Cells.{state_cells};

use crate::layout::{
    AT_ACTION_COUNT, AT_BUDGET, AT_GOAL, AT_LIMIT, AT_PATTERN_COUNT, AT_SIZES, AT_START,
    AT_VARIABLES, UNNAMED, at_action, at_cost, at_outcome, at_pattern, at_precondition,
};
use std::array;

pub(crate) fn cell(rec: &[u8], k: usize) -> u8
    ensures { result ≡ byte rec.now k }
{
    rec.get(k).copied().unwrap_or(0)
}

pub fn variable_count(rec: &[u8]) -> u8
    ensures { result ≡ variable_count rec.now }
{
    cell(rec, AT_VARIABLES)
}

pub fn action_count(rec: &[u8]) -> u8
    ensures { result ≡ action_count rec.now }
{
    cell(rec, AT_ACTION_COUNT)
}

pub fn pattern_count(rec: &[u8]) -> u8
    ensures { result ≡ pattern_count rec.now }
{
    cell(rec, AT_PATTERN_COUNT)
}

pub fn limit(rec: &[u8]) -> u8
    ensures { result ≡ limit_of rec.now }
{
    cell(rec, AT_LIMIT)
}

pub fn budget(rec: &[u8]) -> u32
    ensures { result ≡ budget_of rec.now }
{
    u32::from_le_bytes([
        cell(rec, AT_BUDGET),
        cell(rec, AT_BUDGET + 1),
        cell(rec, AT_BUDGET + 2),
        cell(rec, AT_BUDGET + 3),
    ])
}

pub fn size_of(rec: &[u8], v: u8) -> u8
    ensures { result ≡ size_of rec.now v }
{
    cell(rec, AT_SIZES + usize::from(v))
}

pub fn outcome_count(rec: &[u8], m: u8) -> u8
    ensures { result ≡ outcome_count rec.now m }
{
    cell(rec, at_action(m))
}

// The sixteen cells from offset `at` on, or as many as there are.
fn part(rec: &[u8], at: usize) -> &[u8]
    requires { at ≤ 65536 }
    ensures { result.now ≡ take 16 (drop at rec.now) }
{
    let end = at + 16;
    if end <= rec.len() {
        return &rec[at..end];
    }
    if at < rec.len() {
        return &rec[at..];
    }
    &rec[..0]
}

pub fn goal_cells(rec: &[u8]) -> &[u8]
    ensures { result.now ≡ take 16 (drop at_goal rec.now) }
{
    part(rec, AT_GOAL)
}

pub fn start_cells(rec: &[u8]) -> &[u8]
    ensures { result.now ≡ take 16 (drop at_start rec.now) }
{
    part(rec, AT_START)
}

pub fn pattern_cells(rec: &[u8], p: u8) -> &[u8]
    ensures { result.now ≡ take 16 (drop (at_pattern p) rec.now) }
{
    part(rec, at_pattern(p))
}

pub fn precondition_cells(rec: &[u8], m: u8) -> &[u8]
    ensures { result.now ≡ take 16 (drop (at_precondition m) rec.now) }
{
    part(rec, at_precondition(m))
}

pub fn outcome_cells(rec: &[u8], m: u8, k: u8) -> &[u8]
    ensures { result.now ≡ take 16 (drop (at_outcome m k) rec.now) }
{
    part(rec, at_outcome(m, k))
}

// What an action weighs: its cost.
#[tactic(auto, unfolding(crate::specs::TaskOf::action_of))]
pub fn action_weight(rec: &[u8], m: u8) -> u8
    ensures { result ≡ (action_of rec.now m).weight }
{
    cell(rec, at_cost(m))
}

// The cell of an outcome as it counts, by the cell of its action's need: to restate the very value that is demanded is no change.
pub fn counted_cell(need: u8, cell: u8) -> u8
    ensures { result ≡ counted_cell need cell }
{
    if cell == need { UNNAMED } else { cell }
}

pub(crate) fn copied(c: &[u8]) -> [u8; 16]
    requires { length c.now ≡ 16 }
    ensures { result ≡ c.now }
{
    let mut r = [0; 16];
    r.copy_from_slice(c);
    r
}

fn cell_or_255(c: &[u8], k: usize) -> u8
    ensures { result ≡ slice_index_or c.now k 255 }
{
    c.get(k).copied().unwrap_or(UNNAMED)
}

fn filled_up(c: &[u8]) -> [u8; 16]
    ensures { result ≡ state_cells c.now }
{
    array::from_fn(|i| cell_or_255(c, i))
}

// The cells of a state by value; 255 where the slice has none.
pub fn state_of(c: &[u8]) -> [u8; 16]
    ensures { result ≡ state_cells c.now }
{
    if c.len() == 16 {
        return copied(c);
    }
    filled_up(c)
}
