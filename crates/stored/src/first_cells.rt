// The cells of a record of the first form by name. Past the end of the slice a cell is 0. Assumes nothing.
ghost use Rattle.std.specs.Prelude.{◌≡◌, slice_index};
ghost use Rattle.stored.specs.FirstLayout.{first_variable_count, first_action_count, first_pattern_count, first_limit, first_budget, first_outcome_count};

use crate::first_layout::{
    ACTION_SIZE, AT_ACTION_COUNT, AT_ACTIONS, AT_BUDGET, AT_LIMIT, AT_PATTERN_COUNT, AT_VARIABLES,
};

pub(crate) fn cell(rec: &[u8], k: usize) -> u8
    ensures { result ≡ slice_index rec.now k }
{
    rec.get(k).copied().unwrap_or(0)
}

pub(crate) fn variable_count(rec: &[u8]) -> u8
    ensures { result ≡ first_variable_count rec.now }
{
    cell(rec, AT_VARIABLES)
}

pub(crate) fn action_count(rec: &[u8]) -> u8
    ensures { result ≡ first_action_count rec.now }
{
    cell(rec, AT_ACTION_COUNT)
}

pub(crate) fn pattern_count(rec: &[u8]) -> u8
    ensures { result ≡ first_pattern_count rec.now }
{
    cell(rec, AT_PATTERN_COUNT)
}

pub(crate) fn limit(rec: &[u8]) -> u8
    ensures { result ≡ first_limit rec.now }
{
    cell(rec, AT_LIMIT)
}

pub(crate) fn budget(rec: &[u8]) -> u32
    ensures { result ≡ first_budget rec.now }
{
    u32::from_le_bytes([
        cell(rec, AT_BUDGET),
        cell(rec, AT_BUDGET + 1),
        cell(rec, AT_BUDGET + 2),
        cell(rec, AT_BUDGET + 3),
    ])
}

pub(crate) fn outcome_count(rec: &[u8], m: u8) -> u8
    ensures { result ≡ first_outcome_count rec.now m }
{
    cell(rec, AT_ACTIONS + ACTION_SIZE * usize::from(m))
}
