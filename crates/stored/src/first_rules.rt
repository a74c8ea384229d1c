// The rule of each cell of a record of the first form, as specs/FirstRecord.antt has it: a function for each kind of cell, and in `is_cell_right`
// one clause for each, by the offset.
ghost use Rattle.std.specs.Prelude.{◌≡◌, ◌<◌, nat_lt};
ghost use Rattle.stored.specs.FirstLayout.{first_size, first_variable_count};
ghost use Rattle.stored.specs.FirstRecord.{first_head_ok, first_size_ok, first_assignment_ok, first_start_ok, first_pattern_ok, first_count_ok, first_action_ok, first_cell_ok};

use crate::first_cells::{
    action_count, budget, cell, limit, outcome_count, pattern_count, variable_count,
};
use crate::first_layout::{
    ACTION_SIZE, AT_ACTION_COUNT, AT_ACTIONS, AT_BUDGET, AT_GOAL, AT_LIMIT, AT_PATTERN_COUNT,
    AT_PATTERNS, AT_SIZES, AT_START, AT_VARIABLES, IN_OUTCOMES, IN_PRECONDITION, ROW_SIZE, UNNAMED,
};

// A fault of the budget stands at its first cell.
#[tactic(auto, unfolding(crate::specs::FirstRecord::first_head_ok))]
fn is_head_right(rec: &[u8], k: usize) -> bool
    ensures { result ≡ first_head_ok rec.now k }
{
    match k {
        AT_VARIABLES => (1..=16).contains(&variable_count(rec)),
        AT_ACTION_COUNT => action_count(rec) <= 64,
        AT_PATTERN_COUNT => pattern_count(rec) <= 8,
        AT_LIMIT => limit(rec) <= 32,
        AT_BUDGET => budget(rec) <= 1000000,
        _ => true,
    }
}

// Whether the task has a variable v; the cells of any other are not used.
fn has_variable(rec: &[u8], v: usize) -> bool
    ensures { result ≡ nat_lt v (first_variable_count rec.now) }
{
    v < usize::from(variable_count(rec))
}

#[tactic(auto, unfolding(crate::specs::FirstRecord::first_size_ok))]
fn is_size_right(rec: &[u8], v: usize, x: u8) -> bool
    ensures { result ≡ first_size_ok rec.now v x }
{
    if has_variable(rec, v) {
        (2..=16).contains(&x)
    } else {
        x == 0
    }
}

// Of an assignment that is not used every cell is unnamed.
#[tactic(auto, unfolding(crate::specs::FirstRecord::first_assignment_ok))]
fn is_assignment_right(rec: &[u8], used: bool, v: usize, x: u8) -> bool
    ensures { result ≡ first_assignment_ok rec.now used v x }
{
    x == UNNAMED || used && has_variable(rec, v) && x < cell(rec, AT_SIZES + v)
}

#[tactic(auto, unfolding(crate::specs::FirstRecord::first_start_ok))]
fn is_start_right(rec: &[u8], v: usize, x: u8) -> bool
    ensures { result ≡ first_start_ok rec.now v x }
{
    if has_variable(rec, v) {
        x < cell(rec, AT_SIZES + v)
    } else {
        x == UNNAMED
    }
}

#[tactic(auto, unfolding(crate::specs::FirstRecord::first_pattern_ok))]
fn is_pattern_right(rec: &[u8], p: usize, v: usize, x: u8) -> bool
    ensures { result ≡ first_pattern_ok rec.now p v x }
{
    x == 0 || p < usize::from(pattern_count(rec)) && has_variable(rec, v) && x == 1
}

#[tactic(auto, unfolding(crate::specs::FirstRecord::first_count_ok))]
fn is_count_right(rec: &[u8], m: u8, x: u8) -> bool
    ensures { result ≡ first_count_ok rec.now m x }
{
    if m < action_count(rec) {
        (1..=8).contains(&x)
    } else {
        x == 0
    }
}

// Cell c of action m.
#[tactic(auto, unfolding(crate::specs::FirstRecord::first_action_ok))]
fn is_action_right(rec: &[u8], m: u8, c: usize, x: u8) -> bool
    ensures { result ≡ first_action_ok rec.now m c x }
{
    let used = m < action_count(rec);
    match c {
        0 => is_count_right(rec, m, x),
        ..IN_OUTCOMES => is_assignment_right(rec, used, c - IN_PRECONDITION, x),
        _ => {
            let i = c - IN_OUTCOMES;
            let used = used && i / ROW_SIZE < usize::from(outcome_count(rec, m));
            is_assignment_right(rec, used, i % ROW_SIZE, x)
        }
    }
}

// Stays: the bound of the offset as a clause: an action's number fits a byte by it, and a type for it would be made of the offset at every call;
// `as`: a `usize` has no `From` into a byte, and `try_from` has a case that never happens.
#[tactic(auto, unfolding(crate::specs::FirstRecord::first_cell_ok))]
pub(crate) fn is_cell_right(rec: &[u8], k: usize) -> bool
    requires { k < first_size }
    ensures { result ≡ first_cell_ok rec.now k }
{
    let x = cell(rec, k);
    match k {
        ..AT_SIZES => is_head_right(rec, k),
        ..AT_GOAL => is_size_right(rec, k - AT_SIZES, x),
        ..AT_START => is_assignment_right(rec, true, k - AT_GOAL, x),
        ..AT_PATTERNS => is_start_right(rec, k - AT_START, x),
        ..AT_ACTIONS => {
            let i = k - AT_PATTERNS;
            is_pattern_right(rec, i / ROW_SIZE, i % ROW_SIZE, x)
        }
        _ => {
            let i = k - AT_ACTIONS;
            is_action_right(rec, (i / ACTION_SIZE) as u8, i % ACTION_SIZE, x)
        }
    }
}
