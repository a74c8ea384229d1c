// The rule of each cell of a record, as specs/Record.antt has it: a function for each kind of cell, and in `is_cell_right` one clause for each, by
// the offset. The test by columns (`columns`) answers for whole parts of a record what these answer for each of their cells.
ghost use Rattle.std.specs.Prelude.{◌≡◌, ◌<◌, nat_lt};
ghost use Rattle.task_record.specs.Layout.{record_size};
ghost use Rattle.task_record.specs.Numbers.{variable_count};
ghost use Rattle.task_record.specs.Record.{head_ok, size_ok, assignment_ok, state_ok, pattern_ok, count_ok, action_ok, cost_ok, cell_ok};

use crate::cells::{action_count, budget, cell, outcome_count, pattern_count, variable_count};
use crate::layout::{
    ACTION_SIZE, AT_ACTION_COUNT, AT_ACTIONS, AT_BUDGET, AT_COSTS, AT_GOAL, AT_PATTERN_COUNT,
    AT_PATTERNS, AT_SIZES, AT_START, AT_VARIABLES, IN_OUTCOMES, IN_PRECONDITION, ROW_SIZE, UNNAMED,
};

// A fault of the budget stands at its first cell. Every byte is a limit.
#[tactic(auto, unfolding(crate::specs::Record::head_ok))]
pub(crate) fn is_head_right(rec: &[u8], k: usize) -> bool
    ensures { result ≡ head_ok rec.now k }
{
    match k {
        AT_VARIABLES => (1..=16).contains(&variable_count(rec)),
        AT_ACTION_COUNT => action_count(rec) <= 64,
        AT_PATTERN_COUNT => pattern_count(rec) <= 8,
        AT_BUDGET => budget(rec) <= 1000000,
        _ => true,
    }
}

// Whether the task has a variable v; the cells of any other are not used.
fn has_variable(rec: &[u8], v: usize) -> bool
    ensures { result ≡ nat_lt v (variable_count rec.now) }
{
    v < usize::from(variable_count(rec))
}

#[tactic(auto, unfolding(crate::specs::Record::size_ok))]
fn is_size_right(rec: &[u8], v: usize, x: u8) -> bool
    ensures { result ≡ size_ok rec.now v x }
{
    if has_variable(rec, v) {
        (2..=16).contains(&x)
    } else {
        x == 0
    }
}

// Of an assignment that is not used every cell is unnamed.
#[tactic(auto, unfolding(crate::specs::Record::assignment_ok, crate::specs::Record::value_ok))]
fn is_assignment_right(rec: &[u8], used: bool, v: usize, x: u8) -> bool
    ensures { result ≡ assignment_ok rec.now used v x }
{
    x == UNNAMED || used && has_variable(rec, v) && x < cell(rec, AT_SIZES + v)
}

#[tactic(auto, unfolding(crate::specs::Record::state_ok))]
pub(crate) fn is_state_right(rec: &[u8], v: usize, x: u8) -> bool
    ensures { result ≡ state_ok rec.now v x }
{
    if has_variable(rec, v) {
        x < cell(rec, AT_SIZES + v)
    } else {
        x == UNNAMED
    }
}

#[tactic(auto, unfolding(crate::specs::Record::pattern_ok))]
fn is_pattern_right(rec: &[u8], p: usize, v: usize, x: u8) -> bool
    ensures { result ≡ pattern_ok rec.now p v x }
{
    x == 0 || p < usize::from(pattern_count(rec)) && has_variable(rec, v) && x == 1
}

#[tactic(auto, unfolding(crate::specs::Record::count_ok))]
fn is_count_right(rec: &[u8], m: u8, x: u8) -> bool
    ensures { result ≡ count_ok rec.now m x }
{
    if m < action_count(rec) {
        (1..=8).contains(&x)
    } else {
        x == 0
    }
}

// Cell c of action m.
#[tactic(auto, unfolding(crate::specs::Record::action_ok))]
fn is_action_right(rec: &[u8], m: u8, c: usize, x: u8) -> bool
    ensures { result ≡ action_ok rec.now m c x }
{
    let used = m < action_count(rec);
    match c {
        0 => is_count_right(rec, m, x),
        ..IN_OUTCOMES => is_assignment_right(rec, used, c - IN_PRECONDITION, x),
        _ => {
            let i = c - IN_OUTCOMES;
            let used = used && i / ROW_SIZE < usize::from(outcome_count(rec, m));
            is_assignment_right(rec, used, i % ROW_SIZE, x)
        }
    }
}

// The cost of an action that is not used is 0.
#[tactic(auto, unfolding(crate::specs::Record::cost_ok))]
fn is_cost_right(rec: &[u8], m: u8, x: u8) -> bool
    ensures { result ≡ cost_ok rec.now m x }
{
    if m < action_count(rec) {
        1 <= x
    } else {
        x == 0
    }
}

// Stays: the bound of the offset as a clause: an action's number fits a byte by it, and a type for it would be made of the offset at every call;
// `as`: a `usize` has no `From` into a byte, and `try_from` has a case that never happens.
#[tactic(auto, unfolding(crate::specs::Record::cell_ok))]
pub(crate) fn is_cell_right(rec: &[u8], k: usize) -> bool
    requires { k < record_size }
    ensures { result ≡ cell_ok rec.now k }
{
    let x = cell(rec, k);
    match k {
        ..AT_SIZES => is_head_right(rec, k),
        ..AT_GOAL => is_size_right(rec, k - AT_SIZES, x),
        ..AT_START => is_assignment_right(rec, true, k - AT_GOAL, x),
        ..AT_PATTERNS => is_state_right(rec, k - AT_START, x),
        ..AT_ACTIONS => {
            let i = k - AT_PATTERNS;
            is_pattern_right(rec, i / ROW_SIZE, i % ROW_SIZE, x)
        }
        ..AT_COSTS => {
            let i = k - AT_ACTIONS;
            is_action_right(rec, (i / ACTION_SIZE) as u8, i % ACTION_SIZE, x)
        }
        _ => is_cost_right(rec, (k - AT_COSTS) as u8, x),
    }
}
