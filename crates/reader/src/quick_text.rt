// The lines of a good text in their order, each read once. Every function answers what stands behind its lines, or nothing where it does not know
// them for good; then the record may hold anything. Assumes nothing.
// Stays: what is left of the text is an argument and the answer, beside the record: in a cursor with both it would be left somewhere in a line that
// is not known, so each clause would speak of the text twice, before and after, and it would stand behind a reference, not in a register.
ghost use Rattle.std.specs.Prelude.{◌≡◌, true, ◌+◌, ◌<◌, ◌≤◌, length, get_or, IfSome};
ghost use Rattle.task_record.specs.Layout.{at_action};
ghost use Rattle.reader.specs.Text.{lines_of, number_of};
ghost use Rattle.reader.specs.Grammar.{action_from, pattern_from, go_on, take_budget, read_from, complete};
ghost use Rattle.reader.specs.Quick.{Leads};

use crate::decimal::number;
use crate::draft::Draft;
use crate::lists::Kind;
use crate::order::Due;
use crate::pieces::LINE_BREAK;
use crate::places::{Field, Row};
use crate::quick_lines::{quick_list_line, quick_number_line};
use task_record::layout::{
    AT_ACTION_COUNT, AT_GOAL, AT_LIMIT, AT_PATTERN_COUNT, AT_SIZES, AT_START, AT_VARIABLES,
    at_action, at_cost, at_outcome, at_pattern, at_precondition,
};

// The sizes of all variables.
fn quick_sizes<'a>(s: &'a [u8], rec: &mut Draft) -> Option<&'a [u8]>
    requires { 1 ≤ get_or rec.old 0 0 }
    ensures { IfSome result (λ e. Leads (Due.Size 0) rec.old s.now Due.Moves rec.new e.now) }
{
    let mut rest = s;
    let n = rec.variables();
    for i in 0..n {
        rest = quick_number_line(rest, rec, b"size=", Field::new(2, 16, AT_SIZES + i))?;
    }
    Some(rest)
}

// The outcomes of action m.
fn quick_outcomes<'a>(s: &'a [u8], rec: &mut Draft, m: u8) -> Option<&'a [u8]>
    requires { (m < 64) × (1 ≤ get_or rec.old (at_action m) 0) × (get_or rec.old (at_action m) 0 ≤ 8) }
    ensures { IfSome result (λ e. (get_or rec.new 1 0 ≡ get_or rec.old 1 0) × Leads (Due.Eff m 0) rec.old s.now (action_from rec.new (m + 1)) rec.new e.now) }
{
    let mut rest = s;
    let count = rec.cell(at_action(m));
    for k in 0..count {
        rest = quick_list_line(rest, rec, b"eff=", Kind::Pairs, Row::new(at_outcome(m, k)))?;
    }
    Some(rest)
}

// The cost of action m, or 1 where the line is left out.
fn quick_cost<'a>(s: &'a [u8], rec: &mut Draft, m: u8) -> Option<&'a [u8]>
    requires { m < 64 }
    ensures { IfSome result (λ e. (get_or rec.new 1 0 ≡ get_or rec.old 1 0) × Leads (Due.Cost m) rec.old s.now (Due.Outcomes m) rec.new e.now) }
{
    if s.starts_with(b"cost=") {
        return quick_number_line(s, rec, b"cost=", Field::new(1, 255, at_cost(m)));
    }
    rec.store(at_cost(m), 1);
    Some(s)
}

// The four kinds of line of action m.
fn quick_action<'a>(s: &'a [u8], rec: &mut Draft, m: u8) -> Option<&'a [u8]>
    requires { m < 64 }
    ensures { IfSome result (λ e. (get_or rec.new 1 0 ≡ get_or rec.old 1 0) × Leads (Due.Need m) rec.old s.now (action_from rec.new (m + 1)) rec.new e.now) }
{
    let a = quick_list_line(s, rec, b"need=", Kind::Pairs, Row::new(at_precondition(m)))?;
    let b = quick_cost(a, rec, m)?;
    let c = quick_number_line(b, rec, b"outcomes=", Field::new(1, 8, at_action(m)))?;
    quick_outcomes(c, rec, m)
}

// The lines of all actions.
fn quick_actions<'a>(s: &'a [u8], rec: &mut Draft) -> Option<&'a [u8]>
    requires { get_or rec.old 1 0 ≤ 64 }
    ensures { IfSome result (λ e. Leads (action_from rec.old 0) rec.old s.now Due.Goal rec.new e.now) }
{
    let mut rest = s;
    let count = rec.cell(AT_ACTION_COUNT);
    for m in 0..count {
        rest = quick_action(rest, rec, m)?;
    }
    Some(rest)
}

// The lines of all patterns.
fn quick_patterns<'a>(s: &'a [u8], rec: &mut Draft) -> Option<&'a [u8]>
    requires { get_or rec.old 2 0 ≤ 8 }
    ensures { IfSome result (λ e. Leads (pattern_from rec.old 0) rec.old s.now Due.Limit rec.new e.now) }
{
    let mut rest = s;
    let count = rec.cell(AT_PATTERN_COUNT);
    for p in 0..count {
        rest = quick_list_line(
            rest,
            rec,
            b"pattern=",
            Kind::Members,
            Row::new(at_pattern(p)),
        )?;
    }
    Some(rest)
}

// The lines up to the last action.
fn quick_front<'a>(s: &'a [u8], rec: &mut Draft) -> Option<&'a [u8]>
    ensures { IfSome result (λ e. Leads Due.Vars rec.old s.now Due.Goal rec.new e.now) }
{
    let a = quick_number_line(s, rec, b"vars=", Field::new(1, 16, AT_VARIABLES))?;
    let b = quick_sizes(a, rec)?;
    let c = quick_number_line(b, rec, b"moves=", Field::new(0, 64, AT_ACTION_COUNT))?;
    quick_actions(c, rec)
}

// The lines of the goal and of the start.
fn quick_states<'a>(s: &'a [u8], rec: &mut Draft) -> Option<&'a [u8]>
    ensures { IfSome result (λ e. Leads Due.Goal rec.old s.now Due.Patterns rec.new e.now) }
{
    let a = quick_list_line(s, rec, b"goal=", Kind::Pairs, Row::new(AT_GOAL))?;
    quick_list_line(a, rec, b"start=", Kind::Values, Row::new(AT_START))
}

// The lines from the number of patterns to the limit.
fn quick_tail<'a>(s: &'a [u8], rec: &mut Draft) -> Option<&'a [u8]>
    ensures { IfSome result (λ e. Leads Due.Patterns rec.old s.now Due.Budget rec.new e.now) }
{
    let a = quick_number_line(s, rec, b"patterns=", Field::new(0, 8, AT_PATTERN_COUNT))?;
    let b = quick_patterns(a, rec)?;
    quick_number_line(b, rec, b"limit=", Field::new(0, 255, AT_LIMIT))
}

// The lines before the last.
fn quick_lines<'a>(s: &'a [u8], rec: &mut Draft) -> Option<&'a [u8]>
    ensures { IfSome result (λ e. Leads Due.Vars rec.old s.now Due.Budget rec.new e.now) }
{
    let a = quick_front(s, rec)?;
    let b = quick_states(a, rec)?;
    quick_tail(b, rec)
}

// The place where the last line of a text ends: before the line break at the text's end, or there.
fn last_end(text: &[u8]) -> usize
    requires { 1 ≤ length text.now }
    ensures { (result ≤ length text.now) × (length text.now ≤ result + 1) × (result < length text.now → get_or text.now result 0 ≡ 10) }
{
    let last = text.len() - 1;
    if text[last] == LINE_BREAK {
        last
    } else {
        last + 1
    }
}

// Whether a budget stands there; then the record has it.
#[tactic(auto, unfolding(crate::specs::Grammar::take_budget))]
fn quick_budget(rec: &mut Draft, s: &[u8]) -> bool
    ensures { result ≡ true → take_budget rec.old Due.Budget (number_of s.now) ≡ go_on Due.Budget rec.new }
{
    match number(s) {
        Some(n) if n <= 1000000 => {
            rec.store_budget(n);
            true
        }
        _ => false,
    }
}

// Whether the text is known for good; then the record is what it says.
pub(crate) fn is_good(text: &[u8], rec: &mut Draft) -> bool
    ensures { result ≡ true → read_from 1 Due.Vars rec.old (lines_of text.now) ≡ complete rec.new }
{
    let Some(last) = quick_lines(text, rec) else {
        return false;
    };
    let Some(value) = last.strip_prefix(b"budget=") else {
        return false;
    };
    if value.is_empty() {
        return false;
    }
    let end = last_end(value);
    quick_budget(rec, &value[..end])
}
