// What the line that is due must be: its key, and what stands behind it, with its place in the record. Assumes nothing.
ghost use Rattle.std.specs.Prelude.{◌≡◌, List, ℕ, true, false, length, drop, cond, MatchResult};
ghost use Rattle.reader.specs.Text.{has_key};
ghost use Rattle.reader.specs.Grammar.{faulty, take_due};
ghost use Rattle.reader.specs.Held.{held, take_text};
ghost use Rattle.reader.specs.declared.order.Due.{Due};

use crate::grammar::LineFault;
use crate::lists::Kind;
use crate::order::Due;
use crate::places::Field;
use task_record::layout::{
    AT_ACTION_COUNT, AT_GOAL, AT_LIMIT, AT_PATTERN_COUNT, AT_SIZES, AT_START, AT_VARIABLES,
    at_action, at_cost, at_outcome, at_pattern, at_precondition,
};

// What a value is: a number, the budget, or a list with the place of its cells.
#[derive(Clone, Copy)]
pub enum Holds {
    Number(Field),
    Budget,
    List(Kind, usize),
}

impl Holds {
    // A number from low to high, for the cell at an offset.
    fn number(low: u8, high: u8, at: usize) -> Holds
        ensures { result ≡ Holds.Number (record { low = low; high = high; at = at }) }
    {
        Holds::Number(Field::new(low, high, at))
    }
}

// What stands behind the key of a line.
#[derive(Clone, Copy)]
pub struct Value<'a> {
    pub text: &'a [u8],
    pub holds: Holds,
}

fn after_key<'a>(line: &'a [u8], key: &[u8]) -> Result<&'a [u8], LineFault>
    ensures { MatchResult result (λ s. (has_key key.now line.now ≡ true) × (s.now ≡ drop (length key.now) line.now)) (λ e. (has_key key.now line.now ≡ false) × (e ≡ LineFault.Unexpected)) }
{
    line.strip_prefix(key).ok_or(LineFault::Unexpected)
}

// A line with a key: what stands behind it must be `holds`.
fn value_behind<'a>(line: &'a [u8], key: &[u8], holds: Holds) -> Result<Value<'a>, LineFault>
    ensures { (r : List ℕ) (due : Due) → cond (has_key key.now line.now) (take_text r due holds (drop (length key.now) line.now)) (faulty LineFault.Unexpected) ≡ held r due result }
{
    let text = after_key(line, key)?;
    Ok(Value { text, holds })
}

// The value of a line, which must be the one that is due.
#[tactic(auto, unfolding(crate::specs::Bytes::bytes, crate::specs::Grammar::take_due, crate::specs::Grammar::number_line, crate::specs::Grammar::list_line, crate::specs::Grammar::budget_line))]
pub(crate) fn value_of(due: Due, line: &[u8]) -> Result<Value<'_>, LineFault>
    ensures { (r : List ℕ) → take_due r due line.now ≡ held r due result }
{
    match due {
        Due::Vars => value_behind(line, b"vars=", Holds::number(1, 16, AT_VARIABLES)),
        Due::Size(i) => value_behind(
            line,
            b"size=",
            Holds::number(2, 16, AT_SIZES + usize::from(i)),
        ),
        Due::Moves => value_behind(line, b"moves=", Holds::number(0, 64, AT_ACTION_COUNT)),
        Due::Need(m) => value_behind(line, b"need=", Holds::List(Kind::Pairs, at_precondition(m))),
        Due::Outcomes(m) => value_behind(line, b"outcomes=", Holds::number(1, 8, at_action(m))),
        Due::Eff(m, k) => value_behind(line, b"eff=", Holds::List(Kind::Pairs, at_outcome(m, k))),
        Due::Goal => value_behind(line, b"goal=", Holds::List(Kind::Pairs, AT_GOAL)),
        Due::Start => value_behind(line, b"start=", Holds::List(Kind::Values, AT_START)),
        Due::Patterns => value_behind(line, b"patterns=", Holds::number(0, 8, AT_PATTERN_COUNT)),
        Due::Pattern(p) => value_behind(
            line,
            b"pattern=",
            Holds::List(Kind::Members, at_pattern(p)),
        ),
        Due::Limit => value_behind(line, b"limit=", Holds::number(0, 255, AT_LIMIT)),
        Due::Budget => value_behind(line, b"budget=", Holds::Budget),
        Due::End => Err(LineFault::Unexpected),
        Due::Cost(m) => value_behind(line, b"cost=", Holds::number(1, 255, at_cost(m))),
    }
}
