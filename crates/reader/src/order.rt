// The order of the lines: which line is due after another, by the counts that the record holds. Assumes nothing.
ghost use Rattle.std.specs.Prelude.{◌≡◌, ◌+◌, cond, ltb, get_or, Some, None};
ghost use Rattle.reader.specs.Grammar.{action_from, pattern_from, next_due, ended};

use crate::store::byte_at;
use task_record::layout::{AT_ACTION_COUNT, AT_PATTERN_COUNT, AT_VARIABLES, at_action};

// The line that is due, by its key: of a size the variable, of the lines of an action its number, of an eff its place, of a pattern its number. The
// cost stands last, so that what is proved of the others keeps its number.
#[derive(Clone, Copy, PartialEq, Eq)]
pub enum Due {
    Vars,
    Size(u8),
    Moves,
    Need(u8),
    Outcomes(u8),
    Eff(u8, u8),
    Goal,
    Start,
    Patterns,
    Pattern(u8),
    Limit,
    Budget,
    End,
    Cost(u8),
}

// The number after i, where it is below n.
fn next_below(i: u8, n: u8) -> Option<u8>
    ensures { result ≡ cond (ltb (i + 1) n) (Some (i + 1)) None }
{
    i.checked_add(1).filter(|&k| k < n)
}

#[tactic(auto, unfolding(crate::specs::Grammar::next_due))]
fn after_size(r: &[u8], i: u8) -> Due
    ensures { result ≡ next_due r.now (Due.Size i) }
{
    match next_below(i, byte_at(r, AT_VARIABLES)) {
        Some(k) => Due::Size(k),
        None => Due::Moves,
    }
}

fn after_action(r: &[u8], m: u8) -> Due
    ensures { result ≡ action_from r.now (m + 1) }
{
    match next_below(m, byte_at(r, AT_ACTION_COUNT)) {
        Some(k) => Due::Need(k),
        None => Due::Goal,
    }
}

#[tactic(auto, unfolding(crate::specs::Grammar::next_due))]
fn after_eff(r: &[u8], m: u8, o: u8) -> Due
    ensures { result ≡ next_due r.now (Due.Eff m o) }
{
    match next_below(o, byte_at(r, at_action(m))) {
        Some(k) => Due::Eff(m, k),
        None => after_action(r, m),
    }
}

fn after_pattern(r: &[u8], p: u8) -> Due
    ensures { result ≡ pattern_from r.now (p + 1) }
{
    match next_below(p, byte_at(r, AT_PATTERN_COUNT)) {
        Some(k) => Due::Pattern(k),
        None => Due::Limit,
    }
}

impl Due {
    // What is due after a line.
    #[tactic(auto, unfolding(crate::specs::Grammar::next_due))]
    pub(crate) fn next(self, r: &[u8]) -> Due
        ensures { result ≡ next_due r.now self }
    {
        match self {
            Due::Vars => Due::Size(0),
            Due::Size(i) => after_size(r, i),
            Due::Moves if byte_at(r, AT_ACTION_COUNT) == 0 => Due::Goal,
            Due::Moves => Due::Need(0),
            Due::Need(m) => Due::Cost(m),
            Due::Outcomes(m) => Due::Eff(m, 0),
            Due::Eff(m, o) => after_eff(r, m, o),
            Due::Goal => Due::Start,
            Due::Start => Due::Patterns,
            Due::Patterns if byte_at(r, AT_PATTERN_COUNT) == 0 => Due::Limit,
            Due::Patterns => Due::Pattern(0),
            Due::Pattern(p) => after_pattern(r, p),
            Due::Limit => Due::Budget,
            Due::Budget => Due::End,
            Due::End => Due::End,
            Due::Cost(m) => Due::Outcomes(m),
        }
    }

    // Whether nothing is due.
    // Stays: `self == Due::End` says that it is End or is not; then the definition's `ended` needs a law of its fourteen cases.
    pub(crate) fn is_end(self) -> bool
        ensures { result ≡ ended self }
    {
        matches!(self, Due::End)
    }
}
