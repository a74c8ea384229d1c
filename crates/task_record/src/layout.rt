// The record's layout in code: the offsets of specs/Layout.antt, for this crate, for the reader, which writes a record, and for the patterns and
// the plan check, which read sizes, goal and actions where they stand. Assumes nothing.
ghost use Rattle.std.specs.Prelude.{◌≡◌};
ghost use Rattle.task_record.specs.Layout.{at_pattern, at_action, at_precondition, at_outcome, at_cost};

pub const RECORD_SIZE: usize = 9528;

pub const AT_VARIABLES: usize = 0;

pub const AT_ACTION_COUNT: usize = 1;

pub const AT_PATTERN_COUNT: usize = 2;

pub const AT_LIMIT: usize = 3;

pub const AT_BUDGET: usize = 4;

pub const AT_SIZES: usize = 8;

pub const AT_GOAL: usize = 24;

pub const AT_START: usize = 40;

pub const AT_PATTERNS: usize = 56;

pub const AT_ACTIONS: usize = 184;

pub const AT_COSTS: usize = 9464;

pub const ACTION_SIZE: usize = 145;

// Where an action's precondition and its outcomes begin, from the action's first cell on, which holds the number of outcomes.
pub const IN_PRECONDITION: usize = 1;

pub const IN_OUTCOMES: usize = 17;

// A row, as a state or an outcome is one, holds a cell for each variable that a record can have.
pub const ROW_SIZE: usize = 16;

// A value that is not named.
pub const UNNAMED: u8 = 255;

// Where the rows of a pattern and of an action begin, by their numbers, and where an action's cost stands.
pub fn at_pattern(p: u8) -> usize
    ensures { result ≡ at_pattern p }
{
    AT_PATTERNS + ROW_SIZE * usize::from(p)
}

pub fn at_action(m: u8) -> usize
    ensures { result ≡ at_action m }
{
    AT_ACTIONS + ACTION_SIZE * usize::from(m)
}

pub fn at_precondition(m: u8) -> usize
    ensures { result ≡ at_precondition m }
{
    at_action(m) + IN_PRECONDITION
}

pub fn at_outcome(m: u8, k: u8) -> usize
    ensures { result ≡ at_outcome m k }
{
    at_action(m) + IN_OUTCOMES + ROW_SIZE * usize::from(k)
}

pub fn at_cost(m: u8) -> usize
    ensures { result ≡ at_cost m }
{
    AT_COSTS + usize::from(m)
}
