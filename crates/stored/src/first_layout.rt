// The layout of the first form in code: the offsets of specs/FirstLayout.antt. Assumes nothing.

// Of a record's bytes, those that were all of it at first.
pub const FIRST_SIZE: usize = 9464;

pub(crate) const AT_VARIABLES: usize = 0;

pub(crate) const AT_ACTION_COUNT: usize = 1;

pub(crate) const AT_PATTERN_COUNT: usize = 2;

pub(crate) const AT_LIMIT: usize = 3;

pub(crate) const AT_BUDGET: usize = 4;

pub(crate) const AT_SIZES: usize = 8;

pub(crate) const AT_GOAL: usize = 24;

pub(crate) const AT_START: usize = 40;

pub(crate) const AT_PATTERNS: usize = 56;

pub(crate) const AT_ACTIONS: usize = 184;

pub(crate) const ACTION_SIZE: usize = 145;

// Where an action's precondition and its outcomes begin, from the action's first cell on, which holds the number of outcomes.
pub(crate) const IN_PRECONDITION: usize = 1;

pub(crate) const IN_OUTCOMES: usize = 17;

pub(crate) const ROW_SIZE: usize = 16;

// A value that is not named.
pub(crate) const UNNAMED: u8 = 255;
