// The compiled task's layout in code, by the names of specs/Packed.antt: how many words there are, and where each stands. Assumes nothing.

// The words of a compiled task: those of 64 actions, and the two of the goal.
pub const TASK_WORDS: usize = 1282;

// The words of an action. Its first one is the digits that it needs.
pub(crate) const ACTION_WORDS: usize = 20;

// Where the others stand, from the action's first word on: the values that it needs, the number of its outcomes, its weight, and of its first outcome
// what it keeps and what it sets.
pub(crate) const IN_VALUE: usize = 1;

pub(crate) const IN_COUNT: usize = 2;

pub(crate) const IN_WEIGHT: usize = 3;

pub(crate) const IN_KEPT: usize = 4;

pub(crate) const IN_SET: usize = 5;

// The words of an outcome.
pub(crate) const OUTCOME_WORDS: usize = 2;

// The digits that the goal needs, behind the words of all actions, and the values that it needs of them.
pub(crate) const GOAL_NEED: usize = 1280;

pub(crate) const GOAL_VALUE: usize = 1281;
