// What the patterns of a record say without a build: the additivity verdict (`verdict`), room for their tables (`space`, `estimate`) and the
// value of a state from lent tables (`value`), whose entries are as `entry` says.
#![tactic(auto)]

pub mod entry;
pub mod estimate;
mod places;
pub mod space;
pub mod value;
pub mod verdict;
