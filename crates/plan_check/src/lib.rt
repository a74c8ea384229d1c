// The check of a plan from any producer: whether its bytes are a strong plan from a state of the task that a record holds.
#![tactic(auto)]

mod cells;
pub mod check;
pub mod for_c;
mod frames;
mod stack;
mod task;
