// Every entry of `planner` as one archive for C, `libplanner.a`: slices come as pointer and length, answers go back as five numbers by value
// (c/planner.h).
// Stays: each entry stands once more here than in `planner`: a crate is a library or an archive, and `vectors` calls the library.
#![tactic(auto)]

pub mod estimates;
pub mod plans;
pub mod records;
pub mod tasks;
