// Every entry of the product, for C: one archive whose functions take slices as pointer and length and answer five numbers (c/planner.h).
#![tactic(auto)]

pub mod answer;
pub mod estimates;
pub mod plans;
pub mod records;
pub mod tasks;
