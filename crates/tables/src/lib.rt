// Tables of a packed task's patterns: a pattern and what the build of its table rests on (`pattern`), its abstract states (`ranking`), the
// Bellman value of an action (`steps`), sets that a test makes (`sets`), the table of one pattern from the goals backwards (`worklist`), all
// tables of a record (`record_tables`), how many states of a pattern have each cost (`spread`).
#![tactic(auto)]

mod pattern;
mod ranking;
pub mod record_tables;
mod sets;
pub mod spread;
mod steps;
mod worklist;
