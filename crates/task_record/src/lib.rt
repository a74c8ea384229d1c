// The record of a task, the lowest layer with code: its layout, its check and that of a state (`record`), the rule of
// each cell (`rules`), its cells by name (`cells`), and the refusals of every call (`refusal`).
// The record's offsets are named here (`layout`) and nowhere else; the crates above ask for them, the reader to write a record, the others to
// read sizes, goal and actions where they stand.
#![tactic(auto)]

pub mod cells;
mod columns;
pub mod layout;
mod measured;
pub mod record;
pub mod refusal;
mod rules;
pub mod sound;
