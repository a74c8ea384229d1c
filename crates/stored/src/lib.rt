// Stored records: what was written in the first form of a record becomes a record of today's. That form stands here as it was, its layout
// (`first_layout`), its cells by name (`first_cells`), the rule of each cell (`first_rules`) and its check (`first_record`): `task_record` has
// today's, which may change, and these may not.
#![tactic(auto)]

mod first_cells;
mod first_layout;
mod first_record;
mod first_rules;
pub mod upgrade;
