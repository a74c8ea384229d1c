// The packed task: states and partial assignments packed into words (`packed`, `words`), the compiled words of a record's task (`compile`,
// `compile_record`) and their reading (`compiled_task`, `within`; by the places of `layout` and the `numbers` of actions and outcomes), sets of small
// numbers (`sets`), and the actions whose preconditions a state meets as a set (`applying`).
#![tactic(auto)]

pub mod applying;
mod compile;
pub mod compile_record;
pub mod compiled_task;
pub mod layout;
pub mod numbers;
pub mod packed;
pub mod sets;
pub mod within;
mod words;
