// The reader: a text is read into a record. It alone knows the text's grammar; where the record's cells stand it has from `task_record`.
#![tactic(auto)]

mod blank;
mod decimal;
mod draft;
mod due_line;
mod grammar;
mod lists;
mod order;
mod pieces;
mod places;
mod quick_items;
mod quick_lines;
mod quick_text;
mod store;
pub mod text;
