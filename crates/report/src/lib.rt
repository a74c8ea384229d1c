// What the programs print: of `tower`, a text goes in, lines come out (`text`); of `records`, a stored record goes in, the record comes out
// (`records`). All that decides stands here, so that the program only reads, calls and writes.
#![tactic(auto)]

mod answers;
pub mod input;
mod lines;
pub mod records;
pub mod text;
