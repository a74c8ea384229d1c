// An instance of the search, lent as one: the compiled task, the sets of actions that apply and those that a depth affords, the weights of each
// pattern's variables, their sums by bytes, the constants and the tables. That the arrays match is known of every instance.
ghost use Rattle.search.specs.Examination.{Matching};

use crate::byte_rows::Blocks;
use crate::constants::Constants;
use packed_task::layout::TASK_WORDS;
use patterns::entry::Entry;

#[derive(Clone, Copy)]
pub(crate) struct Instance<'a> {
    pub task: &'a [u64; TASK_WORDS],
    pub sets: &'a [u64; 2048],
    pub affordable: &'a [u64; 256],
    pub blocks: &'a Blocks,
    pub weights: &'a [[u16; 16]; 8],
    pub constants: Constants,
    pub tables: &'a [Entry],
    ghost matching: { Matching task.now sets.now affordable.now blocks.now weights.now constants },
}
