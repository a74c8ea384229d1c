// A record whose search is prepared, as a type: nothing was refused, its task is compiled, and its tables stand. What the weights, the owners and the
// constants ask of a record is known of every such one.
ghost use Rattle.search.specs.Entry.{Prepared};

use packed_task::layout::TASK_WORDS;
use patterns::entry::Entry;

#[derive(Clone, Copy)]
pub(crate) struct BuiltTask<'a> {
    pub rec: &'a [u8],
    pub budget: u32,
    pub task: &'a [u64; TASK_WORDS],
    // The sets of actions that apply.
    pub sets: &'a [u64; 2048],
    // The start as a word.
    pub start: u64,
    pub tables: &'a [Entry],
    ghost prepared: { ∥ Prepared rec.now budget task.now sets.now start tables.now ∥₁ },
}
