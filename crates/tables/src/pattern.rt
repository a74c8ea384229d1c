// A pattern of a compiled task: what the build of its table works on, however it is made, and what that rests on.
// Stays: the entries beside a pattern, as beside a `Space`.
ghost use Rattle.std.specs.Prelude.{◌≡◌};
ghost use Rattle.tables.specs.Patterned.{Chosen, PatternOf, states_of};

use crate::ranking::state_count;
use crate::steps::effective;
use packed_task::layout::TASK_WORDS;
use packed_task::packed::mask_of_cells;
use std::marker::Model;
use task_record::cells::{action_count, pattern_cells, state_of, variable_count};
use task_record::sound::SoundRecord;

// The compiled task and its number of actions; the number of variables and their sizes; the pattern, its mask, and the set of the effective
// actions, of which no outcome leaves every state as it is.
#[derive(Drop)]
pub(crate) struct Pattern<'a> {
    pub(crate) task: &'a [u64; TASK_WORDS],
    pub(crate) actions: usize,
    pub(crate) n: usize,
    pub(crate) sizes: [u8; 16],
    pub(crate) picked: [u8; 16],
    pub(crate) mask: u64,
    pub(crate) effective: u64,
}

impl<'a> Model for Pattern<'a> {
    ghost use Rattle.tables.specs.Patterned.{Patterned, Ready};

    ghost Value = { Patterned };

    ghost view = { λ p. record { task = p.task.now; actions = p.actions; variables = p.n; sizes = p.sizes; picked = p.picked; mask = p.mask; effective = p.effective } };

    ghost invariant = { λ p. Ready (record { task = p.task.now; actions = p.actions; variables = p.n; sizes = p.sizes; picked = p.picked; mask = p.mask; effective = p.effective }) };
}

impl<'a> Pattern<'a> {
    // Pattern p of a record.
    // Stays: the mask from the sixteen cells at hand, and not by `mask_of`, whose loop over cells of any number is not unrolled: 34 instructions more for a
    // table of 8 states, and a build may not become slower.
    pub(crate) fn of(
        record: &SoundRecord,
        task: &'a [u64; TASK_WORDS],
        sizes: [u8; 16],
        p: u8,
    ) -> Pattern<'a>
        requires { Chosen record.now task.now sizes p }
        ensures { PatternOf record.now p result }
    {
        let actions = usize::from(action_count(record.cells));
        let picked = state_of(pattern_cells(record.cells, p));
        let mask = mask_of_cells(&picked);
        Pattern {
            task,
            actions,
            n: usize::from(variable_count(record.cells)),
            sizes,
            picked,
            mask,
            effective: effective(task, mask, actions),
        }
    }

    // The number of its abstract states.
    pub(crate) fn states(&self) -> usize
        ensures { result ≡ states_of self.now }
    {
        state_count(self.sizes, self.picked, self.n)
    }
}
