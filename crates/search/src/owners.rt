// The owner of each action: the pattern that one of its outcomes names a variable of, 8 where there is none.
// Asks for a built task, whose patterns are additive, so that there is at most one.
// Stays: `for` over numbers, since actions and patterns are asked for by their numbers.
ghost use Rattle.std.specs.Prelude.{◌≡◌, ℕ, ◌<◌, ◌≤◌, List};
ghost use Rattle.task_record.specs.Layout.{at_pattern};
ghost use Rattle.task_record.specs.Numbers.{action_count, pattern_count};
ghost use Rattle.task_record.specs.TaskOf.{cells_at, task_of, patterns_of};
ghost use Rattle.packed_task.specs.Packed.{pack_by, picking, outcome_count};
ghost use Rattle.search.specs.Weights.{WeightsOf};
ghost use Rattle.search.specs.Owned.{Owned, Marked, touches};

use crate::built::BuiltTask;
use packed_task::compiled_task::{kept, outcome_count};
use packed_task::layout::TASK_WORDS;
use packed_task::numbers::{ActionNumber, OutcomeNumber};
use packed_task::packed::mask_of;
use task_record::cells::{action_count, pattern_count};

// Whether an outcome of action m names a variable under the mask.
fn names_under(task: &[u64; TASK_WORDS], mask: u64, m: ActionNumber) -> bool
    requires { outcome_count task.now m.number ≤ 8 }
    ensures { result ≡ touches task.now mask m.number }
{
    (0..outcome_count(task, m)).any(
        |k|
            requires { k < 8 }
        { kept(task, m, OutcomeNumber { number: k }) & mask != mask },
    )
}

// Pattern p becomes the owner of every action that names a variable under its mask.
fn mark(built: &BuiltTask, owners: &mut [u8; 64], p: u8)
    ensures { Marked built.now.task.now (pack_by picking (cells_at built.now.rec.now (at_pattern p))) p (action_count built.now.rec.now) owners.old owners.new }
{
    let mask = mask_of(built.rec, p);
    for m in 0..usize::from(action_count(built.rec)) {
        if names_under(built.task, mask, ActionNumber { number: m }) {
            owners[m] = p;
        }
    }
}

pub(crate) fn fill_owners(built: &BuiltTask, owners: &mut [u8; 64])
    ensures { (weights : List (List ℕ)) (offsets : List ℕ) → WeightsOf (task_of built.now.rec.now).sizes (patterns_of built.now.rec.now) weights offsets → Owned built.now.task.now weights (action_count built.now.rec.now) (pattern_count built.now.rec.now) owners.new }
{
    for p in 0..pattern_count(built.rec) {
        mark(built, owners, p);
    }
}
