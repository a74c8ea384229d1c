// The constants of a search: where each pattern's table begins, the record's numbers, the budget, and the owner of each action.
// Asks for a built task.
ghost use Rattle.std.specs.Prelude.{◌≡◌, ℕ, List};
ghost use Rattle.task_record.specs.TaskOf.{task_of, patterns_of};
ghost use Rattle.search.specs.Weights.{WeightsOf};
ghost use Rattle.search.specs.Owned.{Owned};
ghost use Rattle.search.specs.Constants.{ConstantsOf};

use crate::built::BuiltTask;
use crate::owners::fill_owners;
use task_record::cells::{action_count, limit, pattern_count, variable_count};

#[derive(Clone, Copy)]
pub(crate) struct Constants {
    // Where each pattern's table begins.
    pub offsets: [u32; 8],
    pub patterns: usize,
    pub variables: usize,
    pub actions: usize,
    pub budget: u32,
    pub limit: u32,
    // The pattern that each action may move a state in, 8 where there is none.
    // Stays: 8 and no Option: an owner is tested against the number of patterns before it is an index, and 8 fails that test. An Option would be asked
    // besides, and say the same.
    pub owners: [u8; 64],
}

pub(crate) fn constants_of(built: &BuiltTask, offsets: [u32; 8]) -> Constants
    ensures numbers { ConstantsOf built.now.rec.now built.now.budget result }
    ensures offsets { result.offsets ≡ offsets }
    ensures owned { (weights : List (List ℕ)) (begins : List ℕ) → WeightsOf (task_of built.now.rec.now).sizes (patterns_of built.now.rec.now) weights begins → Owned built.now.task.now weights result.actions result.patterns result.owners }
{
    let mut owners = [8u8; 64];
    fill_owners(built, &mut owners);
    Constants {
        offsets,
        patterns: usize::from(pattern_count(built.rec)),
        variables: usize::from(variable_count(built.rec)),
        actions: usize::from(action_count(built.rec)),
        budget: built.budget,
        limit: u32::from(limit(built.rec)),
        owners,
    }
}
