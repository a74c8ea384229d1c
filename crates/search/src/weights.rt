// The weights of a task's patterns: what one more of each variable's value adds to the index in each pattern's table, and where each table begins.
// Asks for a built task, whose patterns have at most 4,096 states each, so that no weight is above 4,096.
// Stays: `for` over numbers, since variables and patterns are asked for by their numbers.
ghost use Rattle.std.specs.Prelude.{◌≡◌, ◌<◌};
ghost use Rattle.planning.specs.Table.{state_count};
ghost use Rattle.task_record.specs.Layout.{at_pattern};
ghost use Rattle.task_record.specs.Numbers.{pattern_count};
ghost use Rattle.task_record.specs.TaskOf.{cells_at, task_of, patterns_of};
ghost use Rattle.search.specs.Weights.{pattern_weights, WeightsOf};

use crate::built::BuiltTask;
use task_record::cells::{pattern_cells, pattern_count, size_of, variable_count};

// The weights of pattern p, and the number of its abstract states.
fn weights_of(built: &BuiltTask, p: u8) -> ([u16; 16], u16)
    requires { p < pattern_count built.now.rec.now }
    ensures weights { result.0 ≡ pattern_weights (task_of built.now.rec.now).sizes (cells_at built.now.rec.now (at_pattern p)) }
    ensures states { result.1 ≡ state_count (task_of built.now.rec.now).sizes (cells_at built.now.rec.now (at_pattern p)) }
{
    let cells = pattern_cells(built.rec, p);
    let mut weights = [0u16; 16];
    let mut w = 1u16;
    for v in 0..variable_count(built.rec) {
        if cells[usize::from(v)] == 1 {
            weights[usize::from(v)] = w;
            w *= u16::from(size_of(built.rec, v));
        }
    }
    (weights, w)
}

// The weights of every pattern, and where their tables begin, in `offsets`.
pub(crate) fn fill_weights(built: &BuiltTask, weights: &mut [[u16; 16]; 8], offsets: &mut [u32; 8])
    ensures { WeightsOf (task_of built.now.rec.now).sizes (patterns_of built.now.rec.now) weights.new offsets.new }
{
    let mut begin = 0u32;
    for p in 0..pattern_count(built.rec) {
        let (own, states) = weights_of(built, p);
        weights[usize::from(p)] = own;
        offsets[usize::from(p)] = begin;
        begin += u32::from(states);
    }
}
