// The record before the first line: nothing is used. Assumes nothing.
ghost use Rattle.std.specs.Prelude.{◌≡◌};
ghost use Rattle.reader.specs.Grammar.{blank};
ghost use Rattle.reader.specs.Stores.{clear_actions};

use crate::store::{fill, put};
use task_record::layout::{AT_COSTS, AT_GOAL, RECORD_SIZE, UNNAMED, at_action, at_pattern};

// The record that is filled, before it is copied out.
pub type Record = [u8; RECORD_SIZE];

// The outcome numbers of the first n actions are 0.
fn clear_actions(r: &mut [u8], n: u8)
    ensures { r.new ≡ clear_actions n r.old }
{
    for m in 0..n {
        put(r, at_action(m), 0);
    }
}

// A record with nothing used, made in place.
pub(crate) fn clear_record(r: &mut Record)
    ensures { r.new ≡ blank }
{
    fill(r, 0, RECORD_SIZE, UNNAMED);
    fill(r, 0, AT_GOAL, 0);
    fill(r, at_pattern(0), at_action(0) - at_pattern(0), 0);
    fill(r, AT_COSTS, RECORD_SIZE - AT_COSTS, 0);
    clear_actions(r, 64);
}
