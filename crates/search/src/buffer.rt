// Writing the plan's buffer: a byte at a place that may lie past its end, and a buffer without a plan.
// Asks nothing of the caller.
ghost use Rattle.std.specs.Prelude.{◌≡◌, length, replicate, slice_set};

// The one byte of a goal's plan.
// Stays: the check of plans has this number too: it is a byte of plans, and `task_record`, the crate below both, knows no plans.
pub(crate) const ARRIVED: u8 = 254;

// A byte of the buffer that no plan has.
const UNUSED: u8 = 255;

// Stores b at `at`, where the buffer reaches that far.
// Stays: an index after a test: of a slice whose cell `get_mut` lent, a proof knows the length afterwards and no cell. The reader has the same lines for
// a record's cells, and the search may not rest on the reader.
pub(crate) fn put(plan: &mut [u8], at: usize, b: u8)
    ensures { plan.new ≡ slice_set plan.old at b }
{
    if at < plan.len() {
        plan[at] = b;
    }
}

// Leaves no plan in a buffer, or in what is left of it.
pub(crate) fn clear(plan: &mut [u8])
    ensures { plan.new ≡ replicate (length plan.old) 255 }
{
    plan.fill(UNUSED);
}
