// A record with room for every cell, and one whose sizes have passed: what the tests of its cells stand on.
ghost use Rattle.std.specs.Prelude.{ℕ, ◌<◌, ◌≤◌, length, slice_index};
ghost use Rattle.task_record.specs.Layout.{record_size};
ghost use Rattle.task_record.specs.Parts.{SizesPassed};

#[derive(Clone, Copy)]
pub(crate) struct LongRecord<'a> {
    pub cells: &'a [u8],
    ghost long: { record_size ≤ length cells.now },
    ghost byte: { (k : ℕ) → slice_index cells.now k < 256 },
}

#[derive(Clone, Copy)]
pub(crate) struct Measured<'a> {
    pub rec: &'a [u8],
    pub sizes: [u8; 16],
    ghost passed: { SizesPassed rec.now sizes },
}
