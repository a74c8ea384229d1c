// Where a line's number goes: its cell, with the range that it may have; and where a list goes: its row. Assumes nothing.
ghost use Rattle.std.specs.Prelude.{◌≡◌, ◌+◌, ◌≤◌};
ghost use Rattle.task_record.specs.Layout.{record_size};

// The numbers that a line may hold, and the cell that keeps it.
#[derive(Clone, Copy)]
pub struct Field {
    pub low: u8,
    pub high: u8,
    pub at: usize,
}

// The sixteen cells of a list, behind the counts and sizes.
#[derive(Clone, Copy)]
pub struct Row {
    pub at: usize,
    ghost behind_sizes: { 24 ≤ at },
    ghost in_record: { at + 16 ≤ record_size },
}

impl Field {
    pub(crate) fn new(low: u8, high: u8, at: usize) -> Field
        ensures { result ≡ record { low = low; high = high; at = at } }
    {
        Field { low, high, at }
    }
}

impl Row {
    pub(crate) fn new(at: usize) -> Row
        requires { (24 ≤ at) × (at + 16 ≤ record_size) }
        ensures { result.at ≡ at }
    {
        Row { at }
    }
}
