// An entry of a table: its type, the entry that stands for an infinite cost, and reading one.
ghost use Rattle.std.specs.Prelude.{◌≡◌, slice_index_or};
ghost use Rattle.planning.specs.Table.{infinite_entry};

// "Table entries become 32 bits"
pub type Entry = u32;

// "infinite 4,294,967,295"
pub const INFINITE: Entry = Entry::MAX;

// Entry i; what lies past the end counts as infinite.
pub fn entry_at(tables: &[Entry], i: usize) -> Entry
    ensures { result ≡ slice_index_or tables.now i infinite_entry }
{
    tables.get(i).copied().unwrap_or(INFINITE)
}
