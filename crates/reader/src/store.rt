// Cells of a lent slice, read and written: past its end there is 0 to read and nothing to write, so no bound is asked for. Assumes nothing.
ghost use Rattle.std.specs.Prelude.{◌≡◌, ◌+◌, ◌<◌, ◌≤◌, length, get_or, set, replicate};
ghost use Rattle.std.proofs.lemmas.List.Edits.{sets};

// The cell at an offset.
pub(crate) fn byte_at(r: &[u8], k: usize) -> u8
    ensures { result ≡ get_or r.now k 0 }
{
    r.get(k).copied().unwrap_or(0)
}

// The same, as an index.
pub(crate) fn cell_at(r: &[u8], k: usize) -> usize
    ensures { (result ≡ get_or r.now k 0) × (result < 256) }
{
    usize::from(byte_at(r, k))
}

// One cell.
// Stays: a test and a store, since the library says nothing of what a slice ends as after its `get_mut`.
pub(crate) fn put(r: &mut [u8], at: usize, x: u8)
    ensures { r.new ≡ set r.old at x }
{
    if at < r.len() {
        r[at] = x;
    }
}

// A run of cells from an offset on.
pub(crate) fn put_cells(r: &mut [u8], at: usize, cells: &[u8])
    ensures { r.new ≡ sets r.old at cells.now }
{
    if at < r.len() {
        let n = cells.len().min(r.len() - at);
        r[at..at + n].copy_from_slice(&cells[..n]);
    }
}

// A run of n equal cells from an offset on.
pub(crate) fn fill(r: &mut [u8], at: usize, n: usize, x: u8)
    requires { at + n ≤ length r.old }
    ensures { r.new ≡ sets r.old at (replicate n x) }
{
    r[at..at + n].fill(x);
}
