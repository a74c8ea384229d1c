// The two words of an outcome or a precondition from its sixteen cells, eight cells at once: where every cell is a value or 255, its high digit tells
// whether it names a value, and its low digit which.
ghost use Rattle.std.specs.Prelude.{◌≡◌, ◌+◌, ◌<◌, ◌≤◌, length, take, drop, ◌==◌, slice_index};
ghost use Rattle.task_record.specs.Scan.{all_below};
ghost use Rattle.packed_task.specs.Packed.{pack_by, leaving, setting};
ghost use Rattle.packed_task.specs.Squeezed.{bytes_of, plain_cell, squeezed};

use crate::packed::{DigitRule, pack};
use task_record::layout::UNNAMED;

// What an outcome keeps, and what it sets; of a precondition the digits that it does not name, and the values that it names.
#[derive(Clone, Copy)]
pub(crate) struct Words {
    pub(crate) keep: u64,
    pub(crate) value: u64,
}

fn strange(x: u8) -> u8
    ensures { (result == 0) ≡ plain_cell x }
{
    if x == UNNAMED || x < 16 {
        return 0;
    }
    1
}

// Whether every cell is a value or 255. It does not stop at a fault, so that it becomes one vector compare.
// Stays: a loop, and no `all`, which stops at the first fault; `faultless` of task_record asks that its test can be called, and a public function asks
// nothing of its callers.
fn all_plain(cells: &[u8]) -> bool
    requires { length cells.now ≡ 16 }
    ensures { result ≡ all_below (λ i. plain_cell (slice_index cells.now i)) 16 }
{
    let mut bad = 0u8;
    for x in cells {
        bad |= strange(*x);
    }
    bad == 0
}

// Four cells as the bytes of a number.
// Stays: a sum: `from_le_bytes` asks for an array, in which each cell would be named as it is here.
fn four(c: &[u8], at: usize) -> u64
    requires { (at + 4 ≤ length c.now) × (at ≤ 16) }
    ensures { (result ≡ bytes_of (take 4 (drop at c.now))) × (result < 4294967296) }
{
    u64::from(c[at])
        + 256 * u64::from(c[at + 1])
        + 65536 * u64::from(c[at + 2])
        + 16777216 * u64::from(c[at + 3])
}

// The low digits of the eight bytes of a word, side by side.
fn squeeze(x: u64) -> u64
    ensures { (result ≡ squeezed 8 x) × (result < 4294967296) }
{
    let even = x & 4222189076152335;
    let odd = (x / 256) & 4222189076152335;
    let y = even + 16 * odd;
    // Each pair of digits beside the one before it, and then the two upper pairs at the two lower ones.
    let z = y + y / 256;
    z % 65536 + 65536 * (z / 4294967296 % 65536)
}

// Eight cells as the bytes of a word.
fn eight(c: &[u8], at: usize) -> u64
    requires { (at + 8 ≤ length c.now) × (at ≤ 8) }
    ensures { result ≡ bytes_of (take 8 (drop at c.now)) }
{
    four(c, at) + 4294967296 * four(c, at + 4)
}

// The words of at most sixteen cells.
pub(crate) fn words_of(cells: &[u8]) -> Words
    requires { length cells.now ≤ 16 }
    ensures { (result.keep ≡ pack_by leaving cells.now) × (result.value ≡ pack_by setting cells.now) }
{
    if cells.len() == 16 && all_plain(cells) {
        let x = eight(cells, 0);
        let y = eight(cells, 8);
        let keep = squeeze(x / 16) + 4294967296 * squeeze(y / 16);
        let low = squeeze(x) + 4294967296 * squeeze(y);
        return Words {
            keep,
            value: low - keep,
        };
    }
    Words {
        keep: pack(DigitRule::Leaving, cells),
        value: pack(DigitRule::Setting, cells),
    }
}
