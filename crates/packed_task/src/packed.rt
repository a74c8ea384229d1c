// Sixteen cells packed into a word of 64 bits, 4 bits each: the masks of patterns, and the start as a word.
ghost use Rattle.std.specs.Prelude.{◌≡◌, ◌≤◌, length};
ghost use Rattle.task_record.specs.Layout.{at_pattern};
ghost use Rattle.task_record.specs.TaskOf.{cells_at, start_of};
ghost use Rattle.packed_task.specs.Packed.{pack_by, digit_by, low, picking};

use task_record::cells::{pattern_cells, start_cells, variable_count};
use task_record::layout::UNNAMED;
use task_record::sound::SoundRecord;

// The rules for a digit: 15 where a cell names its variable, or where it does not; the value that it names; the value itself; 15 where it is 1.
#[derive(Clone, Copy, PartialEq, Eq)]
pub(crate) enum DigitRule {
    Naming,
    Leaving,
    Setting,
    Low,
    Picking,
}

// The digit of a cell by a rule.
#[tactic(auto, unfolding(crate::specs::Packed::digit_by))]
fn digit(rule: DigitRule, x: u8) -> u64
    ensures { result ≡ digit_by rule x }
{
    match rule {
        DigitRule::Naming => { if x == UNNAMED { 0 } else { 15 } }
        DigitRule::Leaving => { if x == UNNAMED { 15 } else { 0 } }
        DigitRule::Setting => { if x == UNNAMED { 0 } else { u64::from(x % 16) } }
        DigitRule::Low => u64::from(x % 16),
        DigitRule::Picking => { if x == 1 { 15 } else { 0 } }
    }
}

// At most sixteen cells as a word, by a rule.
pub(crate) fn pack(rule: DigitRule, cells: &[u8]) -> u64
    requires { length cells.now ≤ 16 }
    ensures { result ≡ pack_by (digit_by rule) cells.now }
{
    cells
        .iter()
        .rev()
        .fold(0, |p, x| (p << 4) | digit(rule, *x))
}

// The digits of the variables that sixteen cells pick by a 1.
pub fn mask_of_cells(picked: &[u8; 16]) -> u64
    ensures { result ≡ pack_by picking picked.now }
{
    pack(DigitRule::Picking, picked)
}

// The digits of the variables that pattern p of a record names.
pub fn mask_of(rec: &[u8], p: u8) -> u64
    ensures { result ≡ pack_by picking (cells_at rec.now (at_pattern p)) }
{
    pack(DigitRule::Picking, pattern_cells(rec, p))
}

// The start as a word.
pub fn start_word(record: &SoundRecord) -> u64
    ensures { result ≡ pack_by low (start_of record.now) }
{
    let n = usize::from(variable_count(record.cells));
    let cells = start_cells(record.cells);
    pack(DigitRule::Low, &cells[..n])
}
