// Whether lent tables can hold the tables of a task's patterns: the refusals 7 and 8, the same for every entry that tests them.
ghost use Rattle.std.specs.Prelude.{◌≡◌};
ghost use Rattle.task_record.specs.TaskOf.{task_of, patterns_of};
ghost use Rattle.patterns.specs.Space.{all_sizes, judge_tables, table_check};
ghost use Rattle.patterns.specs.Answers.{table_numbers, tables_by_lines};

use crate::places::state_count;
use std::array;
use task_record::cells::{pattern_cells, pattern_count, size_of, variable_count};
use task_record::layout::AT_SIZES;
use task_record::refusal::Refusal;
use task_record::sound::SoundRecord;

// The sixteen cells of the sizes; past the end of the slice a cell is 0. No entry of the product: it is for the build, and checks nothing.
pub fn sizes_of(rec: &[u8]) -> [u8; 16]
    ensures { result ≡ all_sizes rec.now }
{
    array::from_fn(|v| size_of(rec, v as u8))
}

// The pattern's cells and the sizes are read once; the sum stops at the first pattern that is too large.
// Stays: a `for` over numbers, since the number of a pattern is both what finds its row and what the refusal tells; and `as`, since a length has no
// `From` into a word.
pub(crate) fn judge_room(record: &SoundRecord, sizes: &[u8], lent: usize) -> Result<u64, Refusal>
    requires { sizes.now ≡ (task_of record.now).sizes }
    ensures { result ≡ judge_tables (task_of record.now).sizes (patterns_of record.now) lent }
{
    let mut needed = 0usize;
    for p in 0..pattern_count(record.cells) {
        let Some(states) = state_count(sizes, pattern_cells(record.cells, p)) else {
            return Err(Refusal::LargePattern(u64::from(p)));
        };
        needed += states;
    }
    if lent < needed {
        return Err(Refusal::ShortTables(needed as u64));
    }
    Ok(needed as u64)
}

pub(crate) fn judge_tables(record: &SoundRecord, lent: usize) -> Result<u64, Refusal>
    ensures { result ≡ judge_tables (task_of record.now).sizes (patterns_of record.now) lent }
{
    let end = AT_SIZES + usize::from(variable_count(record.cells));
    judge_room(record, &record.cells[AT_SIZES..end], lent)
}

// How many entries the tables of the task need, where tables of `lent` entries can hold them. No entry of the product: the build asks it.
#[tactic(auto, using(crate::proofs::ByLines::tables_told))]
pub fn check_tables(rec: &[u8], lent: usize) -> Result<u64, Refusal>
    ensures value { result ≡ table_check rec.now lent }
    ensures numbers { table_numbers result ≡ tables_by_lines rec.now lent }
{
    let record = SoundRecord::new(rec)?;
    judge_tables(&record, lent)
}
