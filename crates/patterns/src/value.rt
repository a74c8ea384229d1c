// The value of a state, read from lent tables.
ghost use Rattle.std.specs.Prelude.{◌≡◌, ◌≤◌, length, Ok};
ghost use Rattle.planning.specs.Task.{State};
ghost use Rattle.planning.specs.Table.{value, Small};
ghost use Rattle.task_record.specs.State.{judge_state};
ghost use Rattle.task_record.specs.TaskOf.{task_of, patterns_of};
ghost use Rattle.patterns.specs.Space.{entries_needed};
ghost use Rattle.patterns.specs.Estimate.{judge_estimate};
ghost use Rattle.patterns.specs.Value.{value_of, read_value, state_value};
ghost use Rattle.patterns.specs.Answers.{value_numbers, value_by_lines};

use crate::entry::{Entry, INFINITE, entry_at};
use crate::estimate::judge_estimate;
use crate::places::place_of;
use task_record::cells::{pattern_cells, pattern_count, variable_count};
use task_record::layout::AT_SIZES;
use task_record::refusal::Refusal;
use task_record::sound::SoundRecord;

// Sizes and state have a cell for each variable of the task. The tables follow each other, so each begins where the one before ends.
// Stays: a `for` over numbers: `cells[AT_PATTERNS..].chunks_exact(ROW_SIZE).take(..)` is no plainer than a row by its number (`pattern_cells`).
fn sum_entries(record: &SoundRecord, sizes: &[u8], state: &[u8], tables: &[Entry]) -> Option<u64>
    requires { (sizes.now ≡ (task_of record.now).sizes) × (State (task_of record.now) state.now) × (Small (task_of record.now) (patterns_of record.now)) × (entries_needed (task_of record.now).sizes (patterns_of record.now) ≤ length tables.now) }
    ensures { result ≡ value_of (value (task_of record.now).sizes (patterns_of record.now) tables.now state.now) }
{
    let mut sum = 0u64;
    let mut begin = 0usize;
    for p in 0..pattern_count(record.cells) {
        let place = place_of(sizes, pattern_cells(record.cells, p), state);
        let at = begin + place.index;
        let entry = entry_at(tables, at);
        if entry == INFINITE {
            return None;
        }
        sum += u64::from(entry);
        begin += place.states;
    }
    Some(sum)
}

fn read_value(record: &SoundRecord, state: &[u8], tables: &[Entry]) -> Option<u64>
    requires { (judge_state record.now state.now ≡ Ok tt) × (judge_estimate record.now (length tables.now) ≡ Ok tt) }
    ensures { result ≡ value_of (read_value record.now state.now tables.now) }
{
    let variables = usize::from(variable_count(record.cells));
    let end = AT_SIZES + variables;
    sum_entries(
        record,
        &record.cells[AT_SIZES..end],
        &state[..variables],
        tables,
    )
}

// The value that the tables say of the state, none where it is infinite. The record is read once for its check and once for its patterns.
pub fn state_value(rec: &[u8], state: &[u8], tables: &[Entry]) -> Result<Option<u64>, Refusal>
    ensures value { result ≡ state_value rec.now state.now tables.now }
    ensures numbers { value_numbers result ≡ value_by_lines rec.now state.now tables.now }
{
    let record = SoundRecord::new(rec)?;
    judge_estimate(&record, tables.len())?;
    record.check_state(state)?;
    Ok(read_value(&record, state, tables))
}
