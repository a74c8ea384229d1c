// All tables of a record: the build, and what a search needs before it starts.
// Stays: the tables beside a record, with `Fits` on their number, as the entries beside a `Pattern`.
ghost use Rattle.std.specs.Prelude.{◌≡◌, ◌+◌, ◌≤◌, ◌++◌, length, take, drop};
ghost use Rattle.task_record.specs.TaskOf.{task_of, start_of};
ghost use Rattle.patterns.specs.Answers.{tables_by_lines, estimate_by_lines};
ghost use Rattle.tables.specs.Answers.{table_build_numbers, prepare_numbers};
ghost use Rattle.packed_task.specs.Packed.{pack_by, low, compiled};
ghost use Rattle.tables.specs.Patterned.{states_at, entries_at, Chosen};
ghost use Rattle.tables.specs.RecordTables.{Fits, table_build, built_over, tables_built, tables_prepared, words_prepared, sets_prepared, start_prepared};

use crate::pattern::Pattern;
use crate::worklist::build::build_table;
use packed_task::applying::fill_sets;
use packed_task::compile_record::{compile_over, compile_record};
use packed_task::layout::TASK_WORDS;
use packed_task::packed::start_word;
use patterns::entry::Entry;
use patterns::estimate::check_estimate;
use patterns::space::{check_tables, sizes_of};
use task_record::cells::{action_count, pattern_count, start_cells, variable_count};
use task_record::refusal::Refusal;
use task_record::sound::SoundRecord;

// The table of pattern p, from entry `begin` on; the entries before and after it stay. Answers where it ends.
fn build_one(
    record: &SoundRecord,
    task: &[u64; TASK_WORDS],
    sizes: [u8; 16],
    p: u8,
    begin: usize,
    tables: &mut [Entry],
) -> usize
    requires { (Chosen record.now task.now sizes p) × (begin + states_at record.now p ≤ length tables.old) }
    ensures { (result ≡ begin + states_at record.now p) × (tables.new ≡ take begin tables.old ++ (entries_at record.now p ++ drop result tables.old)) }
{
    let pattern = Pattern::of(record, task, sizes, p);
    let end = begin + pattern.states();
    build_table(&pattern, &mut tables[begin..end]);
    end
}

// Each table begins where the one before ends.
fn build_all(record: &SoundRecord, task: &[u64; TASK_WORDS], tables: &mut [Entry])
    requires { (Fits record.now (length tables.old)) × (task.now ≡ compiled (task_of record.now)) }
    ensures { tables.new ≡ built_over record.now tables.old }
{
    let sizes = sizes_of(record.cells);
    let mut begin = 0usize;
    for p in 0..pattern_count(record.cells) {
        begin = build_one(record, task, sizes, p, begin, tables);
    }
}

// The compiled task is needed only while the tables are built, and not at all without patterns.
pub(crate) fn build_checked(record: &SoundRecord, tables: &mut [Entry])
    requires { Fits record.now (length tables.old) }
    ensures { tables.new ≡ built_over record.now tables.old }
{
    if pattern_count(record.cells) == 0 {
        return;
    }
    let mut task = [0u64; TASK_WORDS];
    compile_over(record, &mut task);
    build_all(record, &task, tables);
}

// The tables of the task's patterns, one after the other; entries after the last stay. Needs less than 170 KiB of stack, most of it for the worklist
// of a table of 4,096 states, which a smaller one does not clear, and 10 KiB for the compiled task.
pub fn build_tables(rec: &[u8], tables: &mut [Entry]) -> Result<u64, Refusal>
    ensures value { (result ≡ table_build rec.now (length tables.old)) × (tables.new ≡ tables_built rec.now tables.old) }
    ensures numbers { table_build_numbers result ≡ tables_by_lines rec.now (length tables.old) }
{
    let entries = check_tables(rec, tables.len())?;
    let record = SoundRecord { cells: rec };
    build_checked(&record, tables);
    Ok(entries)
}

// All that a search needs before it starts: patterns that are additive, their tables, the compiled task, its sets of applying actions, and the
// start as a word, which is the answer. The record is checked once for all of it. No entry of the product: `search` calls it. Needs less than 160 KiB of
// stack.
pub fn prepare(
    rec: &[u8],
    tables: &mut [Entry],
    task: &mut [u64; TASK_WORDS],
    sets: &mut [u64; 2048],
) -> Result<u64, Refusal>
    ensures value { (result ≡ start_prepared rec.now (length tables.old)) × (tables.new ≡ tables_prepared rec.now tables.old) × (task.new ≡ words_prepared rec.now (length tables.old) task.old) }
    ensures sets { sets.new ≡ sets_prepared rec.now (length tables.old) sets.old }
    ensures numbers { prepare_numbers result ≡ estimate_by_lines rec.now (length tables.old) }
{
    check_estimate(rec, tables.len())?;
    let record = SoundRecord { cells: rec };
    compile_record(&record, task);
    build_all(&record, task, tables);
    let actions = usize::from(action_count(rec));
    let bytes = (usize::from(variable_count(rec)) + 1) / 2;
    fill_sets(task, u64::MAX, actions, bytes, sets);
    Ok(start_word(&record))
}
