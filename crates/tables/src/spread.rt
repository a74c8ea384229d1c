// The spread of a pattern's table: how many of its abstract states have each cost, counted in a lent row. It shows whether a pattern tells
// states apart.
// Stays: `as` of a length and of an entry: the one has no `From` into a word, the other none into an index, and `try_from` has a case that never
// happens.
ghost use Rattle.std.specs.Prelude.{◌≡◌, suc, ◌+◌, ◌<◌, ◌≤◌, min, [], map, length, take};
ghost use Rattle.planning.specs.Table.{cost_of, EntriesBelow, most_cost, Small};
ghost use Rattle.planning.specs.Spread.{row_size, spread};
ghost use Rattle.task_record.specs.Numbers.{pattern_count};
ghost use Rattle.task_record.specs.TaskOf.{task_of, patterns_of};
ghost use Rattle.patterns.specs.Space.{entries_needed};
ghost use Rattle.tables.specs.Answers.{spread_numbers, spread_by_lines};
ghost use Rattle.tables.specs.RecordTables.{Fits, built_over};
ghost use Rattle.tables.specs.Spread.{costs_named, states_named, table_spread, tables_spread, row_spread};

use crate::ranking::state_count;
use crate::record_tables::build_checked;
use patterns::entry::Entry;
use patterns::space::{check_tables, sizes_of};
use std::ops::Range;
use task_record::cells::{pattern_cells, pattern_count, state_of, variable_count};
use task_record::refusal::Refusal;
use task_record::sound::SoundRecord;

// A count for each cost that a table can hold, from 0 on, and after them one for infinity.
const ROW: usize = 1044227;

// The place of an entry in the row: its own where it is finite, and so at most 1,044,225; an infinite one is cut to the last.
fn place_of(e: Entry) -> usize
    ensures { result ≡ min e (suc most_cost) }
{
    (e as usize).min(ROW - 1)
}

// Counts the entries of a table in a row that is cleared.
fn count_entries(entries: &[Entry], row: &mut [u32])
    requires { (length entries.now ≤ 4096) × (EntriesBelow (suc most_cost) (map cost_of entries.now)) × (row.old ≡ spread []) }
    ensures { row.new ≡ spread (map cost_of entries.now) }
{
    for e in entries {
        row[place_of(*e)] += 1;
    }
}

// The part of the tables that pattern p's table takes: behind the entries of the patterns before it.
fn part_of(record: &SoundRecord, p: u8) -> Range<usize>
    requires { (Small (task_of record.now) (patterns_of record.now)) × (p < pattern_count record.now) }
    ensures { (result.start ≡ entries_needed (task_of record.now).sizes (take p (patterns_of record.now))) × (result.end ≡ entries_needed (task_of record.now).sizes (take (p + 1) (patterns_of record.now))) }
{
    let sizes = sizes_of(record.cells);
    let n = usize::from(variable_count(record.cells));
    let mut begin = 0usize;
    let mut end = 0usize;
    for q in 0..p + 1 {
        let pattern = state_of(pattern_cells(record.cells, q));
        begin = end;
        end = begin + state_count(sizes, pattern, n);
    }
    begin..end
}

// The spread of a pattern's table that stands among the tables of its record; of a number that names no pattern all counts are 0. Answers how
// many states were counted.
fn count_pattern(record: &SoundRecord, pattern: u64, tables: &[Entry], row: &mut [u32]) -> u64
    requires { (Fits record.now (length tables.now)) × (tables.now ≡ built_over record.now tables.now) × (length row.old ≡ row_size) }
    ensures { (result ≡ states_named record.now pattern) × (row.new ≡ spread (costs_named record.now pattern)) }
{
    row.fill(0);
    let patterns = pattern_count(record.cells);
    let Ok(p) = u8::try_from(pattern) else {
        return 0;
    };
    if p >= patterns {
        return 0;
    }
    let part = part_of(record, p);
    count_entries(&tables[part.start..part.end], row);
    (part.end - part.start) as u64
}

// Builds the tables and counts, for the pattern of a number, how many of its abstract states have each cost: place v of the row is for cost v, the
// last for infinity. A row that is too short is refused before anything is built. Needs as much stack as a build.
#[tactic(auto, using(crate::proofs::Spreading::spread_told), unfolding(planning::specs::Spread::row_size))]
pub fn spread(
    rec: &[u8],
    pattern: u64,
    tables: &mut [Entry],
    row: &mut [u32],
) -> Result<u64, Refusal>
    ensures value { (result ≡ table_spread rec.now pattern (length tables.old) (length row.old)) × (tables.new ≡ tables_spread rec.now pattern tables.old (length row.old)) × (row.new ≡ row_spread rec.now pattern (length tables.old) row.old) }
    ensures numbers { spread_numbers result ≡ spread_by_lines rec.now pattern (length tables.old) (length row.old) }
{
    check_tables(rec, tables.len())?;
    if row.len() < ROW {
        return Err(Refusal::ShortRow(row.len() as u64));
    }
    let record = SoundRecord { cells: rec };
    build_checked(&record, tables);
    Ok(count_pattern(&record, pattern, tables, &mut row[..ROW]))
}
