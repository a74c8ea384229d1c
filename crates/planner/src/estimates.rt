// Tables, their spread, the additivity verdict and values, for C.
ghost use Rattle.std.specs.Prelude.{◌≡◌, length};
ghost use Rattle.tables.specs.RecordTables.{table_build, tables_built};
ghost use Rattle.tables.specs.Spread.{table_spread, tables_spread, row_spread};
ghost use Rattle.patterns.specs.Additivity.{additivity};
ghost use Rattle.patterns.specs.Value.{state_value};
ghost use Rattle.patterns.specs.Answers.{additivity_numbers, value_numbers};
ghost use Rattle.tables.specs.Answers.{table_build_numbers, spread_numbers};
ghost use Rattle.plan_check.specs.ForC.{five_numbers};

use crate::answer::{PlannerAnswer, in_numbers};
use patterns::entry::Entry;
use patterns::value::state_value;
use patterns::verdict::additive;
use tables::record_tables::build_tables;
use tables::spread::spread;

#[unsafe(no_mangle)]
pub extern "C" fn planner_build_tables(rec: &[u8], tables: &mut [Entry]) -> PlannerAnswer
    ensures { (result ≡ five_numbers (table_build_numbers (table_build rec.now (length tables.old)))) × (tables.new ≡ tables_built rec.now tables.old) }
{
    in_numbers(build_tables(rec, tables))
}

#[unsafe(no_mangle)]
pub extern "C" fn planner_spread(
    rec: &[u8],
    pattern: u64,
    tables: &mut [Entry],
    row: &mut [u32],
) -> PlannerAnswer
    ensures { (result ≡ five_numbers (spread_numbers (table_spread rec.now pattern (length tables.old) (length row.old)))) × (tables.new ≡ tables_spread rec.now pattern tables.old (length row.old)) × (row.new ≡ row_spread rec.now pattern (length tables.old) row.old) }
{
    in_numbers(spread(rec, pattern, tables, row))
}

#[unsafe(no_mangle)]
pub extern "C" fn planner_additive(rec: &[u8]) -> PlannerAnswer
    ensures { result ≡ five_numbers (additivity_numbers (additivity rec.now)) }
{
    in_numbers(additive(rec))
}

#[unsafe(no_mangle)]
pub extern "C" fn planner_value(rec: &[u8], state: &[u8], tables: &[Entry]) -> PlannerAnswer
    ensures { result ≡ five_numbers (value_numbers (state_value rec.now state.now tables.now)) }
{
    in_numbers(state_value(rec, state, tables))
}
