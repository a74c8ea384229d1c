// The entry: from a text to the lines that are printed for it. Asks nothing of the caller.
ghost use Rattle.std.specs.Prelude.{◌≡◌, ◌+◌, ◌*◌, ◌≤◌, length};
ghost use Rattle.tables.specs.RecordTables.{tables_prepared};
ghost use Rattle.search.specs.Entry.{plan_after};
ghost use Rattle.report.specs.Report.{record_lines, printed, tables_left, plan_left};
ghost use Rattle.report.specs.Writing.{Puts, overwritten};

use crate::answers::{put_count, put_found, put_refusal, put_spent, put_start_value};
use crate::lines::Lines;
use patterns::entry::Entry;
use reader::text::read_text;
use search::entry::{SearchAnswer, search};
use task_record::layout::RECORD_SIZE;

// The lines of a record.
// Stays: `lines.at ≡ 0`, here, in `report` and at a start's value: it says where lines begin, and holds of no `Lines` afterwards.
// Stays: `as` at the plan's length, since a word has no `From` into an index, and `try_from` would have a case that never comes.
fn report_record(rec: &[u8], tables: &mut [Entry], plan: &mut [u8], lines: &mut Lines<'_>)
    requires { lines.old.at ≡ 0 }
    ensures written { Puts (record_lines (length tables.old) (length plan.old) rec.now) lines.old lines.new }
    ensures tables { tables.new ≡ tables_prepared rec.now tables.old }
    ensures plan { plan.new ≡ plan_after rec.now (length tables.old) plan.old }
    ensures short { lines.new.at ≤ 4 * length plan.old + 256 }
{
    match search(rec, tables, plan) {
        Err(refused) => put_refusal(lines, refused.numbers()),
        Ok(SearchAnswer::Found(cost, count, bytes)) => {
            put_start_value(lines, rec, tables);
            put_found(lines, cost, count, &plan[..bytes as usize])
        }
        Ok(SearchAnswer::Over(count)) => {
            put_start_value(lines, rec, tables);
            put_count(lines, b"answer=over", count)
        }
        Ok(SearchAnswer::Spent(round, count)) => {
            put_start_value(lines, rec, tables);
            put_spent(lines, round, count)
        }
        Ok(SearchAnswer::None(count)) => {
            put_start_value(lines, rec, tables);
            put_count(lines, b"answer=none", count)
        }
    }
}

// The lines of a text.
// Stays: an array for the record, since there is no heap.
fn report_lines(text: &[u8], tables: &mut [Entry], plan: &mut [u8], lines: &mut Lines<'_>)
    requires { lines.old.at ≡ 0 }
    ensures written { Puts (printed (length tables.old) (length plan.old) text.now) lines.old lines.new }
    ensures tables { tables.new ≡ tables_left text.now tables.old }
    ensures plan { plan.new ≡ plan_left text.now (length tables.old) plan.old }
    ensures short { lines.new.at ≤ 4 * length plan.old + 256 }
{
    let mut rec = [0u8; RECORD_SIZE];
    match read_text(text, &mut rec) {
        Ok(()) => report_record(&rec, tables, plan, lines),
        Err(refusal) => put_refusal(lines, refusal.numbers()),
    }
}

// Reads the text, searches with the lent tables and plan, and puts the lines into `out` as far as it reaches. Answers how many bytes the
// lines have: four for each byte of the plan and 256 are always enough.
pub fn report_text(text: &[u8], tables: &mut [Entry], plan: &mut [u8], out: &mut [u8]) -> usize
    ensures { (result ≡ length (printed (length tables.old) (length plan.old) text.now))
        × (out.new ≡ overwritten (printed (length tables.old) (length plan.old) text.now) out.old)
        × (tables.new ≡ tables_left text.now tables.old)
        × (plan.new ≡ plan_left text.now (length tables.old) plan.old)
        × (result ≤ 4 * length plan.old + 256) }
{
    let mut lines = Lines::new(out);
    report_lines(text, tables, plan, &mut lines);
    lines.len()
}
