// The lines of an answer: a refusal, the value of the start, and what the search found. Asks that places stay small.
// Stays: a bound on the place before each (`at ≤ 53`, one line), since a sum that cannot wrap needs one. It is no invariant of `Lines`: one that
// holds after every line too would leave each to ask for the room of its own bytes.
ghost use Rattle.std.specs.Prelude.{◌≡◌, ◌++◌, ◌+◌, ◌*◌, ◌≤◌, length, Ok};
ghost use Rattle.planning.specs.Extended.{ℕ∞};
ghost use Rattle.task_record.specs.Layout.{at_start};
ghost use Rattle.task_record.specs.TaskOf.{cells_at};
ghost use Rattle.patterns.specs.Value.{value_of, state_value};
ghost use Rattle.reader.specs.Bytes.{bytes};
ghost use Rattle.report.specs.Lines.{line, number_line};
ghost use Rattle.report.specs.Report.{refusal_lines, value_line, found_lines, spent_lines};
ghost use Rattle.report.specs.Writing.{Puts};

use crate::lines::Lines;
use patterns::entry::Entry;
use patterns::value::state_value;
use task_record::cells::start_cells;
use task_record::refusal::Refusal;

// Number and second number of a refusal.
pub(crate) fn put_refusal(lines: &mut Lines<'_>, numbers: (u64, u64))
    requires { lines.old.at ≤ 53 }
    ensures written { Puts (refusal_lines numbers.0 numbers.1) lines.old lines.new }
    ensures short { lines.new.at ≤ lines.old.at + 106 }
{
    lines.put_number_line(b"refused=", numbers.0);
    lines.put_number_line(b"at=", numbers.1)
}

// A value that was refused has no line: the caller has seen that it is not.
fn put_value(lines: &mut Lines<'_>, value: Result<Option<u64>, Refusal>)
    requires { lines.old.at ≤ 53 }
    ensures written { (v : ℕ∞) → value ≡ Ok (value_of v) → Puts (value_line v) lines.old lines.new }
    ensures short { lines.new.at ≤ lines.old.at + 53 }
    ensures same { lines.new.out.ghost_name ≡ lines.old.out.ghost_name }
{
    match value {
        Ok(Some(v)) => lines.put_number_line(b"value=", v),
        Ok(None) => lines.put_line(b"value=infinite"),
        Err(_) => {}
    }
}

// The value of the start, from tables that a search left.
pub(crate) fn put_start_value(lines: &mut Lines<'_>, rec: &[u8], tables: &[Entry])
    requires { lines.old.at ≡ 0 }
    ensures written { (v : ℕ∞) → state_value rec.now (cells_at rec.now at_start) tables.now ≡ Ok (value_of v) → Puts (value_line v) lines.old lines.new }
    ensures short { lines.new.at ≤ 53 }
    ensures same { lines.new.out.ghost_name ≡ lines.old.out.ghost_name }
{
    put_value(lines, state_value(rec, start_cells(rec), tables))
}

pub(crate) fn put_found(lines: &mut Lines<'_>, cost: u64, count: u64, plan: &[u8])
    requires { (lines.old.at ≤ 53) × (length plan.now ≤ 1000000) }
    ensures written { Puts (found_lines cost count plan.now) lines.old lines.new }
    ensures short { lines.new.at ≤ lines.old.at + 172 + 4 * length plan.now }
{
    lines.put_line(b"answer=found");
    lines.put_number_line(b"cost=", cost);
    lines.put_number_line(b"count=", count);
    lines.put_plan_line(plan)
}

pub(crate) fn put_spent(lines: &mut Lines<'_>, round: u64, count: u64)
    requires { lines.old.at ≤ 53 }
    ensures written { Puts (spent_lines round count) lines.old lines.new }
    ensures short { lines.new.at ≤ lines.old.at + 139 }
{
    lines.put_line(b"answer=spent");
    lines.put_number_line(b"round=", round);
    lines.put_number_line(b"count=", count)
}

// Behind a word, the count of examinations: the lines where the search says no more.
pub(crate) fn put_count(lines: &mut Lines<'_>, word: &[u8], count: u64)
    requires { (lines.old.at ≤ 53) × (length word.now ≤ 32) }
    ensures written { Puts (line word.now ++ number_line (bytes "count=") count) lines.old lines.new }
    ensures short { lines.new.at ≤ lines.old.at + 86 }
{
    lines.put_line(word);
    lines.put_number_line(b"count=", count)
}
