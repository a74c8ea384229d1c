// What a line does to the record that is filled: key, then form, then range or list. A faulty line may leave anything in it, since the record
// of a refused text is thrown away. Assumes nothing.
ghost use Rattle.std.specs.Prelude.{◌≡◌};
ghost use Rattle.std.proofs.lemmas.List.Edits.{sets};
ghost use Rattle.task_record.specs.Layout.{at_budget};
ghost use Rattle.reader.specs.Grammar.{fault_at, told, budget_bytes, take_number, take_budget, take_list, take_due, take_line};
ghost use Rattle.reader.specs.Held.{went, take_value};
ghost use Rattle.reader.specs.declared.order.Due.{Due};

use crate::decimal::number;
use crate::due_line::{Holds, Value, value_of};
use crate::lists::{Gathered, Kind, read_list};
use crate::order::Due;
use crate::places::Field;
use crate::store::{cell_at, put, put_cells};
use task_record::layout::{AT_BUDGET, AT_VARIABLES, at_cost};
use task_record::refusal::Refusal;

// What may be wrong with a line: another key is due, or none; the form of its number or list; a number outside its range; a list against its rules.
#[derive(Clone, Copy, PartialEq, Eq)]
pub enum LineFault {
    Unexpected,
    Form,
    Range,
    List,
}

impl LineFault {
    // The refusal of line number `line`.
    pub(crate) fn at(self, line: u64) -> Refusal
        ensures { result ≡ fault_at self line }
    {
        match self {
            LineFault::Unexpected => Refusal::UnexpectedLine(line),
            LineFault::Form => Refusal::WrongForm(line),
            LineFault::Range => Refusal::OutOfRange(line),
            LineFault::List => Refusal::WrongList(line),
        }
    }
}

// A number from low to high goes to its cell.
#[tactic(auto, unfolding(crate::specs::Grammar::take_number))]
fn take_number(rec: &mut [u8], field: Field, n: Option<usize>) -> Result<(), LineFault>
    ensures { (due : Due) → take_number rec.old due field.low field.high field.at n ≡ went due result rec.new }
{
    let n = n.ok_or(LineFault::Form)?;
    match u8::try_from(n) {
        Ok(n) if field.low <= n && n <= field.high => {
            put(rec, field.at, n);
            Ok(())
        }
        _ => Err(LineFault::Range),
    }
}

// The budget, lowest byte first.
// Stays: `to_le_bytes` takes a number that fits 32 bits, which would be a premise here and of `store_budget`, and its law tells the bytes by
// `from_le_bytes`, as a sum: longer than these four stores.
pub(crate) fn put_budget(rec: &mut [u8], n: usize)
    ensures { rec.new ≡ sets rec.old at_budget (budget_bytes n) }
{
    put(rec, AT_BUDGET, (n % 256) as u8);
    put(rec, AT_BUDGET + 1, (n / 256 % 256) as u8);
    put(rec, AT_BUDGET + 2, (n / 65536 % 256) as u8);
    put(rec, AT_BUDGET + 3, (n / 16777216 % 256) as u8);
}

// A number up to 1,000,000 is the budget.
#[tactic(auto, unfolding(crate::specs::Grammar::take_budget))]
fn take_budget(rec: &mut [u8], n: Option<usize>) -> Result<(), LineFault>
    ensures { (due : Due) → take_budget rec.old due n ≡ went due result rec.new }
{
    let n = n.ok_or(LineFault::Form)?;
    if 1000000 < n {
        return Err(LineFault::Range);
    }
    put_budget(rec, n);
    Ok(())
}

// A list's cells go to an offset.
#[tactic(auto, unfolding(crate::specs::Grammar::take_list))]
fn take_list(rec: &mut [u8], kind: Kind, at: usize, list: &Gathered) -> Result<(), LineFault>
    ensures { (due : Due) → take_list rec.old due kind at list.now ≡ went due result rec.new }
{
    if !list.form {
        return Err(LineFault::Form);
    }
    if !list.list || !kind.is_whole(cell_at(rec, AT_VARIABLES), list.next) {
        return Err(LineFault::List);
    }
    put_cells(rec, at, &list.cells);
    Ok(())
}

fn take_value(rec: &mut [u8], value: Value<'_>) -> Result<(), LineFault>
    ensures { (due : Due) → take_value rec.old due value.entry ≡ went due result rec.new }
{
    match value.holds {
        Holds::Number(field) => take_number(rec, field, number(value.text)),
        Holds::Budget => take_budget(rec, number(value.text)),
        Holds::List(kind, at) => {
            let list = read_list(rec, kind, value.text);
            take_list(rec, kind, at, &list)
        }
    }
}

// What is due once the line is seen: a cost that is left out is 1, and then the line is the one after it.
fn due_at(rec: &mut [u8], due: Due, line: &[u8]) -> Due
    ensures { take_line rec.old due line.now ≡ take_due rec.new result line.now }
{
    let Due::Cost(m) = due else {
        return due;
    };
    if line.starts_with(b"cost=") {
        return due;
    }
    put(rec, at_cost(m), 1);
    Due::Outcomes(m)
}

// The line that comes.
pub(crate) fn take_line(rec: &mut [u8], due: Due, line: &[u8]) -> Result<Due, LineFault>
    ensures { take_line rec.old due line.now ≡ told result rec.new }
{
    let due = due_at(rec, due, line);
    let value = value_of(due, line)?;
    take_value(rec, value)?;
    Ok(due.next(rec))
}
