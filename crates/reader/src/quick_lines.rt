// Good lines at the front of a text, their cells written in place. Each function answers what stands behind its line, or nothing where it does not
// know the line for good; then the record may hold anything. Assumes room for the cells.
ghost use Rattle.std.specs.Prelude.{◌≡◌, true, false, ◌+◌, ◌<◌, ◌≤◌, ◌++◌, length, get_or, IfSome};
ghost use Rattle.task_record.specs.Layout.{at_variables, record_size};
ghost use Rattle.reader.specs.Lists.{is_values};
ghost use Rattle.reader.specs.Quick.{ListAt, ListLine, NumberLine};

use crate::draft::Draft;
use crate::lists::Kind;
use crate::pieces::{COMMA, LINE_BREAK};
use crate::places::{Field, Row};
use crate::quick_items::{quick_item, short_number};

// In a good text at least so many bytes stand behind the key of any line but the last: those of the shortest value and of the last line.
const VALUE_ROOM: usize = 7;

// And so many from the place of any item of a list on.
const ITEM_ROOM: usize = 6;

// What stands behind a key.
fn behind<'a>(s: &'a [u8], key: &[u8]) -> Option<&'a [u8]>
    ensures { IfSome result (λ e. (s.now ≡ key.now ++ e.now) × (7 ≤ length e.now)) }
{
    if s.len().saturating_sub(key.len()) < VALUE_ROOM {
        return None;
    }
    s.strip_prefix(key)
}

// Whether an empty list stands there.
fn is_empty(s: &[u8], kind: Kind) -> bool
    ensures { result ≡ true → (0 < length s.now) × (get_or s.now 0 0 ≡ 10) × (is_values kind ≡ false) }
{
    s.first() == Some(&LINE_BREAK) && !kind.is_values()
}

// A list up to the end of its line.
// Stays: `as` at a value, since an index has no `From` into a byte, and `try_from` would have a case that never comes.
#[inline(always)]
fn quick_list<'a>(s: &'a [u8], rec: &mut Draft, kind: Kind, row: Row) -> Option<&'a [u8]>
    ensures { IfSome result (λ e. ListAt s.now kind rec.old row.at rec.new e.now) }
{
    let n = rec.variables();
    rec.fill_row(row, kind.unnamed());
    if is_empty(s, kind) {
        return Some(&s[1..]);
    }
    let mut rest = s;
    let mut next = 0;
    // Stays: a loop, since `split` at commas would run on past the line's end, and would not say what stands behind it.
    while rest.len() >= ITEM_ROOM {
        let item = quick_item(rest, kind, next)?;
        let v = item.read.variable;
        let x = item.read.value;
        let after = item.rest;
        if !rec.allows(next, v, x) {
            return None;
        }
        let c = after[0];
        rec.store(row.at + v, x as u8);
        if c == LINE_BREAK {
            if kind.is_whole(n, v + 1) {
                return Some(&after[1..]);
            }
            return None;
        }
        if c != COMMA {
            return None;
        }
        next = v + 1;
        rest = &after[1..];
    }
    None
}

// A line with a list. Compiled in place wherever it is called: there its key and kind are known, and what is left of the text stays in registers.
#[inline(always)]
pub(crate) fn quick_list_line<'a>(
    s: &'a [u8],
    rec: &mut Draft,
    key: &[u8],
    kind: Kind,
    row: Row,
) -> Option<&'a [u8]>
    ensures { IfSome result (λ e. ListLine s.now key.now kind rec.old row.at rec.new e.now) }
{
    let value = behind(s, key)?;
    quick_list(value, rec, kind, row)
}

// A line with a number.
pub(crate) fn quick_number_line<'a>(
    s: &'a [u8],
    rec: &mut Draft,
    key: &[u8],
    field: Field,
) -> Option<&'a [u8]>
    requires { (field.at < record_size) × (field.at ≡ at_variables → field.high ≤ 16) }
    ensures { IfSome result (λ e. NumberLine s.now key.now field.low field.high rec.old field.at rec.new e.now) }
{
    let value = behind(s, key)?;
    let number = short_number(value)?;
    let x = number.read;
    let rest = number.rest;
    if rest[0] != LINE_BREAK {
        return None;
    }
    if x < field.low || field.high < x {
        return None;
    }
    rec.store(field.at, x);
    Some(&rest[1..])
}
