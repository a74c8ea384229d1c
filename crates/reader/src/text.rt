// The entry: a text is read into a lent record of 9,528 bytes. Assumes nothing.
ghost use Rattle.std.specs.Prelude.{◌≡◌, ◌≤◌, length};
ghost use Rattle.task_record.specs.Layout.{record_size};
ghost use Rattle.reader.specs.Text.{lines_of};
ghost use Rattle.reader.specs.Grammar.{read_from, read_whole, whole_of, read_answer, read_leaves};
ghost use Rattle.reader.specs.Answers.{read_numbers, text_by_lines};

use crate::blank::{Record, clear_record};
use crate::draft::Draft;
use crate::grammar::take_line;
use crate::order::Due;
use crate::pieces::{LINE_BREAK, cut};
use crate::quick_text::is_good;
use crate::store::put_cells;
use task_record::layout::RECORD_SIZE;
use task_record::refusal::Refusal;

// The lines of a text, one after the other, into a record with nothing used.
fn read_lines(text: &[u8], rec: &mut [u8]) -> Result<(), Refusal>
    ensures { read_from 1 Due.Vars rec.old (lines_of text.now) ≡ whole_of result rec.new }
{
    let mut due = Due::Vars;
    let mut line: u64 = 1;
    let mut rest = text;
    // Stays: a loop, since `split` gives one more piece, an empty one, behind a text's last line break, and `split_inclusive` each line with its
    // break, which would have to go again.
    while !rest.is_empty() {
        let (first, after) = cut(rest, LINE_BREAK);
        due = take_line(rec, due, first).map_err(|fault| fault.at(line))?;
        line += 1;
        rest = after;
    }
    if due.is_end() {
        return Ok(());
    }
    Err(Refusal::UnexpectedLine(line))
}

// The same, from a blank record on. A function of its own when compiled, so that the quick pass keeps the registers.
#[inline(never)]
fn read_slowly(text: &[u8], local: &mut Record) -> Result<(), Refusal>
    ensures { read_whole text.now ≡ whole_of result local.new }
{
    clear_record(local);
    read_lines(text, local)
}

// Reads a text into a record: at once where every line is as most texts write it, else line by line from the start, which tells what is wrong. The
// record is filled apart, and copied out once the whole text is good, so a refusal leaves the lent one as found. It is copied in this function, where it
// was made: of two records that are both lent the library's copy is the C library's memmove, and the archive asks for memcpy and memset alone.
// Stays: `as` at the record's length, since an index has no `From` into a word, and `try_from` would have a case that never comes.
pub fn read_text(text: &[u8], record: &mut [u8]) -> Result<(), Refusal>
    ensures value { (result ≡ read_answer text.now «record».old) × («record».new ≡ read_leaves text.now «record».old) }
    ensures numbers { read_numbers result ≡ text_by_lines text.now «record».old }
{
    if record.len() < RECORD_SIZE {
        return Err(Refusal::ShortRecord(record.len() as u64));
    }
    // Stays: made here in place, since a function that gives it back copies it: the shortest text then takes 0.78 µs in place of 0.29.
    let mut draft = Draft {
        cells: [0; RECORD_SIZE],
    };
    draft.clear();
    if is_good(text, &mut draft) {
        put_cells(record, 0, &draft.cells);
        return Ok(());
    }
    let local = &mut draft.cells;
    read_slowly(text, local)?;
    put_cells(record, 0, local);
    Ok(())
}
