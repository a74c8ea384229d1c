// One vector: the call that its first letter tells, on the record as it then is.
ghost use Rattle.std.specs.Prelude.{◌≤◌};

use crate::lists::{as_bytes, break_lines, number_at, numbers_of};
use crate::shown::{show_answer, show_costs, show_counts, show_first};
use planner::estimates::{planner_additive, planner_build_tables, planner_spread, planner_value};
use planner::plans::{planner_check_plan, planner_search};
use planner::records::planner_upgrade_record;
use planner::tasks::{planner_check_record, planner_check_state, planner_read_text};
use std::io;
use task_record::layout::{AT_COSTS, AT_PATTERNS, AT_START, RECORD_SIZE};

// A record and eight bytes more.
const RECORD_ROOM: usize = RECORD_SIZE + 8;

// A row and eight counts more.
const ROW_ROOM: usize = 1044235;

// The record that was read last, and how many bytes of it are lent.
// Stays: an array beside a number, since a vector of the library forgets what a shorter `lend` hides, and the next `lend` shows it again.
#[derive(Drop)]
struct Record {
    cells: [u8; RECORD_ROOM],
    lent: usize,
}

impl Record {
    fn as_slice(&self) -> &[u8] {
        &self.cells[..self.lent.min(RECORD_ROOM)]
    }

    fn as_mut_slice(&mut self) -> &mut [u8] {
        let n = self.lent.min(RECORD_ROOM);
        &mut self.cells[..n]
    }
}

// What the calls are lent from line to line, but for the bytes of states and plans.
#[derive(Drop)]
pub(crate) struct Lent {
    rec: Record,
    tables: [u32; 16384],
    first: usize,
}

impl Lent {
    pub(crate) fn new() -> Lent {
        Lent {
            rec: Record {
                cells: [0; RECORD_ROOM],
                lent: RECORD_ROOM,
            },
            tables: [0; 16384],
            first: 0,
        }
    }

    // The first number of a list; of an empty one that of the last list which was not empty.
    fn first_of(&self, numbers: &[usize]) -> usize {
        numbers.first().copied().unwrap_or(self.first)
    }

    fn read(&mut self, out: &impl Print, text: &mut [u8]) -> io::Result<()> {
        break_lines(text);
        show_answer(out, planner_read_text(text, self.rec.as_mut_slice()))
    }

    // Offsets and values by turns.
    // Stays: what a line is written to, its numbers and the room for its bytes are handed to each call side by side, as each has need of them.
    // Stays: `as` at the low byte of a number, since a number has no `From` into a byte, and `try_from` would have a case that never comes.
    fn cells(&mut self, out: &impl Print, numbers: &[usize]) -> io::Result<()> {
        let rec = self.rec.as_mut_slice();
        for pair in numbers.chunks_exact(2) {
            if let Some(cell) = rec.get_mut(pair[0]) {
                *cell = (pair[1] % 256) as u8;
            }
        }
        show_answer(out, planner_check_record(rec))
    }

    fn state(&mut self, out: &impl Print, numbers: &[usize], room: &mut [u8]) -> io::Result<()> {
        let state = as_bytes(numbers, room);
        show_answer(out, planner_check_state(self.rec.as_slice(), state))
    }

    fn build(&mut self, out: &impl Print, numbers: &[usize]) -> io::Result<()> {
        let rec = self.rec.as_slice();
        let entries = number_at(numbers, 0).min(self.tables.len());
        let all = &mut self.tables[..];
        let tables = &mut all[..entries];
        show_answer(out, planner_build_tables(rec, tables))?;
        show_first(out, "tables", tables)
    }

    // Into a row of these counts.
    // Stays: `as`, since an index has no `From` into a word.
    fn spread_into(
        &mut self,
        out: &impl Print,
        numbers: &[usize],
        counts: &mut [u32],
    ) -> io::Result<()> {
        let rec = self.rec.as_slice();
        let pattern = number_at(numbers, 0) as u64;
        let entries = number_at(numbers, 1).min(self.tables.len());
        let length = number_at(numbers, 2).min(counts.len());
        let all = &mut self.tables[..];
        let tables = &mut all[..entries];
        let row = &mut counts[..length];
        show_answer(out, planner_spread(rec, pattern, tables, row))?;
        show_first(out, "tables", tables)?;
        show_counts(out, row)
    }

    // Into a row that holds 7 where nothing is counted.
    // Stays: an array for the row, since there is no heap; and its length as a parameter: a proof that sees the number goes through a million counts.
    // Compiled into no other function, which would make room for the row at every line.
    #[inline(never)]
    fn spread<const N: usize>(&mut self, out: &impl Print, numbers: &[usize]) -> io::Result<()>
        requires { N ≤ 2000000 }
    {
        let mut counts = [7u32; N];
        self.spread_into(out, numbers, &mut counts)
    }

    // The record as one of the first form, into a target of bytes 7: the answer, and the target from its costs on.
    fn upgrade(&mut self, out: &impl Print, numbers: &[usize]) -> io::Result<()> {
        let mut target = [7u8; RECORD_ROOM];
        let rec = self.rec.as_slice();
        let old = number_at(numbers, 0).min(rec.len());
        let length = number_at(numbers, 1).min(RECORD_ROOM);
        show_answer(
            out,
            planner_upgrade_record(&rec[..old], &mut target[..length]),
        )?;
        show_costs(out, &target[AT_COSTS..])
    }

    fn value(&mut self, out: &impl Print, numbers: &[usize], room: &mut [u8]) -> io::Result<()> {
        let entries = self.first_of(numbers).min(self.tables.len());
        let from = numbers.len().min(1);
        let state = as_bytes(&numbers[from..], room);
        let tables = &self.tables[..entries];
        show_answer(out, planner_value(self.rec.as_slice(), state, tables))
    }

    fn search(&mut self, out: &impl Print, numbers: &[usize], room: &mut [u8]) -> io::Result<()> {
        let entries = number_at(numbers, 0).min(self.tables.len());
        let bytes = number_at(numbers, 1).min(room.len());
        let rec = self.rec.as_slice();
        let all = &mut self.tables[..];
        let tables = &mut all[..entries];
        let plan = &mut room[..bytes];
        show_answer(out, planner_search(rec, tables, plan))?;
        show_first(out, "plan", plan)
    }

    fn check_plan(
        &mut self,
        out: &impl Print,
        numbers: &[usize],
        room: &mut [u8],
    ) -> io::Result<()> {
        let plan = as_bytes(numbers, room);
        let rec = self.rec.as_slice();
        if rec.len() < AT_PATTERNS {
            return Ok(());
        }
        show_answer(
            out,
            planner_check_plan(rec, &rec[AT_START..AT_PATTERNS], plan),
        )
    }

    fn call(
        &mut self,
        out: &impl Print,
        letter: u8,
        numbers: &[usize],
        room: &mut [u8],
    ) -> io::Result<()> {
        match letter {
            b'c' => self.cells(out, numbers),
            b's' => self.state(out, numbers, room),
            b'b' => self.build(out, numbers),
            b'f' => self.search(out, numbers, room),
            b'h' => self.spread::<ROW_ROOM>(out, numbers),
            b'u' => self.upgrade(out, numbers),
            b'v' => self.value(out, numbers, room),
            b'p' => self.check_plan(out, numbers, room),
            _ => return Ok(()),
        }?;
        self.first = self.first_of(numbers);
        Ok(())
    }

    pub(crate) fn run_line(
        &mut self,
        out: &impl Print,
        line: &mut [u8],
        room: &mut [u8],
    ) -> io::Result<()> {
        let Some(&letter) = line.first() else {
            return Ok(());
        };
        let name = line.iter().position(|&b| b == b':').unwrap_or(line.len());
        let list = (name + 2).min(line.len());
        if letter == b'l' {
            let numbers = numbers_of(&line[list..], self.first);
            self.rec.lent = number_at(&numbers, 0);
            self.first = self.first_of(&numbers);
            return Ok(());
        }
        out.write_all(&line[..name])?;
        match letter {
            b'r' => self.read(out, &mut line[list..])?,
            b'a' => show_answer(out, planner_additive(self.rec.as_slice()))?,
            _ => {
                let numbers = numbers_of(&line[list..], self.first);
                self.call(out, letter, &numbers, room)?
            }
        }
        println!(out)
    }
}
