// What is written of an answer and of the slices.
use planner::answer::PlannerAnswer;
use std::fmt::Display;
use std::io;

// How many entries or bytes of a slice are written.
const SHOWN: usize = 10;

// The place of the last count of a row, and how many are written from there on.
const LAST: usize = 1044226;

const LAST_SHOWN: usize = 4;

pub(crate) fn show_answer(out: &impl Print, a: PlannerAnswer) -> io::Result<()> {
    print!(out;
        ": number={} kind={} first={} second={} third={}",
        a.number, a.kind, a.first, a.second, a.third
    )
}

// Some numbers of a slice, each with a comma after it.
fn show_some<T: Display>(
    out: &impl Print,
    name: &str,
    list: &[T],
    from: usize,
    count: usize,
) -> io::Result<()> {
    print!(out; " {name}=")?;
    for x in list.iter().skip(from).take(count) {
        print!(out; "{x},")?;
    }
    Ok(())
}

pub(crate) fn show_first<T: Display>(out: &impl Print, name: &str, list: &[T]) -> io::Result<()> {
    show_some(out, name, list, 0, SHOWN)
}

// The first counts of a row, and those from the last one on, that of infinity.
pub(crate) fn show_counts(out: &impl Print, row: &[u32]) -> io::Result<()> {
    show_first(out, "row", row)?;
    show_some(out, "last", row, LAST, LAST_SHOWN)
}

// The first costs of a record, and what stands behind the last.
pub(crate) fn show_costs(out: &impl Print, costs: &[u8]) -> io::Result<()> {
    show_first(out, "costs", costs)?;
    show_some(out, "behind", costs, 64, LAST_SHOWN)
}
