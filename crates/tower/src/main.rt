// Program `tower`: reads a text from standard input and prints the lines that `report` gives for it. Input longer than 65,536 bytes is cut
// there. It ends with exit code 0 whatever it prints, refusals too; with 1 only where standard input or output fails.
#![tactic(auto)]

use report::input::read_full;
use report::text::report_text;
use std::io;

// Four bytes for each byte of the plan and 256 more: what `report_text` never passes.
const OUT_SIZE: usize = 262400;

// Stays: arrays for all that the call is lent, since there is no heap.
fn main(rt: HostRuntime) -> io::Result<()> {
    let mut input = [0u8; 65536];
    let mut plan = [0u8; 65536];
    let mut tables = [0u32; 16384];
    let mut out = [0u8; OUT_SIZE];
    let n = read_full(&mut rt.stdin(), &mut input)?;
    let end = report_text(&input[..n], &mut tables, &mut plan, &mut out);
    rt.write_all(&out[..end])
}
