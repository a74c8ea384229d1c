// Runs the vectors that stand on standard input, a line each, and writes for each its name and what the call answered. A line is
// `call name: arguments`; the first letter tells the call. The record that was read last is what the other calls are lent.
//
//   read NAME: TEXT            / for a line break
//   lend NAME: LENGTH          the bytes of the record that every call is lent from here on
//   cells NAME: O,V,..         cell O of the record holds V from here on; then the check of the record
//   state NAME: BYTES          the check of a state
//   build NAME: N              the tables, with N entries lent; writes them too
//   how NAME: P,N,L            the spread of pattern P, with N entries and a row of L counts lent; writes both
//   additive NAME:             the verdict
//   value NAME: N,BYTES        the value of a state, from the first N table entries
//   find NAME: N,L             the search, with N entries and L bytes of plan lent; writes the buffer's first bytes too
//   plan NAME: BYTES           the check of a plan, from the record's start
//   upgrade NAME: N,L          the record, N bytes of it, as one of the first form, lengthened into L bytes; writes the target from its costs on
#![tactic(auto)]

mod calls;
mod lists;
mod shown;

use crate::calls::Lent;
use report::input::read_full;
use std::io;

// Stays: arrays for the input and for bytes, since there is no heap.
fn main(rt: HostRuntime) -> io::Result<()> {
    let mut input = [0u8; 65536];
    let n = read_full(&mut rt.stdin(), &mut input)?;
    let mut lent = Lent::new();
    let mut room = [0u8; 65536];
    for line in input[..n].split_mut(|&b| b == b'\n') {
        lent.run_line(&rt, line, &mut room)?;
    }
    Ok(())
}
