// Program `records`: does with a stored record what its first argument names, and prints what `report` gives for it; without a known word how it
// is called. It ends with exit code 0 whatever it prints, refusals too; with 1 only where standard input or output fails. Input longer than a
// stored record is cut.
#![tactic(auto)]

use report::input::read_full;
use report::records::{OUT_SIZE, STORED_SIZE, job_of, report_job};
use std::env::Env;
use std::io;

// A word that is longer names no job.
const WORD_SIZE: usize = 16;

// Stays: arrays for all that the call is lent, since there is no heap.
fn main(rt: HostRuntime) -> io::Result<()> {
    let mut word = [0u8; WORD_SIZE];
    let mut stored = [0u8; STORED_SIZE];
    let mut out = [0u8; OUT_SIZE];
    let job = match rt.arg(1, &mut word) {
        Ok(n) => job_of(&word[..n]),
        Err(_) => None,
    };
    let n = match job {
        Some(_) => read_full(&mut rt.stdin(), &mut stored)?,
        None => 0,
    };
    let end = report_job(job, &stored[..n], &mut out);
    rt.write_all(&out[..end])
}
