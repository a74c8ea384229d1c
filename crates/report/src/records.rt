// What program `records` writes: a stored record goes in, the record in today's form or the lines of a refusal come out.
ghost use Rattle.std.specs.Prelude.{◌≡◌, ◌+◌, ◌≤◌, length};
ghost use Rattle.report.specs.Records.{job_of, upgrade_written, job_written};
ghost use Rattle.report.specs.Writing.{Puts, overwritten};

use crate::answers::put_refusal;
use crate::lines::Lines;
use stored::upgrade::{FIRST_SIZE, upgrade};
use task_record::layout::RECORD_SIZE;

// Of what is read as many bytes as a stored record has, and of what is written never more than these.
pub const STORED_SIZE: usize = FIRST_SIZE;

pub const OUT_SIZE: usize = RECORD_SIZE;

// What the program is asked to do.
#[derive(Clone, Copy, PartialEq, Eq)]
pub enum Job {
    Upgrade,
}

#[tactic(auto, unfolding(crate::specs::Records::job_of, reader::specs::Bytes::bytes))]
pub fn job_of(word: &[u8]) -> Option<Job>
    ensures { result ≡ job_of word.now }
{
    if word == b"upgrade".as_slice() {
        Some(Job::Upgrade)
    } else {
        None
    }
}

// Stays: an array for the record, since there is no heap, and the lent buffer may be shorter.
fn put_upgraded(lines: &mut Lines<'_>, stored: &[u8])
    requires { lines.old.at ≡ 0 }
    ensures written { Puts (upgrade_written stored.now) lines.old lines.new }
    ensures short { lines.new.at ≤ 9528 }
{
    let mut rec = [0u8; RECORD_SIZE];
    match upgrade(stored, &mut rec) {
        Ok(()) => lines.put_word(&rec),
        Err(refusal) => put_refusal(lines, refusal.numbers()),
    }
}

fn put_job(lines: &mut Lines<'_>, job: Option<Job>, stored: &[u8])
    requires { lines.old.at ≡ 0 }
    ensures written { Puts (job_written job stored.now) lines.old lines.new }
    ensures short { lines.new.at ≤ 9528 }
{
    match job {
        Some(Job::Upgrade) => put_upgraded(lines, stored),
        None => lines.put_line(b"usage: records upgrade <old >new"),
    }
}

// Does the job with what was read, and puts what it gives into `out` as far as it reaches. Answers how many bytes that are.
pub fn report_job(job: Option<Job>, stored: &[u8], out: &mut [u8]) -> usize
    ensures { (result ≡ length (job_written job stored.now)) × (out.new ≡ overwritten (job_written job stored.now) out.old) × (result ≤ 9528) }
{
    let mut lines = Lines::new(out);
    put_job(&mut lines, job, stored);
    lines.len()
}
