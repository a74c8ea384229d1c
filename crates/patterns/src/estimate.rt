// Whether the values of a task can be read from lent tables: the refusals 7, 8 and 9.
ghost use Rattle.std.specs.Prelude.{◌≡◌};
ghost use Rattle.patterns.specs.Estimate.{judge_estimate, estimate_check};
ghost use Rattle.patterns.specs.Answers.{estimate_numbers, estimate_by_lines};

use crate::space::judge_tables;
use crate::verdict::first_conflict;
use task_record::refusal::Refusal;
use task_record::sound::SoundRecord;

#[tactic(auto, unfolding(crate::specs::Estimate::judge_estimate))]
pub(crate) fn judge_estimate(record: &SoundRecord, lent: usize) -> Result<(), Refusal>
    ensures { result ≡ judge_estimate record.now lent }
{
    judge_tables(record, lent)?;
    match first_conflict(record) {
        None => Ok(()),
        Some(found) => Err(Refusal::NotAdditive(found.action)),
    }
}

// Whether the patterns are additive and tables of `lent` entries can hold their tables. No entry of the product: the search asks it.
#[tactic(auto, using(crate::proofs::ByLines::estimate_told))]
pub fn check_estimate(rec: &[u8], lent: usize) -> Result<(), Refusal>
    ensures value { result ≡ estimate_check rec.now lent }
    ensures numbers { estimate_numbers result ≡ estimate_by_lines rec.now lent }
{
    let record = SoundRecord::new(rec)?;
    judge_estimate(&record, lent)
}
