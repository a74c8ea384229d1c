// Stored records, for C.
ghost use Rattle.std.specs.Prelude.{◌≡◌, length};
ghost use Rattle.stored.specs.Upgrade.{upgrade_answer, upgrade_leaves};
ghost use Rattle.stored.specs.Answers.{upgrade_numbers};
ghost use Rattle.plan_check.specs.ForC.{five_numbers};

use planner::answer::PlannerAnswer;
use planner::records;

#[unsafe(no_mangle)]
pub extern "C" fn planner_upgrade_record(old: &[u8], rec: &mut [u8]) -> PlannerAnswer
    ensures { (result ≡ five_numbers (upgrade_numbers (upgrade_answer old.now (length rec.old)))) × (rec.new ≡ upgrade_leaves old.now rec.old) }
{
    records::planner_upgrade_record(old, rec)
}
