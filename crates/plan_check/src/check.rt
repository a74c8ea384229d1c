// The check of a plan on three lent slices: record, state and plan. It accepts all inputs, and only reads.
ghost use Rattle.std.specs.Prelude.{◌≡◌, ◌≤◌, length};
ghost use Rattle.planning.specs.PlanCheck.{check_plan, most_moves};
ghost use Rattle.task_record.specs.TaskOf.{values_of};
ghost use Rattle.plan_check.specs.Tower.{tower};
ghost use Rattle.plan_check.specs.Check.{answer_of, end_of, plan_check_of};
ghost use Rattle.plan_check.specs.ForC.{numbers_of, plan_by_lines};

use crate::cells::cells_at;
use crate::frames::Frame;
use crate::stack::Stack;
use crate::task::Task;
use task_record::refusal::Refusal;
use task_record::sound::SoundRecord;

// Cost and length of a strong plan.
#[derive(Clone, Copy, PartialEq, Eq)]
pub struct Passed {
    pub cost: u64,
    pub length: u64,
}

// The plan of the start ends at offset `end`.
// Stays: `as`, since an offset has no `From` into a word, and `try_from` would have a case that never comes.
#[tactic(auto, unfolding(crate::specs::Check::end_of, crate::specs::Check::answer_of, crate::specs::Check::refusal_of))]
fn ended(plan: &[u8], end: usize, cost: u32) -> Result<Passed, Refusal>
    ensures { result ≡ answer_of (end_of plan.now end cost) }
{
    if end < plan.len() {
        return Err(Refusal::TrailingBytes(end as u64));
    }
    Ok(Passed {
        cost: u64::from(cost),
        length: end as u64,
    })
}

// The plan from its first byte to its last, with at most `most` moves on a path: each byte plans for one state. After an action that is the state
// after its first outcome; after an arrival it is the state after the next outcome of the action that began last among those under way, each of
// which is a move of the path.
fn check_bytes(
    checked: &SoundRecord,
    plan: &[u8],
    start: [u8; 16],
    most: u16,
    frames: &mut [Frame],
) -> Result<Passed, Refusal>
    requires { (most ≤ length frames.old) × (most ≤ most_moves) }
    ensures { result ≡ answer_of (check_plan (tower checked.now) most (values_of checked.now start) plan.now) }
{
    let rec = checked.cells;
    let task = Task::of(checked);
    let mut stack = Stack::new(frames);
    let mut state = start;
    let mut depth = 0;
    let mut paid = 0;
    let mut worst = 0;
    for (at, byte) in plan.iter().enumerate() {
        let b = *byte;
        task.judge_byte(at, b, state, depth, most)?;
        let frame = if task.has_action(b) {
            Frame::begun(&task, b, state, depth, paid)
        } else {
            worst = worst.max(paid);
            match stack.pop() {
                Some(frame) => frame,
                None => return ended(plan, at + 1, worst),
            }
        };
        state = frame.next_state(rec);
        depth = frame.depth;
        paid = frame.paid;
        if frame.left != 1 {
            stack.push(frame.rest());
        }
    }
    Err(Refusal::UnfinishedPlan(plan.len() as u64))
}

// The same with N frames, for at most N moves on a path.
#[inline(never)]
fn check_within<const N: usize>(
    checked: &SoundRecord,
    plan: &[u8],
    start: [u8; 16],
) -> Result<Passed, Refusal>
    requires { N ≤ most_moves }
    ensures { result ≡ answer_of (check_plan (tower checked.now) N (values_of checked.now start) plan.now) }
{
    let mut frames = [Frame::unused(); N];
    check_bytes(checked, plan, start, N as u16, &mut frames)
}

// "the check, and with it demand 2, allows 255 moves". Most plans have at most 32 on a path, and to clear 255 frames takes as long as to check a
// short plan: so a plan is checked for 255 moves where 32 were too few.
fn check_from(checked: &SoundRecord, plan: &[u8], start: [u8; 16]) -> Result<Passed, Refusal>
    ensures { result ≡ answer_of (check_plan (tower checked.now) most_moves (values_of checked.now start) plan.now) }
{
    match check_within::<32>(checked, plan, start) {
        Ok(passed) => Ok(passed),
        Err(refusal) => {
            if refusal.numbers().0 == 17 {
                return check_within::<255>(checked, plan, start);
            }
            Err(refusal)
        }
    }
}

// Whether `plan` is a strong plan of at most 255 moves depth from `state` in the task that `rec` holds.
#[tactic(auto, unfolding(crate::specs::Check::plan_check_of))]
pub fn check_plan(rec: &[u8], state: &[u8], plan: &[u8]) -> Result<Passed, Refusal>
    ensures value { result ≡ plan_check_of rec.now state.now plan.now }
    ensures numbers { numbers_of result ≡ plan_by_lines rec.now state.now plan.now }
{
    let checked = SoundRecord::new(rec)?;
    checked.check_state(state)?;
    check_from(&checked, plan, cells_at(state, 0))
}
