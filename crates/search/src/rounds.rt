// Rounds of examinations from a state, one more depth each, up to the limit; then the plan that was found is written and the buffer
// is cleared behind it. The rounds begin with a small memory; where they outgrow it, they go on with a larger one, which begins empty.
// Asks for a limit whose depths fit the memory.
// Stays: `as` of a number of 32 bits into a length and of a value into a depth: neither has a `From`, and `try_from` has a case that never happens.
// `Startable` at three functions: it is a fact about an instance and a visit together, and a type of both would be made anew wherever the depth
// or the count changes. The plan's buffer beside an instance and a visit: a struct that lends it on says in each contract that it is the same one before
// and after, which is longer.
ghost use Rattle.std.specs.Prelude.{◌≡◌, ◌<◌, ◌≤◌, length};
ghost use Rattle.planning.specs.Search as planning;
ghost use Rattle.search.specs.Memory.{Remembers};
ghost use Rattle.search.specs.Packed.{instance_examination};
ghost use Rattle.search.specs.Answer.{Begun, FoundBy, Startable, Replies, Replied, instance_rounds, instance_search};

use crate::buffer::clear;
use crate::entry::SearchAnswer;
use crate::estimate::value_of;
use crate::examine::{Ending, Visit, examine_any};
use crate::instance::Instance;
use crate::memory::{EMPTY, Slot, is_outgrown};
use crate::write::write_found;
use task_record::refusal::Refusal;

// The slots of the small memory and of the large one, and how many examinations the rounds may have made when another begins with the small
// one, however crowded it is: as many as it has slots.
const SMALL: usize = 1024;

const LARGE: usize = 16384;

const MOST: u32 = 1024;

// Rounds that are not finished: the next round and the count.
#[derive(Clone, Copy)]
pub(crate) struct Unfinished {
    pub round: u32,
    pub count: u32,
}

// A plan that the buffer is too short for: the count, and the bytes that it needs.
#[derive(Clone, Copy)]
pub(crate) struct TooLong {
    pub count: u32,
    pub bytes: u32,
}

impl From<TooLong> for Refusal {
    ghost use Rattle.std.specs.Prelude.{◌≡◌};
    ghost use Rattle.task_record.specs.declared.refusal.Refusal.TheVariants.{ShortPlan};

    ghost from_gives = { λ e r. r ≡ ShortPlan e.bytes };

    fn from(too_long: TooLong) -> Refusal {
        Refusal::ShortPlan(u64::from(too_long.bytes))
    }
}

// The answer of a plan that was found with a visit's depth and count, of so many bytes.
fn found_with(v: Visit, bytes: u32) -> SearchAnswer
    ensures { result ≡ SearchAnswer.Found v.d v.count bytes }
{
    SearchAnswer::Found(u64::from(v.d), u64::from(v.count), u64::from(bytes))
}

// The plan of n bytes that a visit's depth has found with its count: written, if the buffer is long enough.
fn answer_found(
    instance: &Instance,
    memory: &mut [Slot],
    plan: &mut [u8],
    v: Visit,
    n: u32,
) -> Result<SearchAnswer, TooLong>
    requires { (Remembers (instance_examination instance.now) instance.now.constants.budget memory.old) × (v.d < 256) × ((x : planning.Answer) × (FoundBy instance.now v.s x v.d v.count n)) }
    ensures { (x : planning.Answer) → FoundBy instance.now v.s x v.d v.count n → Replied (length plan.old) x plan.new result }
{
    let bytes = n as usize;
    if plan.len() < bytes {
        clear(plan);
        return Err(TooLong {
            count: v.count,
            bytes: n,
        });
    }
    write_found(instance, memory, plan, v.s, v.d);
    clear(&mut plan[bytes..]);
    Ok(found_with(v, n))
}

// The rounds from a visit's depth and count up to the limit, as long as the memory is not outgrown, and the buffer as their answer wants it.
fn deepen(
    instance: &Instance,
    memory: &mut [Slot],
    plan: &mut [u8],
    v: Visit,
    most: u32,
) -> Result<Result<SearchAnswer, TooLong>, Unfinished>
    requires { Begun instance.now memory.old v.s v.value v.d v.count }
    ensures { Replies instance.now v.s (instance_rounds instance.now v.s v.d v.count) most (length plan.old) plan.new result }
{
    let mut c = v.count;
    for d in v.d..instance.constants.limit + 1 {
        if is_outgrown(memory, most, c) {
            return Err(Unfinished { round: d, count: c });
        }
        match examine_any(instance, memory, Visit { d, count: c, ..v }) {
            Ending::Stopped(e) => {
                clear(plan);
                return Ok(Ok(SearchAnswer::Spent(u64::from(d), u64::from(e))));
            }
            Ending::Failed(e) => {
                c = e;
            }
            Ending::Succeeded(e, n, _) => {
                let w = Visit { d, count: e, ..v };
                return Ok(answer_found(instance, memory, plan, w, n));
            }
        }
    }
    clear(plan);
    Ok(Ok(SearchAnswer::Over(u64::from(c))))
}

// The rounds with a memory of so many slots.
fn run_with<const SLOTS: usize>(
    instance: &Instance,
    plan: &mut [u8],
    v: Visit,
    most: u32,
) -> Result<Result<SearchAnswer, TooLong>, Unfinished>
    requires { (1 ≤ SLOTS) × (SLOTS ≤ 16384) × Startable instance.now v.s v.value v.d v.count }
    ensures { Replies instance.now v.s (instance_rounds instance.now v.s v.d v.count) most (length plan.old) plan.new result }
{
    let mut memory = [EMPTY; SLOTS];
    deepen(instance, &mut memory, plan, v, most)
}

// The rounds with the large memory. They may make as many examinations as any budget has, so that they are never unfinished.
fn run_large(instance: &Instance, plan: &mut [u8], v: Visit) -> Result<SearchAnswer, TooLong>
    requires { Startable instance.now v.s v.value v.d v.count }
    ensures { Replied (length plan.old) (instance_rounds instance.now v.s v.d v.count) plan.new result }
{
    match run_with::<LARGE>(instance, plan, v, 1000000) {
        Ok(answer) => answer,
        Err(Unfinished { round, count }) => Ok(SearchAnswer::Spent(
            u64::from(round),
            u64::from(count),
        )),
    }
}

// The rounds with the small memory as long as it will do, then with the large one, which the count tells. It calls itself for that: a function makes
// room for all its arrays where it begins, those of functions compiled into it among them, and one with a large array is not compiled into one that
// calls itself. So a short search touches no page of the large memory, and the large one is made when the arrays of the build are gone.
fn run_from(instance: &Instance, plan: &mut [u8], v: Visit) -> Result<SearchAnswer, TooLong>
    requires { Startable instance.now v.s v.value v.d v.count }
    ensures { Replied (length plan.old) (instance_rounds instance.now v.s v.d v.count) plan.new result }
{
    if v.count > MOST {
        return run_large(instance, plan, v);
    }
    match run_with::<SMALL>(instance, plan, v, MOST) {
        Ok(answer) => answer,
        Err(Unfinished { round, count }) => {
            let next = Visit {
                d: round,
                count,
                ..v
            };
            run_from(instance, plan, next)
        }
    }
}

// The search by rounds, from the value of the state on.
pub(crate) fn run_rounds(
    instance: &Instance,
    plan: &mut [u8],
    s: u64,
) -> Result<SearchAnswer, TooLong>
    requires { instance.now.constants.limit < 256 }
    ensures { Replied (length plan.old) (instance_search instance.now s) plan.new result }
{
    match value_of(instance, s) {
        None => {
            clear(plan);
            Ok(SearchAnswer::None(0))
        }
        Some(value) => {
            if u64::from(instance.constants.limit) < value {
                clear(plan);
                return Ok(SearchAnswer::Over(0));
            }
            let v = Visit {
                s,
                value,
                d: value as u32,
                count: 0,
            };
            run_from(instance, plan, v)
        }
    }
}
