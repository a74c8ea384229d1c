// Examining a state that opens and examining an action's outcomes call each other, and the depth left falls by the action's weight. What is decided
// without examining another state is a leaf beside them (`look`), asked before the call. The count of examinations is carried in every ending, and every
// result is remembered. Asks for what `Examinable` names, of a state that opens for `Openable`, and gives what `Examines` names.
// Stays: `Examinable` at three functions: it speaks of the memory, which every call changes, so that a type of it would be made anew at every call.
ghost use Rattle.std.specs.Prelude.{◌≡◌, ◌<◌, ◌≤◌};
ghost use Rattle.packed_task.specs.Packed.{action_weight};
ghost use Rattle.planning.specs.Table.{infinite_entry};
ghost use Rattle.search.specs.Examination.{plan_size, plan_head, plans_size, plans_head};
ghost use Rattle.search.specs.Value.{Estimated};
ghost use Rattle.search.specs.Packed.{instance_opening, instance_examination, instance_outcomes, instance_value};
ghost use Rattle.search.specs.Cycle.{Examinable, Openable, Examines, Glanced};

use crate::buffer::ARRIVED;
use crate::carried::{rest_of, sum_with};
use crate::depth::left_after;
use crate::instance::Instance;
use crate::memory::{Slot, note, recall};
use packed_task::applying::applying;
use packed_task::compiled_task::{is_goal, outcome_count, successor};
use packed_task::numbers::{ActionNumber, OutcomeNumber};
use packed_task::sets::Members;

// How an examination begins.
#[derive(Clone, Copy)]
pub(crate) enum Opening {
    Spent,
    Arrived,
    Cut,
    Expand,
}

// How an examination ends, with the count; a success also with the size of its plan and the plan's first byte.
#[derive(Clone, Copy)]
pub(crate) enum Ending {
    Stopped(u32),
    Failed(u32),
    Succeeded(u32, u32, u8),
}

// A state to examine: its value, the depth left and the count so far.
// Stays: an infinite value is a number from `INFINITE` on: entries are added as they stand in the tables, and one test against the depth serves both.
#[derive(Clone, Copy)]
pub(crate) struct Visit {
    pub s: u64,
    pub value: u64,
    pub d: u32,
    pub count: u32,
}

// What is decided at once about a state of a value: with no depth left it is a goal or cut.
fn open_state(instance: &Instance, v: Visit) -> Opening
    requires { (v.d < infinite_entry) × (Estimated (instance_value instance.now v.s) v.value) }
    ensures { result ≡ instance_opening instance.now v.d v.s v.count }
{
    if v.count == instance.constants.budget {
        return Opening::Spent;
    }
    if is_goal(instance.task, v.s) {
        return Opening::Arrived;
    }
    if v.d == 0 {
        return Opening::Cut;
    }
    if v.value <= u64::from(v.d) {
        return Opening::Expand;
    }
    Opening::Cut
}

// An action's number as a plan's byte.
// Stays: `as`: an index has no `From` into a byte, and `try_from` has a case that never happens with 64 actions.
fn number_of(m: usize) -> u8
    requires { m < 64 }
    ensures { result ≡ m }
{
    m as u8
}

// What is known of a state without examining another: it is spent, a goal or cut, or remembered. Else it opens.
fn look(instance: &Instance, memory: &[Slot], v: Visit) -> Option<Ending>
    requires { Examinable instance.now memory.now v.s v.value v.d v.count }
    ensures { Glanced instance.now v.d v.s v.count memory.now result }
{
    match open_state(instance, v) {
        Opening::Spent => Some(Ending::Stopped(v.count)),
        Opening::Cut => Some(Ending::Failed(v.count + 1)),
        Opening::Arrived => Some(Ending::Succeeded(v.count + 1, 1, ARRIVED)),
        Opening::Expand => {
            let known = recall(memory, v.s, v.d, instance.constants.budget - v.count)?;
            if known.size == 0 {
                return Some(Ending::Failed(v.count + known.made));
            }
            Some(Ending::Succeeded(v.count + known.made, known.size, known.first))
        }
    }
}

// Examines a state that opens: the actions that apply and weigh no more than the depth are tried by number, and the first that succeeds wins.
// Stays: `as` of a depth: an index has no `From` of it. The remainder is the depth itself, which is below 256, and spares the test of a place.
#[cycle(examine_outcomes)]
fn examine(instance: &Instance, memory: &mut [Slot], v: Visit) -> Ending
    requires { Openable instance.now memory.old v.s v.value v.d v.count }
    ensures { Examines plan_size plan_head (instance_examination instance.now) instance.now.constants.budget (instance_examination instance.now v.d v.s v.count) v.count memory.new result }
{
    let mut c = v.count + 1;
    let set = applying(instance.sets, v.s, (instance.constants.variables + 1) / 2)
        & instance.affordable[v.d as usize % 256];
    for m in Members(set) {
        match outcomes(instance, memory, m, Visit { count: c, ..v }) {
            Ending::Stopped(e) => {
                return Ending::Stopped(e);
            }
            Ending::Failed(made) => {
                c = made;
            }
            Ending::Succeeded(e, n, b) => {
                let first = number_of(m);
                note(memory, v.s, v.d, e - v.count, n + 1, first);
                return Ending::Succeeded(e, n + 1, first);
            }
        }
    }
    note(memory, v.s, v.d, c - v.count, 0, 0);
    Ending::Failed(c)
}

// Examines the states after an action's outcomes, in order, up to the first that does not succeed, with the depth that the action leaves. Only a
// state that opens is a call: most do not.
// Stays: the endings are taken apart in each arm: a joined one goes through memory, and a search takes 1.03 to 1.15 of the instructions. One visit serves
// the look and the call: a copy for the call, so that `look` reads the other from registers, takes 0.95 to 0.98 of the instructions, and 1.03 to 1.08 of
// the time.
#[cycle(examine_outcomes)]
fn outcomes(instance: &Instance, memory: &mut [Slot], m: usize, v: Visit) -> Ending
    requires { (Examinable instance.now memory.old v.s v.value v.d v.count) × (m < instance.now.constants.actions) × (v.value < 256) × (action_weight instance.now.task.now m ≤ v.d) }
    ensures { Examines plans_size plans_head (instance_examination instance.now) instance.now.constants.budget (instance_outcomes instance.now v.d v.s m v.count) v.count memory.new result }
{
    let action = ActionNumber { number: m };
    let left = left_after(instance.task, action, v.d);
    let rest = rest_of(instance, v.s, m, v.value);
    let mut c = v.count;
    let mut n = 0u32;
    for k in 0..outcome_count(instance.task, action) {
        let s = successor(instance.task, v.s, action, OutcomeNumber { number: k });
        let w = Visit {
            s,
            value: sum_with(instance, s, m, rest),
            d: left,
            count: c,
        };
        match look(instance, memory, w) {
            Some(Ending::Stopped(e)) => return Ending::Stopped(e),
            Some(Ending::Failed(e)) => return Ending::Failed(e),
            Some(Ending::Succeeded(e, size, _)) => {
                c = e;
                n += size;
            }
            None => match examine(instance, memory, w) {
                Ending::Stopped(e) => return Ending::Stopped(e),
                Ending::Failed(e) => return Ending::Failed(e),
                Ending::Succeeded(e, size, _) => {
                    c = e;
                    n += size;
                }
            },
        }
    }
    Ending::Succeeded(c, n, 0)
}

// Examines any state, for a round and for the writer: what the leaf decides, or the examination of a state that opens.
pub(crate) fn examine_any(instance: &Instance, memory: &mut [Slot], v: Visit) -> Ending
    requires { Examinable instance.now memory.old v.s v.value v.d v.count }
    ensures { Examines plan_size plan_head (instance_examination instance.now) instance.now.constants.budget (instance_examination instance.now v.d v.s v.count) v.count memory.new result }
{
    match look(instance, memory, v) {
        Some(seen) => seen,
        None => examine(instance, memory, v),
    }
}
