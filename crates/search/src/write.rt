// Writing the plan that an examination found: its first byte, then the plans of the action's outcomes, each where the one before it ends.
// The action is what the state's slot says, and no value is carried; where it has no slot, the state is examined again. A plan that stands in the buffer already is
// copied. Asks for a state that succeeds from the count 0 with a plan that fits the buffer. Argued, not proved: the last round examined the states
// on one level of the plan one after the other, so the writer examines on each level no more than that round did, in all at most (depth + 1) times that.
ghost use Rattle.std.specs.Prelude.{◌≡◌, ℕ, ◌≤◌, length};
ghost use Rattle.planning.specs.Plan.{Plan, encode};
ghost use Rattle.planning.specs.Search.{succeeded};
ghost use Rattle.search.specs.Buffer.{Holds};
ghost use Rattle.search.specs.Examination.{plan_size};
ghost use Rattle.search.specs.Packed.{instance_examination};
ghost use Rattle.search.specs.Written.{Names, Succeeding, Starts, Writable};

use crate::buffer::{ARRIVED, put};
use crate::depth::left_after;
use crate::estimate::{INFINITE, value_of};
use crate::examine::{Ending, Visit, examine_any};
use crate::instance::Instance;
use crate::memory::{EMPTY, Slot, recall};
use crate::written::{find_passage, note_passage};
use packed_task::compiled_task::{is_goal, outcome_count, successor};
use packed_task::numbers::{ActionNumber, OutcomeNumber};

// How a plan begins: the number of its bytes, and the first of them.
#[derive(Clone, Copy)]
struct Start {
    size: u32,
    first: u8,
}

// The action that a plan's first byte names, none for a goal's.
fn action_of(b: u8) -> Option<usize>
    ensures { Names b result }
{
    if b == ARRIVED {
        return None;
    }
    Some(usize::from(b))
}

// The size and the first byte of the plan of a state that succeeds: a goal's, what the state's slot says, or else what examining it again answers.
fn start_of(instance: &Instance, memory: &mut [Slot], s: u64, d: u32) -> Start
    requires { Succeeding instance.now memory.old s d }
    ensures { Starts (instance_examination instance.now) instance.now.constants.budget d s memory.new result.size result.first }
{
    if is_goal(instance.task, s) {
        return Start {
            size: 1,
            first: ARRIVED,
        };
    }
    if let Some(known) = recall(memory, s, d, instance.constants.budget) {
        return Start {
            size: known.size,
            first: known.first,
        };
    }
    let v = Visit {
        s,
        value: value_of(instance, s).unwrap_or(INFINITE),
        d,
        count: 0,
    };
    match examine_any(instance, memory, v) {
        Ending::Succeeded(_, size, first) => Start { size, first },
        Ending::Stopped(_) => Start { size: 0, first: 0 },
        Ending::Failed(_) => Start { size: 0, first: 0 },
    }
}

// A plan that is being written: the buffer, the memory of results, and the slots that say which plans stand in the buffer.
#[derive(Drop)]
pub(crate) struct Writer<'a> {
    pub(crate) instance: &'a Instance<'a>,
    pub(crate) memory: &'a mut [Slot],
    pub(crate) written: &'a mut [Slot],
    pub(crate) plan: &'a mut [u8],
}

impl<'a> Writer<'a> {
    ghost use Rattle.search.specs.Writer.{Goes};

    // Writes the plan of a state that succeeds, at `at`, and answers the place after it.
    fn write_plan(&mut self, s: u64, d: u32, at: usize) -> usize
        requires { Writable self.old.instance.now self.old.memory.now self.old.written.now self.old.plan.now s d at }
        ensures { Goes s d at self.old self.new result }
    {
        let instance = self.instance;
        let memory = &mut *self.memory;
        let written = &mut *self.written;
        let plan = &mut *self.plan;
        if let Some(known) = find_passage(written, s, d) {
            known.copy_to(plan, at);
            return at + known.size;
        }
        let start = start_of(instance, memory, s, d);
        put(plan, at, start.first);
        let mut end = at + 1;
        let Some(m) = action_of(start.first) else {
            return end;
        };
        let action = ActionNumber { number: m };
        let left = left_after(instance.task, action, d);
        for k in 0..outcome_count(instance.task, action) {
            let x = successor(instance.task, s, action, OutcomeNumber { number: k });
            end = self.write_plan(x, left, end);
        }
        note_passage(self.written, s, d, at, start.size);
        end
    }
}

// Writes the plan of a state that succeeds at the start of a buffer that it fits.
pub(crate) fn write_found(instance: &Instance, memory: &mut [Slot], plan: &mut [u8], s: u64, d: u32)
    requires { (w : Succeeding instance.now memory.old s d) × (plan_size w.found ≤ length plan.old) × (plan_size w.found ≤ 1000000) }
    ensures { (p : Plan) (k : ℕ) → instance_examination instance.now d s 0 ≡ succeeded p k → Holds (encode p) 0 plan.new }
{
    let mut written = [EMPTY; 128];
    let mut writer = Writer {
        instance,
        memory,
        written: &mut written,
        plan,
    };
    let _ = writer.write_plan(s, d, 0);
}
