// The stack of the check: the actions under way that wait for an outcome's plan.
ghost use Rattle.std.specs.Prelude.{◌≡◌, ◌<◌, length, slice_get};
ghost use Rattle.plan_check.specs.Stack.{nothing_waits, waits_first, first_gone};

use crate::frames::Frame;
use std::marker::Model;

// Each frame has taken a move. Clauses see the frames in use, the topmost first, and how many there is room for.
// Stays: a count beside its array: by `ArrayVec<Frame, 32>`, whose `pop` writes a blank over what it takes, a plan's check takes 1.16 of the time,
// and no operation may become slower. The frames are lent, so that the count stays in a register: in one struct with an array it would stand in
// memory, since a frame that is stored might change it. They are a slice, so that one loop serves each number of frames.
#[derive(Drop)]
pub(crate) struct Stack<'a> {
    frames: &'a mut [Frame],
    used: usize,
}

impl<'a> Model for Stack<'a> {
    ghost use Rattle.std.specs.Prelude.{◌≤◌, length};
    ghost use Rattle.plan_check.specs.Stack.{Waiting, waiting};

    ghost Value = { Waiting };

    ghost view = { λ s. waiting s.frames.now s.used };

    ghost invariant = { λ s. s.used ≤ length s.frames.now };
}

impl<'a> Stack<'a> {
    #[tactic(auto, unfolding(crate::specs::Stack::topmost_first))]
    pub(crate) fn new(frames: &'a mut [Frame]) -> Stack<'a>
        ensures { result ≡ nothing_waits (length frames.old) }
    {
        Stack { frames, used: 0 }
    }

    pub(crate) fn push(&mut self, frame: Frame)
        requires { length self.old.frames < self.old.room }
        ensures { self.new ≡ waits_first frame self.old }
    {
        self.frames[self.used] = frame;
        self.used += 1;
    }

    pub(crate) fn pop(&mut self) -> Option<Frame>
        ensures topmost { result ≡ slice_get self.old.frames 0 }
        ensures rest { self.new ≡ first_gone self.old }
    {
        if self.used == 0 {
            return None;
        }
        self.used -= 1;
        Some(self.frames[self.used])
    }
}
