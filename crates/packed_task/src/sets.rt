// Sets of small numbers as words, gone through from the lowest on.
ghost use Rattle.std.specs.Prelude.{◌≡◌};
ghost use Rattle.std.specs.Iterator.{at_most};
ghost use Rattle.packed_task.specs.Sets.{TakesLowest};

// The members of a set of bits, from the lowest on.
#[derive(Drop)]
pub struct Members(pub u64);

impl Iterator for Members {
    type Item = usize;

    ghost next_gives = { λ s r t. TakesLowest s.0 r t.0 };

    ghost remaining = { λ s. at_most s.0 };

    fn next(&mut self) -> Option<usize> {
        let rest = self.0;
        if rest == 0 {
            return None;
        }
        self.0 = rest & (rest - 1);
        // Stays: `as`: a count of bits has no `From` into an index.
        Some((rest.trailing_zeros() % 64) as usize)
    }
}
