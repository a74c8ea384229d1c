// Sets of small numbers as words, made by a test of each number.
ghost use Rattle.std.specs.Prelude.{◌≡◌, ℕ, ◌<◌, ◌≤◌, Bool};
ghost use Rattle.planning.specs.Sets.{set_from};

// The numbers below n that pass a test, from the highest down: each makes room for the one below it.
pub(crate) fn set_of<F: Fn(usize) -> bool>(n: usize, passes: F) -> u64
    requires few { n ≤ 64 }
    requires callable { (q : ℕ) → q < n → F.pre passes q }
    ensures { (f : ℕ → Bool) → ((q : ℕ) (b : Bool) → q < n → F.post passes q b → b ≡ f q) → result ≡ set_from f 0 n }
{
    let mut set = 0u64;
    for q in (0..n).rev() {
        set = set << 1 | u64::from(passes(q));
    }
    set
}
