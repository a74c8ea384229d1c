// The index of a word with few digits.
// Stays: `as`: a count of zeros has no `From` into an index.
ghost use Rattle.std.specs.Prelude.{◌≡◌};
ghost use Rattle.tables.specs.Steps.{weigh};

use crate::steps::{index_of, times};

// It goes from digit to digit, where `index_of` goes over all of them, four at a time: a goal and what an action needs or sets are a digit or two.
// Stays: no iterator: a digit is taken from the word until none is left.
pub(crate) fn index_of_few(weights: &[u16; 16], s: u64) -> usize
    ensures { result ≡ weigh weights.now s }
{
    let mut sum = 0usize;
    let mut rest = s;
    while rest != 0 {
        let u = u64::trailing_zeros(rest) as usize / 4 % 16;
        let place = 1u64 << (4 * u);
        let digit = rest / place % 16;
        if digit == 0 {
            return sum + index_of(weights, rest);
        }
        sum += times(digit, weights[u]);
        rest -= digit * place;
    }
    sum
}
