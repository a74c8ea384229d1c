// Decimal numbers: `number` reads one of up to seven digits, in one pass; those at the front of a good line `quick_items` reads. Assumes nothing.
ghost use Rattle.std.specs.Prelude.{◌≡◌, cond, not, ◌&&◌, ◌||◌, ◌≤◌, leb, eqb, length, get_or, Some, None};
ghost use Rattle.reader.specs.Text.{digits, value, number_of};

// Whether there are 1 to 7 bytes, the first of several not 0.
fn is_framed(s: &[u8]) -> bool
    ensures { result ≡ (leb 1 (length s.now) && leb (length s.now) 7 && (leb (length s.now) 1 || not (eqb (get_or s.now 0 0) 48))) }
{
    match s {
        [] => false,
        [_] => true,
        [first, ..] => s.len() <= 7 && *first != b'0',
    }
}

// What digits say, where every byte is one.
// Stays: a loop, since a fold's closure would have to be told how many digits came before, so that `v * 10` does not wrap.
fn value_of(s: &[u8]) -> Option<usize>
    requires { length s.now ≤ 7 }
    ensures { result ≡ cond (digits s.now) (Some (value 0 s.now)) None }
{
    let mut v = 0;
    for b in s {
        if !b.is_ascii_digit() {
            return None;
        }
        v = v * 10 + usize::from(*b - b'0');
    }
    Some(v)
}

// A decimal number, or none.
pub(crate) fn number(s: &[u8]) -> Option<usize>
    ensures { result ≡ number_of s.now }
{
    if is_framed(s) { value_of(s) } else { None }
}
