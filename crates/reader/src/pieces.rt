// Where a text is parted. Assumes nothing.
ghost use Rattle.std.specs.Prelude.{◌≡◌, ◌+◌, take, drop};
ghost use Rattle.reader.specs.Text.{index_of};

pub const LINE_BREAK: u8 = b'\n';

pub const COMMA: u8 = b',';

pub const COLON: u8 = b':';

// A text up to the first b, and what stands behind that b.
pub(crate) fn cut(s: &[u8], b: u8) -> (&[u8], &[u8])
    ensures { (result.0.now ≡ take (index_of b s.now) s.now) × (result.1.now ≡ drop (index_of b s.now + 1) s.now) }
{
    match s.iter().position(|x| *x == b) {
        Some(k) => (&s[..k], &s[k + 1..]),
        None => (s, &[]),
    }
}
