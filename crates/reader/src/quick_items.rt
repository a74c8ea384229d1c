// Numbers and items of a list at the front of a text, with what stands behind them; none where one is not as the definition asks, or larger than
// any good one. Assumes room: two or three bytes for a number.
ghost use Rattle.std.specs.Prelude.{◌≡◌, ℕ, ◌+◌, ◌<◌, ◌≤◌, ◌++◌, length, IfSome};
ghost use Rattle.reader.specs.Quick.{ItemAt};
ghost use Rattle.reader.specs.Written.{decimal};

use crate::lists::{Kind, Pair};
use crate::pieces::COLON;

// What is read at the front of a text, and what stands behind it.
#[derive(Clone, Copy)]
pub struct Front<'a, T> {
    pub read: T,
    pub rest: &'a [u8],
}

// A number of one, two or three digits that a byte can hold.
pub(crate) fn short_number(s: &[u8]) -> Option<Front<'_, u8>>
    requires { 3 ≤ length s.now }
    ensures { IfSome result (λ n. (n.read < 256) × (length s.now ≤ length n.rest.now + 3) × (s.now ≡ decimal n.read ++ n.rest.now)) }
{
    let a = s[0];
    let b = s[1];
    if !a.is_ascii_digit() {
        return None;
    }
    if !b.is_ascii_digit() {
        return Some(Front {
            read: a - b'0',
            rest: &s[1..],
        });
    }
    if a == b'0' {
        return None;
    }
    let n = 10 * (a - b'0') + (b - b'0');
    let c = s[2];
    if !c.is_ascii_digit() {
        return Some(Front {
            read: n,
            rest: &s[2..],
        });
    }
    match u8::try_from(10 * usize::from(n) + usize::from(c - b'0')) {
        Ok(n) => Some(Front {
            read: n,
            rest: &s[3..],
        }),
        Err(_) => None,
    }
}

// A number below 20: those of a good list are below 16, so that one of two digits begins with 1.
// Stays: `short_number` would do in its place, but then the largest text takes 539,000 instructions in place of 429,000, where the bar is 453,000.
fn small_number(s: &[u8]) -> Option<Front<'_, usize>>
    requires { 2 ≤ length s.now }
    ensures { IfSome result (λ n. (n.read < 20) × (length s.now ≤ length n.rest.now + 2) × (s.now ≡ decimal n.read ++ n.rest.now)) }
{
    let a = s[0];
    let b = s[1];
    if !b.is_ascii_digit() {
        if !a.is_ascii_digit() {
            return None;
        }
        return Some(Front {
            read: usize::from(a - b'0'),
            rest: &s[1..],
        });
    }
    if a != b'1' {
        return None;
    }
    Some(Front {
        read: 10 + usize::from(b - b'0'),
        rest: &s[2..],
    })
}

// A pair.
fn quick_pair(s: &[u8]) -> Option<Front<'_, Pair>>
    requires { 6 ≤ length s.now }
    ensures { IfSome result (λ i. (0 < length i.rest.now) × (length i.rest.now ≤ length s.now) × ((next : ℕ) → ItemAt s.now Kind.Pairs next i.read.variable i.read.value i.rest.now)) }
{
    let v = small_number(s)?;
    let middle = v.rest;
    if middle[0] != COLON {
        return None;
    }
    let x = small_number(&middle[1..])?;
    let pair = Pair {
        variable: v.read,
        value: x.read,
    };
    Some(Front {
        read: pair,
        rest: x.rest,
    })
}

// An item of a list, where `next` is the variable that comes next. Compiled in place in the loop over items: there its kind is known.
#[inline(always)]
pub(crate) fn quick_item(s: &[u8], kind: Kind, next: usize) -> Option<Front<'_, Pair>>
    requires { (6 ≤ length s.now) × (next < 256) }
    ensures { IfSome result (λ i. (0 < length i.rest.now) × (length i.rest.now ≤ length s.now) × ItemAt s.now kind next i.read.variable i.read.value i.rest.now) }
{
    match kind {
        Kind::Pairs => quick_pair(s),
        Kind::Values => {
            let x = small_number(s)?;
            let pair = Pair {
                variable: next,
                value: x.read,
            };
            Some(Front {
                read: pair,
                rest: x.rest,
            })
        }
        Kind::Members => {
            let v = small_number(s)?;
            let pair = Pair {
                variable: v.read,
                value: 1,
            };
            Some(Front {
                read: pair,
                rest: v.rest,
            })
        }
    }
}
