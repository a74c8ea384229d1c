// Lines: a word, a key with a number, a plan. Each ends with byte 10.
ghost use Rattle.std.specs.Prelude.{◌≡◌, [], ◌∷◌, ◌++◌, ◌+◌, ◌*◌, ◌≤◌, ◌<◌, length};
ghost use Rattle.report.specs.Decimal.{decimal};
ghost use Rattle.report.specs.Lines.{line, number_line, comma_before, comma_list, plan_line};
ghost use Rattle.report.specs.Writing.{Puts};

use itoa::Buffer;

const LINE_BREAK: u8 = b'\n';

const COMMA: u8 = b',';

// A lent buffer, and the place of the next byte, which may lie past its end: what does not fit is counted and not stored.
// Stays: printed by hand, since a writer of the library answers each text with a result, and what it promises holds only where that is good; here
// no line can fail, so that each would leave a case that never comes.
#[derive(Drop)]
pub(crate) struct Lines<'a> {
    out: &'a mut [u8],
    at: usize,
}

impl<'a> Lines<'a> {
    pub(crate) fn new(out: &'a mut [u8]) -> Lines<'a>
        ensures same { result.out.ghost_name ≡ out.entry.ghost_name }
        ensures holds { result.out.now ≡ out.old }
        ensures at { result.at ≡ 0 }
    {
        Lines { out, at: 0 }
    }

    // How many bytes the lines have.
    pub(crate) fn len(&self) -> usize
        ensures { result ≡ self.now.at }
    {
        self.at
    }

    fn put_byte(&mut self, b: u8)
        requires { self.old.at < 4000000000 }
        ensures { Puts (b ∷ []) self.old self.new }
    {
        if self.at < self.out.len() {
            self.out[self.at] = b;
        }
        self.at += 1;
    }

    pub(crate) fn put_word(&mut self, word: &[u8])
        requires { self.old.at + length word.now ≤ 4000000000 }
        ensures { Puts word.now self.old self.new }
    {
        for &b in word {
            self.put_byte(b);
        }
    }

    fn put_decimal(&mut self, n: u64)
        requires { self.old.at ≤ 3000000000 }
        ensures { Puts (decimal n) self.old self.new }
    {
        self.put_word(Buffer::new().format(n).as_bytes())
    }

    // The numbers after the first, each with a comma before it.
    fn put_rest(&mut self, bytes: &[u8])
        requires { self.old.at + 4 * length bytes.now ≤ 3000000000 }
        ensures written { Puts (comma_before bytes.now) self.old self.new }
        ensures short { self.new.at ≤ self.old.at + 4 * length bytes.now }
    {
        for &b in bytes {
            self.put_byte(COMMA);
            self.put_decimal(u64::from(b));
        }
    }

    fn put_list(&mut self, bytes: &[u8])
        requires { self.old.at + 4 * length bytes.now ≤ 3000000000 }
        ensures written { Puts (comma_list bytes.now) self.old self.new }
        ensures short { self.new.at ≤ self.old.at + 4 * length bytes.now }
    {
        if let Some((first, rest)) = bytes.split_first() {
            self.put_decimal(u64::from(*first));
            self.put_rest(rest)
        }
    }

    // A word as a line.
    pub(crate) fn put_line(&mut self, word: &[u8])
        requires { (self.old.at ≤ 1000000) × (length word.now ≤ 32) }
        ensures written { Puts (line word.now) self.old self.new }
        ensures short { self.new.at ≤ self.old.at + 33 }
    {
        self.put_word(word);
        self.put_byte(LINE_BREAK)
    }

    // A key and a number as a line.
    pub(crate) fn put_number_line(&mut self, key: &[u8], n: u64)
        requires { (self.old.at ≤ 1000000) × (length key.now ≤ 32) }
        ensures written { Puts (number_line key.now n) self.old self.new }
        ensures short { self.new.at ≤ self.old.at + 53 }
    {
        self.put_word(key);
        self.put_decimal(n);
        self.put_byte(LINE_BREAK)
    }

    // The bytes of a plan as a line.
    pub(crate) fn put_plan_line(&mut self, plan: &[u8])
        requires { (self.old.at ≤ 900000) × (length plan.now ≤ 1000000) }
        ensures written { Puts (plan_line plan.now) self.old self.new }
        ensures short { self.new.at ≤ self.old.at + 33 + 4 * length plan.now }
    {
        self.put_word(b"plan=");
        self.put_list(plan);
        self.put_byte(LINE_BREAK)
    }
}
