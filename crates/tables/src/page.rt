// Text written to a lent page and counted past its end.
ghost use Rattle.std.specs.Prelude.{◌≡◌, ◌∷◌, [], length};
ghost use Rattle.tables.specs.Numbers.{decimal};
ghost use Rattle.tables.specs.Puts.{Puts};
ghost use Rattle.tables.specs.PageSteps.{PageEnded, Digits};

use crate::refusal::Refusal;

// A lent page, and the place behind the text that was put on it. Text is counted past the page's end, which a Vec (no heap) and a Cursor
// (it stops at the end) do not, and put as far as the page reaches.
// Conventions go beside it and not into it: most of what is put has no letters of theirs, and `new` would ask the listing for some.
#[derive(Drop)]
pub struct Page<'a> {
    pub bytes: &'a mut [u8],
    pub at: usize,
}

// Writes the digits of n into the end of buf, and says where they start. The last is the first to be known, so the place goes down; after
// ten there is none left.
fn digits_into(n: u32, buf: &mut [u8]) -> usize
    requires { length buf.old ≡ 10 }
    ensures { Digits n buf.new result }
{
    let mut m = n;
    let mut k = 9;
    while k > 0 {
        buf[k] = b'0' + (m % 10) as u8;
        if m < 10 {
            return k;
        }
        m /= 10;
        k -= 1;
    }
    buf[0] = b'0' + (m % 10) as u8;
    0
}

impl<'a> Page<'a> {
    // The page with nothing put on it.
    pub fn new(bytes: &'a mut [u8]) -> Page<'a>
        ensures same { result.bytes.ghost_name ≡ bytes.entry.ghost_name }
        ensures bytes { result.bytes.now ≡ bytes.old }
        ensures start { result.at ≡ 0 }
    {
        Page { bytes, at: 0 }
    }

    // Puts b.
    pub fn put_byte(&mut self, b: u8)
        ensures { Puts self.old (b ∷ []) self.new }
    {
        if self.at < self.bytes.len() {
            self.bytes[self.at] = b;
        }
        self.at = self.at.saturating_add(1);
    }

    // Puts s.
    pub fn put_text(&mut self, s: &[u8])
        ensures { Puts self.old s.now self.new }
    {
        for b in s {
            self.put_byte(*b);
        }
    }

    // Puts n in decimal. `write!` would want an impl of `fmt::Write`, and its Result dropped at each call. By a loop: the C header promises
    // a stack that does not grow, since no function calls itself.
    pub fn put_decimal(&mut self, n: u32)
        ensures { Puts self.old (decimal n) self.new }
    {
        if n < 10 {
            self.put_byte(b'0' + (n % 10) as u8);
            return;
        }
        let mut digits = [0; 10];
        let k = digits_into(n, &mut digits);
        self.put_text(&digits[k..]);
    }

    // Ends the page: how many bytes were put, with zeros behind them; a refusal where they did not fit, with nothing but zeros.
    pub fn finish(&mut self) -> Result<u64, Refusal>
        ensures ended { PageEnded self.old.at self.old.bytes.now self.new.bytes.now result }
        ensures same { self.new.bytes.ghost_name ≡ self.old.bytes.ghost_name }
    {
        if self.at <= self.bytes.len() {
            self.bytes[self.at..].fill(0);
            return Ok(self.at as u64);
        }
        self.bytes.fill(0);
        Err(Refusal::PageFull(self.at as u64))
    }
}
