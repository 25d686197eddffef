// The bytes of the recorded cases, taken from the front. Numbers have their low byte first.
ghost use Rattle.std.specs.Prelude.{◌≡◌, ◌∷◌, ◌++◌, ◌+◌, ◌*◌, ◌/◌, ◌%◌, ◌<◌, length, IfSome};

// The bytes that are left.
#[derive(Clone, Copy)]
pub struct Bytes<'a> {
    pub rest: &'a [u8],
}

impl<'a> Bytes<'a> {
    pub fn byte(&mut self) -> Option<u8>
        ensures { IfSome result (λ b. self.old.rest.now ≡ b ∷ self.new.rest.now) }
    {
        let (first, rest) = self.rest.split_first()?;
        self.rest = rest;
        Some(*first)
    }

    // A group, one of five: numbered from 1 in the file, from 0 here.
    pub fn group(&mut self) -> Option<usize>
        ensures bytes { IfSome result (λ g. self.old.rest.now ≡ (g + 1) ∷ self.new.rest.now) }
        ensures small { IfSome result (λ g. g < 5) }
    {
        match self.byte()? {
            g @ 1..=5 => Some((g - 1) as usize),
            _ => None,
        }
    }

    // By split_first_chunk and from_le_bytes this is as long, and as u16 and u32 the numbers here would have to be turned into lengths, which
    // most of them are, in a dozen places of the programs.
    pub fn two_bytes(&mut self) -> Option<usize>
        ensures bytes { IfSome result (λ n. self.old.rest.now ≡ n % 256 ∷ n / 256 ∷ self.new.rest.now) }
        ensures small { IfSome result (λ n. n < 65536) }
    {
        let low = self.byte()? as usize;
        let high = self.byte()? as usize;
        Some(low + 256 * high)
    }

    pub fn four_bytes(&mut self) -> Option<usize>
        ensures bytes { IfSome result (λ n. self.old.rest.now ≡ n % 256 ∷ n / 256 % 256 ∷ n / 65536 % 256 ∷ n / 16777216 ∷ self.new.rest.now) }
        ensures small { IfSome result (λ n. n < 4294967296) }
    {
        let low = self.two_bytes()?;
        let high = self.two_bytes()?;
        Some(low + 65536 * high)
    }

    // The next n bytes.
    fn take(&mut self, n: usize) -> Option<&'a [u8]>
        ensures { IfSome result (λ s. (length s.now ≡ n) × (self.old.rest.now ≡ s.now ++ self.new.rest.now)) }
    {
        let (front, rest) = self.rest.split_at_checked(n)?;
        self.rest = rest;
        Some(front)
    }

    // A length of two bytes, and as many bytes behind it.
    pub fn part(&mut self) -> Option<&'a [u8]>
        ensures { IfSome result (λ s. self.old.rest.now ≡ length s.now % 256 ∷ length s.now / 256 ∷ s.now ++ self.new.rest.now) }
    {
        let n = self.two_bytes()?;
        self.take(n)
    }
}
