// The tokens of a text: its longest parts without white space.
ghost use Rattle.std.specs.Prelude.{◌≡◌};
ghost use Rattle.reader.specs.Tokens.{NextToken, tokens_room};

use crate::tag::Span;
use tables::text::{from, lead_len, word_len};

// The tokens of a text that are left: the text, and the place behind the last one.
#[derive(Clone, Copy)]
pub struct Tokens<'a> {
    pub text: &'a [u8],
    pub next: usize,
}

// All tokens of a text.
pub(crate) fn tokens_in(text: &[u8]) -> Tokens<'_>
    ensures { (result.text.now ≡ text.now) × (result.next ≡ 0) }
{
    Tokens { text, next: 0 }
}

impl<'a> Iterator for Tokens<'a> {
    type Item = Span;

    ghost next_gives = { NextToken };

    ghost remaining = { tokens_room };

    fn next(&mut self) -> Option<Span> {
        let start = self.next + lead_len(from(self.text, self.next));
        let len = word_len(from(self.text, start));
        if len == 0 {
            return None;
        }
        self.next = start + len;
        Some(Span { start, len })
    }
}
