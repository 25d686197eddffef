// The lines of a text, one after the other.
ghost use Rattle.std.specs.Prelude.{◌≡◌};
ghost use Rattle.tables.specs.LineWalk.{line_at, lines_of, at_end, NextLine, lines_room};

use crate::text::{from, index_of, upto};

// The line that starts at `start`, with its LF, or up to the text's end; nothing past the end.
fn line_at(text: &[u8], start: usize) -> &[u8]
    ensures { result.now ≡ line_at text.now start }
{
    let rest = from(text, start);
    upto(rest, index_of(rest, b'\n') + 1)
}

// The lines of a text that are left, each with its LF, so that their lengths say where they start: the text, and the start of the next.
// `split_inclusive` gives the same lines and looks at one byte a turn, where index_of looks at four. Where a line starts is not given with
// it: lin and the rows of a table want no place, and record_end of the reader wants the end, so that a pair would be taken apart there.
#[derive(Clone, Copy)]
pub struct Lines<'a> {
    pub text: &'a [u8],
    pub next: usize,
}

// All lines of a text.
pub fn lines_of<'a>(text: &'a [u8]) -> Lines<'a>
    ensures { result ≡ lines_of text.entry }
{
    Lines { text, next: 0 }
}

// The lines from a place on.
pub fn lines_from(text: &[u8], start: usize) -> Lines<'_>
    ensures { (result.text.now ≡ text.now) × (result.next ≡ start) }
{
    Lines { text, next: start }
}

impl<'a> Lines<'a> {
    // Whether no line is left. Public with the walk, whose form docs/DECISIONS.md names.
    pub fn is_at_end(&self) -> bool
        ensures { result ≡ at_end self.now }
    {
        self.text.len() <= self.next
    }
}

impl<'a> Iterator for Lines<'a> {
    type Item = &'a [u8];

    ghost next_gives = { NextLine };

    ghost remaining = { lines_room };

    fn next(&mut self) -> Option<&'a [u8]> {
        if self.is_at_end() {
            return None;
        }
        let line = line_at(self.text, self.next);
        self.next += line.len();
        Some(line)
    }
}
