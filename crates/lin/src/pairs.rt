// The pairs of a text, `command|value|`.
ghost use Rattle.std.specs.Prelude.{◌≡◌, ◌+◌, length, drop};
ghost use Rattle.tables.specs.Text.{before};
ghost use Rattle.lin.specs.Pairs.{command_of, pairs_of, has_pair};
ghost use Rattle.lin.specs.PairSteps.{NextIs, pairs_room};

use reader::words::same_word;
use tables::text::{from, index_of, trim, upto};

// The commands that count: Heading is mn or pn, Other any that does not count.
#[derive(Clone, Copy, PartialEq, Eq)]
pub enum Command {
    Qx,
    Heading,
    Md,
    Sv,
    Mb,
    Pc,
    Other,
}

// A pair of a text: its command, its value as it stands, and the place behind it, where the next one starts.
#[derive(Clone, Copy)]
pub struct PairAt<'a> {
    pub command: Command,
    pub value: &'a [u8],
    pub end: usize,
}

// The pairs of a text from a place on.
#[derive(Clone, Copy)]
pub(crate) struct Pairs<'a> {
    pub text: &'a [u8],
    pub at: usize,
}

// What stands before the first x, and what stands behind it.
pub(crate) fn cut(s: &[u8], x: u8) -> (&[u8], &[u8])
    ensures front { result.0.now ≡ before x s.now }
    ensures behind { result.1.now ≡ drop (length (before x s.now) + 1) s.now }
{
    let n = index_of(s, x);
    (upto(s, n), from(s, n + 1))
}

// The command of a name, trimmed and taken in either case.
#[tactic(auto, unfolding(crate::specs::Pairs::command_of))]
fn command_of(name: &[u8]) -> Command
    ensures { result ≡ command_of name.now }
{
    let t = trim(name);
    if same_word(b"QX", t) {
        return Command::Qx;
    }
    if same_word(b"MN", t) | same_word(b"PN", t) {
        return Command::Heading;
    }
    if same_word(b"MD", t) {
        return Command::Md;
    }
    if same_word(b"SV", t) {
        return Command::Sv;
    }
    if same_word(b"MB", t) {
        return Command::Mb;
    }
    if same_word(b"PC", t) {
        return Command::Pc;
    }
    Command::Other
}

impl<'a> Iterator for Pairs<'a> {
    type Item = PairAt<'a>;

    ghost next_gives = { NextIs };

    ghost remaining = { pairs_room };

    fn next(&mut self) -> Option<PairAt<'a>> {
        let rest = from(self.text, self.at);
        let (name, behind) = cut(rest, b'|');
        if name.len() < rest.len() {
            let (value, _) = cut(behind, b'|');
            let command = command_of(name);
            let end = self.at + name.len() + 1 + value.len() + 1;
            self.at = end;
            return Some(PairAt {
                command,
                value,
                end,
            });
        }
        None
    }
}

pub(crate) fn pairs_in(text: &[u8]) -> Pairs<'_>
    ensures { (result.text.now ≡ text.now) × (result.at ≡ 0) }
{
    Pairs { text, at: 0 }
}

// Whether one of the pairs has the command k.
pub(crate) fn has_pair(text: &[u8], k: Command) -> bool
    ensures { result ≡ has_pair k (pairs_of text.now) }
{
    pairs_in(text).any(|p| p.command == k)
}
