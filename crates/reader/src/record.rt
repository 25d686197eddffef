// Where a record ends.
ghost use Rattle.std.specs.Prelude.{◌≡◌, ◌≤◌, length};
ghost use Rattle.reader.specs.Records.{scanned, closes_record};
ghost use Rattle.reader.specs.RecordSteps.{FirstEnd};

use crate::line::{is_blank, opens_board};
use crate::section::commentary_after;
use tables::lines::lines_from;

// Whether commentary is open, and whether a tag was met since the record's start.
#[derive(Clone, Copy)]
pub struct Scan {
    pub commentary: bool,
    pub met: bool,
}

// Whether the line closes the record: a blank line, once a tag was met.
#[tactic(auto, unfolding(crate::specs::Records::closes_record))]
fn closes_record(s: Scan, l: &[u8]) -> bool
    ensures { result ≡ closes_record s l.now }
{
    !s.commentary && s.met && is_blank(l)
}

// What is known after the line. Once a tag was met, no line is read as a tag.
#[tactic(auto, unfolding(crate::specs::Records::scanned))]
fn scan_line(s: Scan, l: &[u8]) -> Scan
    ensures { result ≡ scanned s l.now }
{
    let met = s.met || (!s.commentary && opens_board(l));
    Scan {
        commentary: commentary_after(s.commentary, l),
        met,
    }
}

// The end of the record that starts at `a`; nothing where no record is left.
pub(crate) fn record_end(text: &[u8], a: usize) -> Option<usize>
    requires { a ≤ length text.now }
    ensures { FirstEnd text.now a result }
{
    let mut s = Scan {
        commentary: false,
        met: false,
    };
    let mut end = a;
    for line in lines_from(text, a) {
        end += line.len();
        if closes_record(s, line) {
            return Some(end);
        }
        s = scan_line(s, line);
    }
    s.met.then_some(end)
}
