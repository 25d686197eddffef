// The data of an open section, walked again when the section closes.
ghost use Rattle.std.specs.Prelude.{◌≡◌, ◌+◌, ◌-◌, ◌*◌, ◌≤◌, ◌^◌, Some, length};
ghost use Rattle.tables.specs.Tables.{row_of};
ghost use Rattle.reader.specs.PieceSteps.{piece};
ghost use Rattle.reader.specs.TokenSteps.{Seated};
ghost use Rattle.reader.specs.Sections.{kind_number, commentary_after, span_of, row_stored, walked, no_walk, walked_all};
ghost use Rattle.reader.specs.SectionSteps.{NextPiece, walk_count, Walks};

use crate::auction::{Bidding, call_piece};
use crate::line::{Line, has_brace, line_kind};
use crate::play::{Terms, Tricks, no_tricks, play_piece};
use crate::store::Entries;
use crate::tag::Span;
use tables::dd::{no_cells, read_row, stored_row};
use tables::letters::Conventions;
use tables::lines::lines_from;
use tables::text::{byte_at, lead_len};

// What an open section is of, with the seat of an auction's dealer or of a play's opening leader.
#[derive(Clone, Copy)]
pub enum Kind {
    Auction(u8),
    Play(u8),
    Optimum,
}

impl Kind {
    // The last word of a data line's entry in C.
    pub(crate) fn number(self) -> usize
        ensures { (result ≡ kind_number self) × (result ≤ 3) }
    {
        match self {
            Kind::Auction(_) => 1,
            Kind::Play(_) => 2,
            Kind::Optimum => 3,
        }
    }
}

// An open section: where the lines after its tag start, and what was split off its tag line, if anything.
#[derive(Clone, Copy)]
pub struct Open {
    pub kind: Kind,
    pub at: usize,
    pub split: Option<Span>,
}

// What a section's data come to so far: the bidding, the tricks, and the cells of an OptimumResultTable, none after a bad row. An enum of
// the three would be matched in walk_piece, board_closed and last_entries all the same, and hold the seat besides, which the section has.
#[derive(Clone, Copy)]
pub struct Walk {
    pub bidding: Bidding,
    pub tricks: Tricks,
    pub rows: Option<[u8; 20]>,
}

// Whether commentary is open after the line. A line opens it with its first byte that is not white.
pub(crate) fn commentary_after(commentary: bool, l: &[u8]) -> bool
    ensures { result ≡ commentary_after commentary l.now }
{
    (commentary || byte_at(l, lead_len(l)) == b'{') && !has_brace(l)
}

// A piece of a section's data, and where the lines after it start.
#[derive(Clone, Copy)]
pub struct Next {
    pub piece: Span,
    pub at: usize,
}

// The section's next data line, of the lines from `at` on; none where the section has ended.
fn next_piece(r: &[u8], at: usize) -> Option<Next>
    requires { (at ≤ length r.now) × (length r.now ≤ 2 ^ 40) }
    ensures { NextPiece r.now at result }
{
    let mut commentary = false;
    let mut e = at;
    for l in lines_from(r, at) {
        let next = e + l.len();
        if !commentary {
            match line_kind(l) {
                Line::Data(d) => {
                    let piece = d.moved(e);
                    return Some(Next { piece, at: next });
                }
                Line::Blank | Line::Tag(_) => return None,
                Line::Brace | Line::Directive(_) | Line::Bracket => {}
            }
        }
        commentary = commentary_after(commentary, l);
        e = next;
    }
    None
}

#[tactic(auto, unfolding(crate::specs::Sections::no_walk))]
fn no_walk() -> Walk
    ensures { result ≡ no_walk }
{
    Walk {
        bidding: Bidding::default(),
        tricks: no_tricks(),
        rows: Some(no_cells()),
    }
}

// A row of an OptimumResultTable.
fn walk_row(c: Conventions, rows: Option<[u8; 20]>, s: &[u8]) -> Option<[u8; 20]>
    ensures { result ≡ row_stored (row_of c 0 s.now) rows }
{
    let given = read_row(c, s, 0).ok()?;
    Some(stored_row(rows?, Ok(given)))
}

// A piece of the section's data at the place `at` of its record. The conventions, the section and the trump go together in three functions,
// and only this one reads the first and the last: a struct of them would be made in one place and taken apart in one.
fn walk_piece(
    c: Conventions,
    o: Open,
    trump: usize,
    w: Walk,
    s: &[u8],
    at: usize,
    entries: &mut Entries,
) -> Walk
    requires { Seated w.tricks × (entries.old.start + at + length s.now ≤ 2 ^ 40) × (entries.old.count ≤ 2 ^ 58) × (walk_count w ≤ 2 ^ 59) }
    ensures { Walks (walk_count w + 3 * length s.now) entries.old entries.new result (walked c (Some o) trump w (piece at s.now)) }
{
    match o.kind {
        Kind::Auction(_) => Walk {
            bidding: call_piece(c, w.bidding, s, at, entries),
            ..w
        },
        Kind::Play(lead) => {
            let by = Terms { c, lead, trump };
            Walk {
                tricks: play_piece(by, w.tricks, s, at, entries),
                ..w
            }
        }
        Kind::Optimum => Walk {
            rows: walk_row(c, w.rows, s),
            ..w
        },
    }
}

// All the data of the open section `o` of the record `r`. An iterator of pieces would be used here alone: its state would be the place
// that next_piece answers, and its `next` would be next_piece.
pub(crate) fn walk_section(
    c: Conventions,
    r: &[u8],
    o: Open,
    trump: usize,
    entries: &mut Entries,
) -> Walk
    requires { (entries.old.start + length r.now ≤ 2 ^ 40) × (entries.old.count ≤ 2 ^ 57) × (o.at ≤ length r.now) × ((span_of o.split).start + (span_of o.split).len ≤ length r.now) }
    ensures { Walks (3 * ((span_of o.split).len + (length r.now - o.at))) entries.old entries.new result (walked_all c r.now (Some o) trump) }
{
    let mut w = match o.split {
        Some(d) => walk_piece(c, o, trump, no_walk(), d.of(r), d.start, entries),
        None => no_walk(),
    };
    let mut at = o.at;
    while let Some(next) = next_piece(r, at) {
        let d = next.piece;
        w = walk_piece(c, o, trump, w, d.of(r), d.start, entries);
        at = next.at;
    }
    w
}
