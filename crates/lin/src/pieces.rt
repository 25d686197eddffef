// Which pairs make a board (parse_lin_file, split_at_boards), and the boards put one after the other.
ghost use Rattle.std.specs.Prelude.{◌≡◌, ◌≤◌, ◌^◌, eqb};
ghost use Rattle.tables.specs.Text.{lines};
ghost use Rattle.tables.specs.Puts.{Puts};
ghost use Rattle.lin.specs.Pairs.{pairs_of};
ghost use Rattle.lin.specs.Pieces.{split, with_deal, line_pieces, board_pieces};
ghost use Rattle.lin.specs.PieceSteps.{no_progress, above_text, any_bits, Goes, GoesIf, GoesAll};

use crate::board::put_board;
use crate::pairs::{Command, has_pair, pairs_in};
use crate::survey::survey_of;
use reader::deal::Hands;
use reader::tag::Span;
use tables::letters::Conventions;
use tables::lines::lines_of;
use tables::page::Page;
use tables::text::{from, trim};
use writer::page::put_header;

// How far the page has come: the boards, which all make deals, and whether one of them has a card. They are counted before one has, too:
// the header stands above the first of all.
#[derive(Clone, Copy)]
pub struct Progress {
    pub boards: u64,
    pub any: bool,
}

// Before the first board.
fn no_progress() -> Progress
    ensures { result ≡ no_progress }
{
    Progress {
        boards: 0,
        any: false,
    }
}

// What stands above the next board: the built-in header, or an empty line.
#[tactic(auto, unfolding(crate::specs::PieceSteps::above_text))]
fn put_above(page: &mut Page, g: Progress)
    ensures { Puts page.old (above_text (eqb g.boards 0)) page.new }
{
    if g.boards == 0 {
        put_header(page);
        return;
    }
    page.put_byte(b'\n');
}

#[tactic(auto, unfolding(crate::specs::PieceSteps::any_bits))]
fn has_cards(h: Hands) -> bool
    ensures { result ≡ any_bits h }
{
    (h.north != 0) | ((h.east != 0) | ((h.south != 0) | (h.west != 0)))
}

// One more board, from the part of the text that is its own; None where it makes no deal.
fn put_piece(page: &mut Page, c: Conventions, text: &[u8], g: Progress) -> Option<Progress>
    requires { g.boards ≤ 2 ^ 63 }
    ensures { Goes c (pairs_of text.now) page.old g page.new result }
{
    let s = survey_of(c, text);
    let hands = s.deal.hands?;
    put_above(page, g);
    put_board(page, c, text, s, hands);
    Some(Progress {
        boards: g.boards + 1,
        any: g.any | has_cards(hands),
    })
}

// The same, if the part has an md.
fn put_dealt(page: &mut Page, c: Conventions, text: &[u8], g: Progress) -> Option<Progress>
    requires { g.boards ≤ 2 ^ 63 }
    ensures { GoesIf c (pairs_of text.now) page.old g page.new result }
{
    if has_pair(text, Command::Md) {
        return put_piece(page, c, text, g);
    }
    Some(g)
}

// The boards of a text without a qx: its lines.
fn put_lines(page: &mut Page, c: Conventions, text: &[u8]) -> Option<Progress>
    ensures { GoesAll c (line_pieces (lines text.now)) page.old page.new result }
{
    let mut g = no_progress();
    for l in lines_of(text) {
        let line = trim(l);
        if line.is_empty() {
            continue;
        }
        g = put_piece(page, c, line, g)?;
    }
    Some(g)
}

// The boards of a text with a qx; run is the place behind the last pair that is no mn or pn.
fn put_split(page: &mut Page, c: Conventions, text: &[u8]) -> Option<Progress>
    ensures { GoesAll c (with_deal (split (pairs_of text.now))) page.old page.new result }
{
    let mut g = no_progress();
    let mut start = 0;
    let mut run = 0;
    for p in pairs_in(text) {
        if p.command == Command::Heading {
            continue;
        }
        if (p.command == Command::Qx) & (start < run) {
            g = put_dealt(
                page,
                c,
                Span {
                    start,
                    len: run - start,
                }
                .of(text),
                g,
            )?;
            start = run;
            run = p.end;
            continue;
        }
        run = p.end;
    }
    put_dealt(page, c, from(text, start), g)
}

// All boards of a text; None, and nothing told of the page, where one makes no deal.
#[tactic(auto, unfolding(crate::specs::Pieces::board_pieces))]
pub(crate) fn put_boards(page: &mut Page, c: Conventions, text: &[u8]) -> Option<Progress>
    ensures { GoesAll c (board_pieces text.now) page.old page.new result }
{
    if has_pair(text, Command::Qx) {
        return put_split(page, c, text);
    }
    put_lines(page, c, text)
}
