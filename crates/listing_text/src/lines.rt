// The lines of a listing, put on a page.
ghost use Rattle.std.specs.Prelude.{◌≡◌, cond, ◌++◌, ◌<◌, eqb};
ghost use Rattle.tables.specs.Text.{ascii};
ghost use Rattle.tables.specs.Numbers.{decimal};
ghost use Rattle.tables.specs.Puts.{Puts};
ghost use Rattle.tables.specs.Refusals.{edition_told};
ghost use Rattle.planning.specs.States.{from_of};
ghost use Rattle.listing_text.specs.Listing.{state_text, board_line, total_line, refused_line};
ghost use Rattle.listing_text.specs.ListingSteps.{Countable};

use planning::plan::{PlanRefusal, Totals};
use planning::state::BoardState;
use tables::page::Page;
use tables::refused::{Edition, Refused};

#[tactic(auto, unfolding(crate::specs::Listing::state_text))]
fn state_text(s: BoardState) -> &'static [u8]
    ensures { result.now ≡ state_text s }
{
    match s {
        BoardState::Blank => b" state=blank",
        BoardState::Own => b" state=own",
        BoardState::Old(_) => b" state=old",
        BoardState::Near(_) => b" state=near",
        BoardState::Twin(_) => b" state=twin",
        BoardState::Solve => b" state=solve",
    }
}

// A name and a number. A count has 64 bits, as C is told it, and `decimal` of the specs has 32: what is put here, in put_board, put_total
// and put_listing is below 2^32, since a text has at most 16,777,215 bytes.
fn put_pair(page: &mut Page, name: &[u8], n: u64)
    requires { n < 4294967296 }
    ensures { Puts page.old (name.now ++ decimal n) page.new }
{
    page.put_text(name);
    page.put_decimal(n as u32);
}

// The line of the board at the position p.
pub(crate) fn put_board(page: &mut Page, p: u64, s: BoardState)
    requires { (p < 4294967296) × (from_of s < 4294967296) }
    ensures { Puts page.old (board_line p s) page.new }
{
    put_pair(page, b"board=", p);
    page.put_text(state_text(s));
    put_pair(page, b" from=", s.source());
    page.put_byte(b'\n');
}

// The line of the totals.
pub(crate) fn put_total(page: &mut Page, t: Totals)
    requires { Countable t }
    ensures { Puts page.old (total_line t) page.new }
{
    put_pair(page, b"total=", t.boards);
    put_pair(page, b" blank=", t.blank);
    put_pair(page, b" own=", t.own);
    put_pair(page, b" old=", t.old);
    put_pair(page, b" near=", t.near);
    put_pair(page, b" twin=", t.twin);
    put_pair(page, b" solve=", t.solve);
    page.put_byte(b'\n');
}

// Refusal 4 names no edition: its slips are of the new one's boards (DECISIONS P7).
fn put_edition(page: &mut Page, edition: Option<Edition>)
    ensures { Puts page.old (cond (eqb (edition_told edition) 1) (ascii "old") (ascii "new")) page.new }
{
    match edition {
        Some(Edition::Old) => page.put_text(b"old"),
        Some(Edition::New) | None => page.put_text(b"new"),
    }
}

// The line of a refusal.
pub(crate) fn put_refused(page: &mut Page, f: PlanRefusal)
    ensures { Puts page.old (refused_line f) page.new }
{
    put_pair(page, b"refused=", f.number());
    page.put_text(b" edition=");
    put_edition(page, f.edition());
    page.put_byte(b'\n');
}
