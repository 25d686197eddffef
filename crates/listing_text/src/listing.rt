// The listing: two editions read, the new one planned, and its text put on a page.
ghost use Rattle.std.specs.Prelude.{◌≡◌, ◌++◌, ◌*◌, ◌≤◌, length};
ghost use Rattle.tables.specs.Letters.{built_in};
ghost use Rattle.tables.specs.Page.{Wrote};
ghost use Rattle.tables.specs.Puts.{Puts};
ghost use Rattle.planning.specs.PlanSteps.{cards_in};
ghost use Rattle.planning.specs.States.{board_plans};
ghost use Rattle.planning.specs.Plans.{words_of, SameLent};
ghost use Rattle.listing_text.specs.Listing.{listing_lines, total_line, refused_line, IsListing};
ghost use Rattle.listing_text.specs.ListingSteps.{Countable, PageKept, BoardsOnPage};

use crate::limited::read_both_limited;
use crate::lines::{put_board, put_refused, put_total};
use planning::cards::Card;
use planning::editions::{Both, LentBoxes};
use planning::plan::{PlanRefusal, Totals, finish_plan, put_slips};
use planning::state::state_of;
use tables::letters::{Conventions, built_in};
use tables::page::Page;
use tables::refusal::Refusal;

// Puts the line of every board: by its index, since its state depends on the boards before it, and its position is put. The lengths are
// those of texts that were read, so that a position has 32 bits; a struct of both would only be taken apart by state_of.
fn put_lines(page: &mut Page, olds: &[Card], news: &[Card])
    requires { (length olds.now ≤ 16777215) × (length news.now ≤ 16777215) }
    ensures { Puts page.old (listing_lines (board_plans olds.now news.now)) page.new }
{
    for k in 0..news.len() {
        put_board(page, (k + 1) as u64, state_of(olds, news, k));
    }
}

// Puts the line of every board, and that of the totals.
fn put_listing(page: &mut Page, olds: &[Card], news: &[Card], t: Totals)
    requires { (length olds.now ≤ 16777215) × (length news.now ≤ 16777215) × Countable t }
    ensures { Puts page.old (listing_lines (board_plans olds.now news.now) ++ total_line t) page.new }
{
    put_lines(page, olds, news);
    put_total(page, t);
}

// Writes the line of a refusal, and nothing else.
fn write_refused(page: &mut [u8], f: PlanRefusal) -> Result<u64, Refusal>
    ensures { Wrote (refused_line f) page.old page.new result }
{
    let mut page = Page::new(page);
    put_refused(&mut page, f);
    page.finish()
}

// The end of a page; all other lent words are set to 0 where the text does not fit.
fn finish_listing(boxes: &mut LentBoxes, slips: &mut [u64], page: &mut Page) -> Result<u64, Refusal>
    ensures kept { PageKept page.old.at (words_of boxes.old) slips.old page.old.bytes.now (words_of boxes.new) slips.new page.new.bytes.now result }
    ensures same { SameLent boxes.old boxes.new × (page.new.bytes.ghost_name ≡ page.old.bytes.ghost_name) }
{
    let written = page.finish();
    if written.is_err() {
        boxes.zero();
        slips.fill(0);
    }
    written
}

// Lists the boards of two editions that were taken.
fn list_taken(
    boxes: &mut LentBoxes,
    both: Both,
    slips: &mut [u64],
    page: &mut [u8],
) -> Result<u64, Refusal>
    requires { (64 * both.old.boards ≤ length boxes.old.old_cards.now) × (64 * both.new.boards ≤ length boxes.old.new_cards.now) × (both.old.boards ≤ 16777215) × (both.new.boards ≤ 16777215) }
    ensures listed { BoardsOnPage (board_plans (cards_in both.old.boards boxes.old.old_cards.now) (cards_in both.new.boards boxes.old.new_cards.now))
        (words_of boxes.old) slips.old page.old (words_of boxes.new) slips.new page.new result }
    ensures same { SameLent boxes.old boxes.new }
{
    let (olds, news) = boxes.cards(both);
    let t = put_slips(olds, news, slips);
    match finish_plan(boxes, slips, t) {
        Err(f) => write_refused(page, f),
        Ok(t) => {
            let (olds, news) = boxes.cards(both);
            let mut page = Page::new(page);
            put_listing(&mut page, olds, news, t);
            finish_listing(boxes, slips, &mut page)
        }
    }
}

// Lists by the given conventions.
pub fn list_with(
    c: Conventions,
    old: &[u8],
    new: &[u8],
    limit: usize,
    boxes: &mut LentBoxes,
    slips: &mut [u64],
    page: &mut [u8],
) -> Result<u64, Refusal>
    ensures listed { IsListing c limit old.now new.now (words_of boxes.old) slips.old page.old (words_of boxes.new) slips.new page.new result }
    ensures same { SameLent boxes.old boxes.new }
{
    slips.fill(0);
    match read_both_limited(c, old, new, limit, boxes) {
        Err(f) => write_refused(page, PlanRefusal::Edition(f)),
        Ok(both) => list_taken(boxes, both, slips, page),
    }
}

// Lists a new edition, given an old one, by the built-in letters, which are all that the programs know; it stands beside list_with since
// there are no default arguments. A line for each board and the totals, or a refusal alone. An edition longer than the limit is refused.
pub fn list(
    old: &[u8],
    new: &[u8],
    limit: usize,
    boxes: &mut LentBoxes,
    slips: &mut [u64],
    page: &mut [u8],
) -> Result<u64, Refusal>
    ensures listed { IsListing built_in limit old.now new.now (words_of boxes.old) slips.old page.old (words_of boxes.new) slips.new page.new result }
    ensures same { SameLent boxes.old boxes.new }
{
    list_with(built_in(), old, new, limit, boxes, slips, page)
}
