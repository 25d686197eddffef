// A board's lines, and the page of an edition: its boards' parts in a row.
ghost use Rattle.std.specs.Prelude.{◌≡◌, [], ◌++◌, ◌-◌, ◌≤◌, ◌<◌};
ghost use Rattle.tables.specs.Puts.{Puts};
ghost use Rattle.writer.specs.Pages.{built_in_header};
ghost use Rattle.writer.specs.Items.{Leading, items_of, sought_text, deal_place};
ghost use Rattle.writer.specs.BoardTexts.{of_board, present_in, front_text, unwritten_text, back_text, header_held, next_held, parts_held, page_held};

use crate::board::{put_analysis, put_bidding, put_cards, put_contract, put_head};
use crate::held::{Board, ReadEdition};
use crate::items::Items;
use crate::names::find_name;
use crate::notes::has_notes;
use crate::present::Present;
use crate::remarks::{put_leading, put_lost};
use crate::tags::put_extras;
use reader::board::NO_TABLE;
use reader::store::{COMMENTARY, DIRECTIVE};
use tables::letters::Conventions;
use tables::page::Page;

// Whether the auction in force has notes.
fn noted(board: &Board) -> bool
    ensures { result ≡ (present_in board.now).notes }
{
    match board.section(51) {
        Some(calls) => has_notes(&board.items_from(calls.first)),
        None => false,
    }
}

// What of the board there is.
fn present_at(board: &Board) -> Present
    ensures { result ≡ present_in board.now }
{
    let notes = noted(board);
    Present {
        board: board.word(39) != 0,
        dealer: board.word(4) < 4,
        table: board.word(38) != NO_TABLE,
        score: board.word(49) != 0,
        par: board.word(50) != 0,
        auction: board.word(51) != 0,
        notes,
        play: board.word(55) != 0,
    }
}

// How many entries stand before the first Deal tag, 0 where there is no Deal tag.
fn before_deal(items: &Items) -> usize
    ensures { (result ≡ deal_place items.now.text.now items.now.entries.now items.now.first items.now.count) × (result ≤ items.now.count) }
{
    find_name(items, b"Deal").unwrap_or(0)
}

// Blocks before every tag, and the tags up to the late supplemental ones.
fn put_front(page: &mut Page, board: &Board, c: Conventions)
    ensures { Puts page.old (of_board (front_text c) board.now) page.new }
{
    let items = board.items();
    let early = before_deal(&items);
    put_leading(page, &board.remarks, COMMENTARY);
    put_head(page, board, c);
    put_extras(
        page,
        &board.remarks,
        items.first,
        &items.part(items.first, early),
    );
    put_contract(page, board, c);
    put_analysis(page, board);
}

// What belongs to a tag that is not written: blocks, then directives.
fn put_unwritten(page: &mut Page, board: &Board)
    ensures { Puts page.old (unwritten_text (present_in board.now) (items_of board.now.remarks)) page.new }
{
    if board.remarks.count == 0 {
        return;
    }
    let present = present_at(board);
    put_lost(page, &board.remarks, COMMENTARY, present);
    put_lost(page, &board.remarks, DIRECTIVE, present);
}

// The tags from the late supplemental ones on, and what is put at the end.
fn put_back(page: &mut Page, board: &Board, c: Conventions)
    ensures { Puts page.old (of_board (back_text c) board.now) page.new }
{
    let items = board.items();
    let early = before_deal(&items);
    let late = items.part(items.first + early, items.count - early);
    put_extras(page, &board.remarks, items.first, &late);
    put_bidding(page, board, c);
    put_cards(page, board, c);
    put_unwritten(page, board);
}

// The directives before every tag.
fn put_lead(page: &mut Page, board: &Board)
    ensures { Puts page.old (sought_text Leading [] 3 (items_of board.now.remarks)) page.new }
{
    put_leading(page, &board.remarks, DIRECTIVE);
}

// The other lines of a board.
fn put_body(page: &mut Page, board: &Board, c: Conventions)
    ensures { Puts page.old (of_board (front_text c) board.now ++ of_board (back_text c) board.now) page.new }
{
    put_front(page, board, c);
    put_back(page, board, c);
}

// The header of an edition without one of its own.
pub fn put_header(page: &mut Page)
    ensures { Puts page.old built_in_header page.new }
{
    page.put_text(b"% PBN 2.1\n% EXPORT\n\n");
}

// The first board's directives before every tag and an empty line, or the built-in header.
fn put_top(page: &mut Page, board: &Board)
    ensures { Puts page.old (header_held (sought_text Leading [] 3 (items_of board.now.remarks))) page.new }
{
    let start = page.at;
    put_lead(page, board);
    if page.at == start {
        put_header(page);
    } else {
        page.put_byte(10);
    }
}

// An empty line and the lines of the board at an index.
fn put_next(page: &mut Page, edition: &ReadEdition, b: usize, c: Conventions)
    ensures { Puts page.old (next_held c edition.now.text.now edition.now.cards.now edition.now.entries.now b) page.new }
{
    let board = Board::new(edition, b);
    page.put_byte(10);
    put_lead(page, &board);
    put_body(page, &board, c);
}

// The parts of the boards behind the first.
fn put_parts(page: &mut Page, edition: &ReadEdition, c: Conventions)
    ensures { Puts page.old (parts_held c edition.now.text.now edition.now.cards.now edition.now.entries.now 1 (edition.now.boards - 1)) page.new }
{
    for b in 1..edition.boards {
        put_next(page, edition, b, c);
    }
}

// The page of an edition.
pub(crate) fn put_page(page: &mut Page, edition: &ReadEdition, c: Conventions)
    ensures { Puts page.old (page_held c edition.now.text.now edition.now.cards.now edition.now.entries.now edition.now.boards) page.new }
{
    if edition.boards == 0 {
        put_header(page);
        return;
    }
    let board = Board::new(edition, 0);
    put_top(page, &board);
    put_body(page, &board, c);
    put_parts(page, edition, c);
}
