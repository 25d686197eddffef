// A board's tags in the order of writer.rs, each with its data lines and what follows it.
ghost use Rattle.std.specs.Prelude.{◌≡◌, ◌<◌};
ghost use Rattle.tables.specs.Text.{ascii};
ghost use Rattle.tables.specs.Puts.{Puts};
ghost use Rattle.reader.specs.Words.{vulnerability_token};
ghost use Rattle.writer.specs.Tags.{or_empty, seat_text, result_text, first_seat};
ghost use Rattle.writer.specs.Items.{items_of, tagged_text, result_in, outcome_text, scoring_at};
ghost use Rattle.writer.specs.BoardTexts.{word_of, value_of, of_board, optional_text, title_text, players_text, dealer_text, shown_vulnerable, head_text, deal_held, contract_text, table_text, analysis_text, bidding_text, cards_text};

use crate::auction::put_auction;
use crate::deal::{hands_at, put_deal};
use crate::held::Board;
use crate::names::find_name;
use crate::notes::put_notes;
use crate::play::put_play;
use crate::remarks::put_after;
use crate::tags::{put_close, put_open, put_tagged, put_tagged_by};
use crate::tokens::{put_digits, put_result, put_seat, put_vulnerability};
use reader::board::NO_TABLE;
use tables::letters::Conventions;
use tables::page::Page;

// A tag with the value that the word i of the card names, empty where it names none.
fn put_value(page: &mut Page, board: &Board, name: &[u8], i: usize)
    requires { i < 64 }
    ensures { Puts page.old (tagged_text name.now (or_empty (value_of board.now i)) (items_of board.now.remarks)) page.new }
{
    put_tagged(page, &board.remarks, name, board.value(i).unwrap_or(b""));
}

// The same where there is a value.
fn put_optional(page: &mut Page, board: &Board, name: &[u8], i: usize)
    requires { i < 64 }
    ensures { Puts page.old (optional_text name.now (value_of board.now i) (items_of board.now.remarks)) page.new }
{
    if let Some(value) = board.value(i) {
        put_tagged(page, &board.remarks, name, value);
    }
}

// Event, Site, Date; Board where there is an id.
fn put_title(page: &mut Page, board: &Board)
    ensures { Puts page.old (of_board title_text board.now) page.new }
{
    put_value(page, board, b"Event", 40);
    put_value(page, board, b"Site", 41);
    put_value(page, board, b"Date", 42);
    put_optional(page, board, b"Board", 39);
}

// The players from West on.
fn put_players(page: &mut Page, board: &Board)
    ensures { Puts page.old (of_board players_text board.now) page.new }
{
    put_value(page, board, b"West", 47);
    put_value(page, board, b"North", 44);
    put_value(page, board, b"East", 45);
    put_value(page, board, b"South", 46);
}

// A tag whose value is a seat's letter, empty for none.
fn put_seated(page: &mut Page, board: &Board, c: Conventions, name: &[u8], seat: usize)
    ensures { Puts page.old (tagged_text name.now (seat_text c seat) (items_of board.now.remarks)) page.new }
{
    put_tagged_by(page, &board.remarks, name, |page| put_seat(page, c, seat));
}

// The dealer, where there is one.
fn put_dealer(page: &mut Page, board: &Board, c: Conventions)
    ensures { Puts page.old (dealer_text c (word_of board.now 4) (items_of board.now.remarks)) page.new }
{
    let dealer = board.word(4);
    if dealer < 4 {
        put_seated(page, board, c, b"Dealer", dealer);
    }
}

// A vulnerability as it is written: None where none was read, which the definitions have as 4; no card that was read has it.
fn shown(v: usize) -> usize
    ensures { result ≡ shown_vulnerable v }
{
    if v == 4 {
        return 0;
    }
    v
}

fn put_vulnerable(page: &mut Page, board: &Board)
    ensures { Puts page.old (tagged_text (ascii "Vulnerable") (vulnerability_token (shown_vulnerable (word_of board.now 5))) (items_of board.now.remarks)) page.new }
{
    let v = shown(board.word(5));
    put_tagged_by(
        page,
        &board.remarks,
        b"Vulnerable",
        |page| put_vulnerability(page, v),
    );
}

// The tags before the deal, but for supplemental ones.
pub(crate) fn put_head(page: &mut Page, board: &Board, c: Conventions)
    ensures { Puts page.old (of_board (head_text c) board.now) page.new }
{
    put_title(page, board);
    put_players(page, board);
    put_dealer(page, board, c);
    put_vulnerable(page, board);
}

// The seat that a deal is written from: the dealer's, North's where there is none.
fn first_seat(dealer: usize) -> usize
    ensures { (result ≡ first_seat dealer) × (result < 4) }
{
    if dealer < 4 {
        return dealer;
    }
    0
}

// The deal: one that did not parse as it was read, else the hands.
fn put_dealt(page: &mut Page, board: &Board, c: Conventions)
    ensures { Puts page.old (tagged_text (ascii "Deal") (deal_held c board.now.cards.now board.now.index (value_of board.now 48)) (items_of board.now.remarks)) page.new }
{
    if let Some(value) = board.value(48) {
        put_tagged(page, &board.remarks, b"Deal", value);
        return;
    }
    let seat = first_seat(board.word(4));
    let hands = hands_at(board);
    put_tagged_by(page, &board.remarks, b"Deal", |page| {
        put_deal(page, c, seat, hands)
    });
}

// Scoring: the first value of that name.
fn put_scoring(page: &mut Page, board: &Board)
    ensures { Puts page.old (tagged_text (ascii "Scoring") (scoring_at board.now.remarks.text.now board.now.remarks.entries.now (word_of board.now 0) (word_of board.now 1)) (items_of board.now.remarks)) page.new }
{
    let items = board.items();
    match find_name(&items, b"Scoring") {
        Some(n) => put_tagged(
            page,
            &board.remarks,
            b"Scoring",
            items.bytes_at(items.first + n + 1),
        ),
        None => put_tagged(page, &board.remarks, b"Scoring", b""),
    }
}

// The result plus 128, where there is one.
fn outcome_of(board: &Board) -> Option<u32>
    ensures { outcome_text result ≡ result_text (result_in (word_of board.now 7) (word_of board.now 8)) }
{
    if board.word(7) == 0 {
        return None;
    }
    Some(board.word(8) as u32)
}

fn put_outcome(page: &mut Page, board: &Board)
    ensures { Puts page.old (tagged_text (ascii "Result") (result_text (result_in (word_of board.now 7) (word_of board.now 8))) (items_of board.now.remarks)) page.new }
{
    let outcome = outcome_of(board);
    put_tagged_by(
        page,
        &board.remarks,
        b"Result",
        |page| put_result(page, outcome),
    );
}

// Deal, Scoring, Declarer, Contract, Result.
pub(crate) fn put_contract(page: &mut Page, board: &Board, c: Conventions)
    ensures { Puts page.old (of_board (contract_text c) board.now) page.new }
{
    put_dealt(page, board, c);
    put_scoring(page, board);
    put_seated(page, board, c, b"Declarer", board.word(6));
    put_value(page, board, b"Contract", 43);
    put_outcome(page, board);
}

// The table, where there is one.
fn put_table(page: &mut Page, board: &Board)
    ensures { Puts page.old (table_text board.now.cards.now board.now.index (items_of board.now.remarks)) page.new }
{
    if board.word(38) == NO_TABLE {
        return;
    }
    put_open(page, b"DoubleDummyTricks");
    put_digits(page, board);
    put_close(page);
    put_after(page, &board.remarks, b"DoubleDummyTricks");
}

// The table, the optimum score and the par contract, where there are any.
pub(crate) fn put_analysis(page: &mut Page, board: &Board)
    ensures { Puts page.old (of_board analysis_text board.now) page.new }
{
    put_table(page, board);
    put_optional(page, board, b"OptimumScore", 49);
    put_optional(page, board, b"ParContract", 50);
}

// The auction in force and its notes.
pub(crate) fn put_bidding(page: &mut Page, board: &Board, c: Conventions)
    ensures { Puts page.old (of_board (bidding_text c) board.now) page.new }
{
    let Some(calls) = board.section(51) else {
        return;
    };
    put_open(page, b"Auction");
    put_seat(page, c, board.word(53));
    put_close(page);
    put_auction(page, c, &calls, board.word(54));
    put_after(page, &board.remarks, b"Auction");
    put_notes(page, &board.items_from(calls.first), &board.remarks);
}

// The play in force.
pub(crate) fn put_cards(page: &mut Page, board: &Board, c: Conventions)
    ensures { Puts page.old (of_board (cards_text c) board.now) page.new }
{
    let Some(tricks) = board.section(55) else {
        return;
    };
    put_open(page, b"Play");
    put_seat(page, c, board.word(57));
    put_close(page);
    put_play(page, c, &tricks, board.word(58));
    put_after(page, &board.remarks, b"Play");
}
