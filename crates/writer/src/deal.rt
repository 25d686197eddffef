// The value of a Deal tag.
ghost use Rattle.std.specs.Prelude.{◌≡◌, ◌+◌, ◌<◌};
ghost use Rattle.reader.specs.Deals.{from_words, hands_of_words, back, clockwise, suit_text, hand_text, hands_text, deal_text};
ghost use Rattle.tables.specs.Puts.{Puts};
ghost use Rattle.writer.specs.Held.{card_part};
ghost use Rattle.writer.specs.BoardTexts.{word_of};

use crate::held::Board;
use reader::deal::{Hands, from_words, holds};
use tables::letters::{Conventions, rank_letter, seat_letter};
use tables::page::Page;

// The hand in the words i and i + 1 of a board's card.
fn hand_at(board: &Board, i: usize) -> u64
    requires { i < 63 }
    ensures { result ≡ from_words (word_of board.now i) (word_of board.now (i + 1)) }
{
    from_words(board.word(i) as u32, board.word(i + 1) as u32)
}

// The hands of a board: words 10 to 17, by their places, since a board has no card of its own (see Board).
pub(crate) fn hands_at(board: &Board) -> Hands
    ensures { result ≡ hands_of_words (card_part board.now.cards.now board.now.index 10 8) }
{
    let north = hand_at(board, 10);
    let east = hand_at(board, 12);
    let south = hand_at(board, 14);
    let west = hand_at(board, 16);
    Hands {
        north,
        east,
        south,
        west,
    }
}

// Every hand goes one seat back: the other way than that in which reading turns hands. By `turn` of reader, from_seat would go round 4 less the
// seat, and its proof would have to show that four turns are none.
fn turned_back(h: Hands) -> Hands
    ensures { result ≡ back h }
{
    Hands {
        north: h.east,
        east: h.south,
        south: h.west,
        west: h.north,
    }
}

// The hands clockwise from a seat, the first as N's.
fn from_seat(h: Hands, seat: usize) -> Hands
    requires { seat < 4 }
    ensures { result ≡ clockwise seat h }
{
    let mut turned = h;
    for _k in 0..seat {
        turned = turned_back(turned);
    }
    turned
}

// The ranks of the suit s in x, from high to low.
fn put_suit(page: &mut Page, c: Conventions, s: u8, x: u64)
    requires { s < 4 }
    ensures { Puts page.old (suit_text c s x) page.new }
{
    for rank in (0..13u8).rev() {
        if holds(x, 13 * s + rank) {
            page.put_byte(rank_letter(c, rank));
        }
    }
}

// A dash for no card, else four suits, spades first.
fn put_hand(page: &mut Page, c: Conventions, x: u64)
    ensures { Puts page.old (hand_text c x) page.new }
{
    if x == 0 {
        page.put_byte(45);
        return;
    }
    put_suit(page, c, 3, x);
    page.put_byte(46);
    put_suit(page, c, 2, x);
    page.put_byte(46);
    put_suit(page, c, 1, x);
    page.put_byte(46);
    put_suit(page, c, 0, x);
}

// Four hands with a blank between them.
fn put_hands(page: &mut Page, c: Conventions, h: Hands)
    ensures { Puts page.old (hands_text c h) page.new }
{
    put_hand(page, c, h.north);
    page.put_byte(32);
    put_hand(page, c, h.east);
    page.put_byte(32);
    put_hand(page, c, h.south);
    page.put_byte(32);
    put_hand(page, c, h.west);
}

// A deal from a seat on. The seat is below 4 as a bound of turns: an enum of seats would be turned back for the letter's index, as at cell_of
// of tables.
pub fn put_deal(page: &mut Page, c: Conventions, seat: usize, h: Hands)
    requires { seat < 4 }
    ensures { Puts page.old (deal_text c seat h) page.new }
{
    page.put_byte(seat_letter(c, seat as u8));
    page.put_byte(58);
    put_hands(page, c, from_seat(h, seat));
}
