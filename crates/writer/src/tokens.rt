// Words as they are written: calls, cards, seats, the vulnerability, a result, a table's digits.
ghost use Rattle.std.specs.Prelude.{◌≡◌, ◌<◌, replicate};
ghost use Rattle.reader.specs.Words.{bid_token, call_token, card_token, vulnerability_token};
ghost use Rattle.tables.specs.Puts.{Puts};
ghost use Rattle.tables.specs.Tables.{digit_byte, digits_text};
ghost use Rattle.writer.specs.Held.{card_part};
ghost use Rattle.writer.specs.Tags.{seat_text};
ghost use Rattle.writer.specs.Items.{outcome_text};

use crate::held::Board;
use tables::dd::encode_tricks;
use tables::letters::{Conventions, rank_letter, seat_letter, suit_letter};
use tables::page::Page;

// A level and a strain, of the bid number n from 0.
fn put_bid(page: &mut Page, c: Conventions, n: usize)
    requires { n < 35 }
    ensures { Puts page.old (bid_token c n) page.new }
{
    page.put_byte((49 + n / 5) as u8);
    if n % 5 == 4 {
        page.put_text(b"NT");
        return;
    }
    page.put_byte(suit_letter(c, (n % 5) as u8));
}

fn put_underscores(page: &mut Page, n: usize)
    ensures { Puts page.old (replicate n 95) page.new }
{
    for _i in 0..n {
        page.put_byte(95);
    }
}

// A call by its code: 0, 36, 37 and 38 are PASS, X, XX and PLUS of reader::words, which are bytes, where a code that was read is a word and may
// be any.
pub fn put_call(page: &mut Page, c: Conventions, code: usize)
    ensures { Puts page.old (call_token c code) page.new }
{
    match code {
        0 => page.put_text(b"Pass"),
        1..=35 => put_bid(page, c, code - 1),
        36 => page.put_text(b"X"),
        37 => page.put_text(b"XX"),
        38 => page.put_text(b"+"),
        _ => put_underscores(page, code - 38),
    }
}

// A suit's letter and a rank's. A number below 52 is no type of Rust's, and a struct round it would be made where it is tested, in put_trick
// and in put_slot of lin, and be taken apart here.
pub fn put_card(page: &mut Page, c: Conventions, k: usize)
    requires { k < 52 }
    ensures { Puts page.old (card_token c k) page.new }
{
    page.put_byte(suit_letter(c, (k / 13) as u8));
    page.put_byte(rank_letter(c, (k % 13) as u8));
}

// A seat's letter, nothing for none: a card's word, 4 or more for none, since the definitions seat_text, dealer_text and first_seat take the number.
pub fn put_seat(page: &mut Page, c: Conventions, seat: usize)
    ensures { Puts page.old (seat_text c seat) page.new }
{
    if seat < 4 {
        page.put_byte(seat_letter(c, seat as u8));
    }
}

// The word of a card, any number: those that reading stores are 0 to 3.
pub fn put_vulnerability(page: &mut Page, v: usize)
    ensures { Puts page.old (vulnerability_token v) page.new }
{
    match v {
        0 => page.put_text(b"None"),
        1 => page.put_text(b"NS"),
        2 => page.put_text(b"EW"),
        _ => page.put_text(b"All"),
    }
}

// A result, kept as the result plus 128, in decimal; nothing for none.
pub(crate) fn put_result(page: &mut Page, outcome: Option<u32>)
    ensures { Puts page.old (outcome_text outcome) page.new }
{
    let Some(n) = outcome else {
        return;
    };
    if n < 128 {
        page.put_byte(45);
        page.put_decimal(128 - n);
        return;
    }
    page.put_decimal(n - 128);
}

// A cell's digit; a larger count is written as 13 is.
fn digit_of(w: usize) -> u8
    ensures { result ≡ digit_byte w }
{
    encode_tricks(w.min(13) as u8)
}

// The digits of a board's table: words 18 to 37, any of which may be larger than a byte, which put_digits of tables takes.
pub(crate) fn put_digits(page: &mut Page, board: &Board)
    ensures { Puts page.old (digits_text (card_part board.now.cards.now board.now.index 18 20)) page.new }
{
    for i in 18..38 {
        page.put_byte(digit_of(board.word(i)));
    }
}
