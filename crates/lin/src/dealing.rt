// The deal of a board: a dealer's digit, then the hands of S, W, N, E (parse_md, parse_lin_hand, calculate_fourth_hand).
// Contracts say `unwrap_or result 4` and 52: the definitions take a dealer, a suit and a card by the numbers of tables and reader, where 4
// and 52 are none, so that they compare below 4 and 52 what an Option would have to be matched for.
ghost use Rattle.std.specs.Prelude.{◌≡◌, ◌≤◌, ◌<◌, ◌^◌, ◌&&◌, cond, eqb, length, Some, IfSome, unwrap_or};
ghost use Rattle.tables.specs.Letters.{rank_of};
ghost use Rattle.tables.specs.Text.{starts, trimmed};
ghost use Rattle.reader.specs.Deals.{InDeck, card_count};
ghost use Rattle.reader.specs.DealSteps.{IsGrown, place};
ghost use Rattle.reader.specs.Words.{card_number};
ghost use Rattle.lin.specs.Dealing.{dealer_of, hand_of};
ghost use Rattle.lin.specs.DealingSteps.{letter_step, IsGrownPart, hand_run, are_few, hands_dealt, fields_dealt, told_in};

use crate::pairs::cut;
use reader::deal::{Hands, card_added};
use reader::words::card_number;
use tables::letters::{Conventions, rank_of, suit_of};
use tables::text::{first_character, from, is_inside, trim};

// All 52 cards.
const DECK: u64 = 4503599627370495;

// A hand that is being read: the cards so far, with those of the hands before it, and its suit. That they are below 2 ^ 52 stands in the
// contracts of four functions, and not in a ghost field: each part that specs/DealingSteps.antt makes would have to prove it.
#[derive(Clone, Copy)]
pub struct LinPart {
    pub cards: u64,
    pub suit: Option<u8>,
}

// What is kept of the md in force: its dealer; its hands, where no card stands twice and no hand has more than 13. That the dealer is at
// most 3 stands in contracts, and not in a ghost field: `told` of specs/DealingSteps.antt makes one of any dealing, and would have to ask
// for the bound.
#[derive(Clone, Copy)]
pub struct LinDealing {
    pub dealer: usize,
    pub hands: Option<Hands>,
}

// 1 to 4 are S, W, N, E.
#[tactic(auto, unfolding(crate::specs::Dealing::dealer_of))]
fn dealer_of(b: u8) -> Option<usize>
    ensures { (unwrap_or result 4 ≡ dealer_of b) × IfSome result (λ d. d ≤ 3) }
{
    match b {
        b'1' => Some(2),
        b'2' => Some(3),
        b'3' => Some(0),
        b'4' => Some(1),
        _ => None,
    }
}

// The card of a rank's letter in the suit before it.
fn card_of(c: Conventions, suit: Option<u8>, b: u8) -> Option<u8>
    ensures { (unwrap_or result 52 ≡ card_number (unwrap_or suit 4) (rank_of c b)) × IfSome result (λ k. k < 52) }
{
    card_number(suit?, rank_of(c, b)?)
}

// One character of a hand: a suit's letter, a rank's, or another; None where a card stands twice.
#[tactic(auto, unfolding(crate::specs::DealingSteps::letter_step))]
fn hand_step(c: Conventions, h: LinPart, b: u8) -> Option<LinPart>
    requires { h.cards < 2 ^ 52 }
    ensures { (result ≡ letter_step c h b) × IsGrownPart h.cards result }
{
    if let Some(suit) = suit_of(c, b) {
        return Some(LinPart {
            suit: Some(suit),
            ..h
        });
    }
    let Some(k) = card_of(c, h.suit, b) else {
        return Some(h);
    };
    let cards = card_added(h.cards, k)?;
    Some(LinPart { cards, ..h })
}

// The characters that start in s, which follows a hand's first byte.
fn hand_rest(c: Conventions, start: LinPart, s: &[u8]) -> Option<u64>
    requires { start.cards < 2 ^ 52 }
    ensures { (result ≡ hand_run c start (starts s.now)) × IsGrown start.cards result }
{
    let mut h = start;
    for (i, b) in s.iter().enumerate() {
        if !is_inside(*b) {
            h = hand_step(c, h, first_character(from(s, i)))?;
        }
    }
    Some(h.cards)
}

// The hand of a field, put to the cards of the hands before it.
fn read_hand(c: Conventions, seen: u64, field: &[u8]) -> Option<u64>
    requires { seen < 2 ^ 52 }
    ensures { (result ≡ place seen (hand_of c field.now)) × IsGrown seen result }
{
    if field.is_empty() {
        return Some(seen);
    }
    let start = LinPart {
        cards: seen,
        suit: None,
    };
    let h = hand_step(c, start, first_character(field))?;
    hand_rest(c, h, from(field, 1))
}

#[tactic(auto, using(reader::proofs::CardSets::count_is))]
fn has_thirteen(x: u64) -> bool
    ensures { result ≡ eqb (card_count x) 13 }
{
    x.count_ones() == 13
}

// No hand has more than 13 cards.
#[tactic(auto, using(reader::proofs::CardSets::count_is))]
fn are_few(h: Hands) -> bool
    ensures { result ≡ are_few h }
{
    (h.south.count_ones() <= 13)
        & ((h.west.count_ones() <= 13)
            & ((h.north.count_ones() <= 13) & (h.east.count_ones() <= 13)))
}

// East's hand, which is all other cards where its field is missing or white and the other hands are full.
fn read_east(c: Conventions, seen: u64, full: bool, field: &[u8]) -> Option<u64>
    requires { seen < 2 ^ 52 }
    ensures { (result ≡ cond (eqb (length (trimmed field.now)) 0 && full) (Some 4503599627370495) (place seen (hand_of c field.now))) × IsGrown seen result }
{
    if trim(field).is_empty() & full {
        return Some(DECK);
    }
    read_hand(c, seen, field)
}

// The hands of four fields, S, W, N, E.
fn read_hands(c: Conventions, s: &[u8], w: &[u8], n: &[u8], e: &[u8]) -> Option<Hands>
    ensures { (result ≡ hands_dealt c s.now w.now n.now e.now) × IfSome result InDeck }
{
    let a = read_hand(c, 0, s)?;
    let b = read_hand(c, a, w)?;
    let d = read_hand(c, b, n)?;
    let full = has_thirteen(a) & (has_thirteen(b - a) & has_thirteen(d - b));
    let x = read_east(c, d, full, e)?;
    let hands = Hands {
        north: d - b,
        east: x - d,
        south: a,
        west: b - a,
    };
    are_few(hands).then_some(hands)
}

// The hands behind a dealer's digit.
fn read_deal(c: Conventions, s: &[u8]) -> Option<Hands>
    ensures { (result ≡ fields_dealt c s.now) × IfSome result InDeck }
{
    let (south, others) = cut(s, b',');
    let (west, others) = cut(others, b',');
    let (north, others) = cut(others, b',');
    let (east, _) = cut(others, b',');
    read_hands(c, south, west, north, east)
}

// What an md value, trimmed, leaves of the md in force.
pub(crate) fn deal_in(c: Conventions, d: LinDealing, value: &[u8]) -> LinDealing
    ensures { result ≡ told_in c d value.now }
{
    let Some(dealer) = dealer_of(first_character(value)) else {
        return d;
    };
    LinDealing {
        dealer,
        hands: read_deal(c, from(value, 1)),
    }
}
