// The four hands of a deal: read from a Deal tag's value, counted, and as words. A hand is a number with bit 13 x suit + rank for
// each of its cards: suits C D H S from 0, 2 is rank 0.
ghost use Rattle.std.specs.Prelude.{◌≡◌, ◌+◌, ◌*◌, ◌^◌, ◌≤◌, ◌<◌, IfSome};
ghost use Rattle.tables.specs.Text.{word};
ghost use Rattle.reader.specs.Deals.{has, is_dash, hands_after, turned, deal_in, deal_of, InDeck, whole_hands, hand_words, hands_of_words};
ghost use Rattle.reader.specs.DealSteps.{card_added, add_card, IsGrown, step_of, Fine, IsFine, end_of, run_from, start_hand, hand_into, deal_words};

use crate::store::low_word;
use tables::letters::{Conventions, rank_of, seat_of};
use tables::text::{byte_at, from, is_white, next_words, trim, word_len};

// By name, not an array by seat: the definitions and theorems of 11 files of specs/ speak of Hands by these names, and an array is to them
// a list of any length (see `Slots`).
#[derive(Clone, Copy)]
pub struct Hands {
    pub north: u64,
    pub east: u64,
    pub south: u64,
    pub west: u64,
}

// A hand that is being read: the cards so far, with those of the hands before it; its suit; the cards that it may still take.
#[derive(Clone, Copy)]
pub struct PartHand {
    pub cards: u64,
    pub suit: u8,
    pub room: u8,
}

// A card k, here and below, is a number that was just read or computed (13 x suit + rank): a type of numbers below 52 would be made at
// each call and opened in it.
pub fn power(k: u8) -> u64
    requires { k < 52 }
    ensures { result ≡ 2 ^ k }
{
    1u64 << k
}

// Is card k in x?
pub fn holds(x: u64, k: u8) -> bool
    requires { k < 52 }
    ensures { result ≡ has k x }
{
    (x >> k) % 2 == 1
}

// The card k put to the cards x, None where it is there.
pub fn card_added(x: u64, k: u8) -> Option<u64>
    requires { (x < 2 ^ 52) × (k < 52) }
    ensures { (result ≡ card_added x k) × IsGrown x result }
{
    if holds(x, k) {
        return None;
    }
    Some(x + power(k))
}

// The card of suit s whose rank is b, put to the cards x.
#[tactic(auto, unfolding(crate::specs::DealSteps::add_card))]
fn add_card(c: Conventions, x: u64, s: u8, b: u8) -> Option<u64>
    requires { (x < 2 ^ 52) × (s ≤ 3) }
    ensures { (result ≡ add_card c x s b) × IsGrown x result }
{
    let k = rank_of(c, b)?;
    card_added(x, 13 * s + k)
}

// One byte of a hand: a dot ends a suit, any other byte is a rank.
#[tactic(auto, unfolding(crate::specs::DealSteps::step_of))]
fn stepped(c: Conventions, h: PartHand, b: u8) -> Option<PartHand>
    requires { Fine h }
    ensures { (result ≡ step_of c h b) × IsFine h.cards result }
{
    if b == b'.' {
        if h.suit == 0 {
            return None;
        }
        let suit = h.suit - 1;
        return Some(PartHand { suit, ..h });
    }
    if h.room == 0 {
        return None;
    }
    let cards = add_card(c, h.cards, h.suit, b)?;
    let room = h.room - 1;
    Some(PartHand { cards, room, ..h })
}

// A hand ends in clubs.
#[tactic(auto, unfolding(crate::specs::DealSteps::end_of))]
fn end_of(h: PartHand) -> Option<u64>
    ensures { result ≡ end_of h }
{
    (h.suit == 0).then_some(h.cards)
}

// The suits of the first field of s. `seen < 2 ^ 52` stands here, at `read_hand`, `add_card` and `card_added`: a struct of cards would
// be opened at each step, since hands are what one such number has more than another.
fn read_suits(c: Conventions, seen: u64, s: &[u8]) -> Option<u64>
    requires { seen < 2 ^ 52 }
    ensures { (result ≡ run_from c (word s.now) (start_hand seen)) × IsGrown seen result }
{
    let mut h = PartHand {
        cards: seen,
        suit: 3,
        room: 13,
    };
    for b in s {
        if is_white(*b) {
            return end_of(h);
        }
        h = stepped(c, h, *b)?;
    }
    end_of(h)
}

// Is the first field of s a dash?
fn dash(s: &[u8]) -> bool
    ensures { result ≡ is_dash (word s.now) }
{
    byte_at(s, 0) == b'-' && word_len(s) == 1
}

// The hand that is the first field of s, put to the cards of the hands before it.
#[tactic(auto, using(crate::proofs::DealLaws::dash_into, crate::proofs::DealLaws::suits_into))]
fn read_hand(c: Conventions, seen: u64, s: &[u8]) -> Option<u64>
    requires { seen < 2 ^ 52 }
    ensures { (result ≡ hand_into c seen (word s.now)) × IsGrown seen result }
{
    if dash(s) {
        return Some(seen);
    }
    read_suits(c, seen, s)
}

// Four hands, in the order of the text.
#[tactic(auto, unfolding(crate::specs::DealSteps::deal_words))]
fn deal_words(c: Conventions, s: &[u8], t: &[u8], u: &[u8], v: &[u8]) -> Option<Hands>
    ensures { (result ≡ deal_words c (word s.now) (word t.now) (word u.now) (word v.now)) × IfSome result InDeck }
{
    let a = read_hand(c, 0, s)?;
    let b = read_hand(c, a, t)?;
    let d = read_hand(c, b, u)?;
    let e = read_hand(c, d, v)?;
    Some(Hands {
        north: a,
        east: b - a,
        south: d - b,
        west: e - d,
    })
}

// What stands after the colon: exactly four hands, and no white space before the first.
fn read_hands(c: Conventions, s: &[u8]) -> Option<Hands>
    ensures { (result ≡ hands_after c s.now) × IfSome result InDeck }
{
    if is_white(byte_at(s, 0)) {
        return None;
    }
    let t = next_words(s);
    let u = next_words(t);
    let v = next_words(u);
    if v.is_empty() {
        return None;
    }
    if !next_words(v).is_empty() {
        return None;
    }
    deal_words(c, s, t, u, v)
}

// Hands that stand clockwise from a seat, as N, E, S, W: each goes one seat on, as many times as the seat's number.
fn turn(seat: u8, mut h: Hands) -> Hands
    ensures { result ≡ turned seat h }
{
    for _i in 0..seat {
        h = Hands {
            north: h.west,
            east: h.north,
            south: h.east,
            west: h.south,
        };
    }
    h
}

// A seat's letter, a colon, four hands.
fn deal_in(c: Conventions, v: &[u8]) -> Option<Hands>
    ensures { (result ≡ deal_in c v.now) × IfSome result InDeck }
{
    if byte_at(v, 1) != b':' {
        return None;
    }
    let seat = seat_of(c, byte_at(v, 0))?;
    let h = read_hands(c, from(v, 2))?;
    Some(turn(seat, h))
}

// Reads the value of a Deal tag.
#[tactic(auto, unfolding(crate::specs::Deals::deal_of))]
pub(crate) fn read_deal(c: Conventions, value: &[u8]) -> Option<Hands>
    ensures { (result ≡ deal_of c value.now) × IfSome result InDeck }
{
    deal_in(c, trim(value))
}

// 13 cards in each hand.
#[tactic(auto, using(crate::proofs::CardSets::count_is), unfolding(crate::specs::Deals::whole_hands))]
pub fn is_whole(h: Hands) -> bool
    ensures { result ≡ whole_hands h }
{
    (h.north.count_ones() == 13)
        & (h.east.count_ones() == 13)
        & (h.south.count_ones() == 13)
        & (h.west.count_ones() == 13)
}

// A number of 64 bits from its words: no method of the library makes a u64 of two, and from_le_bytes takes bytes.
pub fn from_words(low: u32, high: u32) -> u64
    ensures { result ≡ high * 4294967296 + low }
{
    u64::from(high) * 4294967296 + u64::from(low)
}

// The hands as words: N, E, S, W, the low word first.
#[tactic(auto, unfolding(crate::specs::Deals::hand_words))]
pub(crate) fn hand_words(h: Hands) -> [u32; 8]
    ensures { result ≡ hand_words h }
{
    [
        low_word(h.north as usize),
        low_word((h.north >> 32) as usize),
        low_word(h.east as usize),
        low_word((h.east >> 32) as usize),
        low_word(h.south as usize),
        low_word((h.south >> 32) as usize),
        low_word(h.west as usize),
        low_word((h.west >> 32) as usize),
    ]
}

#[tactic(auto, unfolding(crate::specs::Deals::hands_of_words))]
pub fn hands_of_words(w: [u32; 8]) -> Hands
    ensures { result ≡ hands_of_words w }
{
    Hands {
        north: from_words(w[0], w[1]),
        east: from_words(w[2], w[3]),
        south: from_words(w[4], w[5]),
        west: from_words(w[6], w[7]),
    }
}
