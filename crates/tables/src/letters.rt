// The letters of seats, suits, strains and ranks, by conventions that a caller passes by value. Seats, suits, strains and ranks are
// numbers, as in a card's words, which C reads; specs/Letters.antt counts with them.
//
// Each reading answers an Option, and its contract turns none into the number that specs/Letters.antt has for it (4 of a seat or a suit, 5
// of a strain, 13 of a rank): the definitions of the layers above compare these numbers, and a card's words in C hold the 4.
ghost use Rattle.std.specs.Prelude.{◌≡◌, ◌<◌, cond, eqb, unwrap_or, Some, IfSome};
ghost use Rattle.tables.specs.Letters.{built_in, capital, seat_of, suit_of, honour_of, rank_of, suit_strain, strain_of, seat_letter, suit_letter, rank_letter};

use crate::text::{byte_at, index_of};

// north, east, south, west, spades, hearts, diamonds, clubs, ace, king, queen, jack, ten: a type of its own, so that no other
// thirteen bytes pass for letters
#[derive(Clone, Copy)]
pub struct Conventions {
    pub letters: [u8; 13],
}

// The built-in letters: NESW, SHDC, AKQJT.
#[tactic(auto, unfolding(crate::specs::Letters::built_in))]
pub fn built_in() -> Conventions
    ensures { result ≡ built_in }
{
    Conventions {
        letters: *b"NESWSHDCAKQJT",
    }
}

// A letter a to z as its capital, any other byte as it is: the library's method, with the contract in the words of specs/Letters.antt.
#[tactic(auto, unfolding(crate::specs::Letters::capital))]
pub fn to_capital(b: u8) -> u8
    ensures { result ≡ capital b }
{
    b.to_ascii_uppercase()
}

#[tactic(auto, unfolding(crate::specs::Letters::seat_of))]
pub fn seat_of(c: Conventions, b: u8) -> Option<u8>
    ensures { (unwrap_or result 4 ≡ seat_of c b) × IfSome result (λ s. s < 4) }
{
    let seat = index_of(&c.letters[..4], to_capital(b));
    (seat < 4).then_some(seat as u8)
}

// x or y. Which letter comes next cannot be foreseen, so that a branch on one costs more than a comparison with all of them:
// `position` or a branch for each letter takes five times as long here; reading fell by a fifth without the branches (docs/SPEED.md).
fn choose(test: bool, x: u8, y: Option<u8>) -> Option<u8>
    ensures { result ≡ cond test (Some x) y }
{
    if test { Some(x) } else { y }
}

pub fn suit_of(c: Conventions, b: u8) -> Option<u8>
    ensures { (unwrap_or result 4 ≡ suit_of c b) × IfSome result (λ s. s < 4) }
{
    let l = c.letters;
    let k = to_capital(b);
    let clubs = choose(l[7] == k, 0, None);
    let diamonds = choose(l[6] == k, 1, clubs);
    let hearts = choose(l[5] == k, 2, diamonds);
    choose(l[4] == k, 3, hearts)
}

// The rank of an honour's letter.
fn honour_of(c: Conventions, b: u8) -> Option<u8>
    ensures { (unwrap_or result 13 ≡ honour_of c b) × IfSome result (λ r. r < 13) }
{
    let l = c.letters;
    let k = to_capital(b);
    let ten = choose(l[12] == k, 8, None);
    let jack = choose(l[11] == k, 9, ten);
    let queen = choose(l[10] == k, 10, jack);
    let king = choose(l[9] == k, 11, queen);
    choose(l[8] == k, 12, king)
}

#[tactic(auto, unfolding(crate::specs::Letters::rank_of))]
pub fn rank_of(c: Conventions, b: u8) -> Option<u8>
    ensures { (unwrap_or result 13 ≡ rank_of c b) × IfSome result (λ r. r < 13) }
{
    // Before the match, so that no branch on the letter stands in front of it (see `choose`).
    let honour = honour_of(c, b);
    match b {
        b'2'..=b'9' => Some(b - b'2'),
        _ => honour,
    }
}

// A strain of one letter.
fn letter_strain(c: Conventions, b: u8) -> Option<u8>
    ensures { (unwrap_or result 5 ≡ cond (eqb (capital b) 78) 4 (suit_strain (suit_of c b))) × IfSome result (λ s. s < 5) }
{
    if to_capital(b) == b'N' {
        return Some(4);
    }
    suit_of(c, b)
}

pub fn strain_of(c: Conventions, token: &[u8]) -> Option<u8>
    ensures { (unwrap_or result 5 ≡ strain_of c token.now) × IfSome result (λ s. s < 5) }
{
    match token {
        [b] => letter_strain(c, *b),
        [n, t] if (to_capital(*n) == b'N') & (to_capital(*t) == b'T') => Some(4),
        _ => None,
    }
}

// The letter of a seat 0 to 3. A caller never asks for another; the answer is then another letter, or 0: it asks nothing of its callers.
pub fn seat_letter(c: Conventions, seat: u8) -> u8
    ensures { result ≡ seat_letter c seat }
{
    byte_at(&c.letters, seat as usize)
}

pub fn suit_letter(c: Conventions, suit: u8) -> u8
    requires { suit < 4 }
    ensures { result ≡ suit_letter c suit }
{
    c.letters[(7 - suit) as usize]
}

pub fn rank_letter(c: Conventions, rank: u8) -> u8
    requires { rank < 13 }
    ensures { result ≡ rank_letter c rank }
{
    if rank < 8 {
        return b'2' + rank;
    }
    c.letters[(20 - rank) as usize]
}
