// The meanings of words: calls, cards, contracts, vulnerability. Definitions have numbers for none: 47 of a call, 52 of
// a card, 0 of a level, 4 of a trump or a vulnerability; specs of the writer, of lin and of the demands compare those numbers, so that
// they stay, and a contract here says an Option by them.
ghost use Rattle.std.specs.Prelude.{◌≡◌, ◌≤◌, ◌<◌, length, IfSome, unwrap_or};
ghost use Rattle.reader.specs.Words.{same_word, level_of, bid_code, bid_of, is_pass, underscore_code, sign_code, call_of, is_mark, call_part, is_all_pass, is_doubling, contract_trump, is_no_side, is_both_sides, vulnerability_of, card_number, card_named};

use tables::letters::{Conventions, rank_of, strain_of, suit_of, to_capital};
use tables::text::{byte_at, first_character, from, is_inside, upto};

// The codes of calls that are no bids, as in an entry of a call; bids are 1 to 35, underscores 39 to 46.
pub const PASS: u8 = 0;

pub const X: u8 = 36;

pub const XX: u8 = 37;

pub const PLUS: u8 = 38;

// A word in capitals, and a token in either case. `eq_ignore_ascii_case` would take a word in small letters too.
pub fn same_word(word: &[u8], token: &[u8]) -> bool
    ensures { result ≡ same_word word.now token.now }
{
    word.len() == token.len() && word.iter().zip(token).all(|(w, t)| *w == to_capital(*t))
}

// The level of a digit 1 to 7.
#[tactic(auto, unfolding(crate::specs::Words::level_of))]
fn level_of(b: u8) -> Option<u8>
    ensures { (unwrap_or result 0 ≡ level_of b) × IfSome result (λ l. (1 ≤ l) × (l ≤ 7)) }
{
    match b {
        b'1'..=b'7' => Some(b - b'0'),
        _ => None,
    }
}

// The code of a level and a strain.
#[tactic(auto, using(crate::proofs::WordLaws::bid_is), unfolding(crate::specs::Words::bid_code))]
fn bid_of(c: Conventions, token: &[u8]) -> Option<u8>
    ensures { (unwrap_or result 47 ≡ bid_of c token.now) × IfSome result (λ k. k < 47) }
{
    let level = level_of(byte_at(token, 0))?;
    let strain = strain_of(c, from(token, 1))?;
    Some(5 * (level - 1) + strain + 1)
}

#[tactic(auto, unfolding(crate::specs::Words::is_pass))]
fn is_pass(token: &[u8]) -> bool
    ensures { result ≡ is_pass token.now }
{
    same_word(b"PASS", token) | same_word(b"P", token) | matches!(token, [b'-'])
}

// One to eight underscores are 39 to 46.
#[tactic(auto, unfolding(crate::specs::Words::underscore_code))]
fn underscore_code(token: &[u8]) -> Option<u8>
    ensures { (unwrap_or result 47 ≡ underscore_code token.now) × IfSome result (λ k. k < 47) }
{
    let n = token.len();
    if n == 0 || n > 8 {
        return None;
    }
    (upto(b"________", n) == token).then_some(PLUS + n as u8)
}

// A call that is no bid.
#[tactic(auto, unfolding(crate::specs::Words::sign_code))]
fn sign_code(token: &[u8]) -> Option<u8>
    ensures { (unwrap_or result 47 ≡ sign_code token.now) × IfSome result (λ k. k < 47) }
{
    if is_pass(token) {
        return Some(PASS);
    }
    if same_word(b"X", token) {
        return Some(X);
    }
    if same_word(b"XX", token) {
        return Some(XX);
    }
    if matches!(token, [b'+']) {
        return Some(PLUS);
    }
    underscore_code(token)
}

// The code of a call; nothing where the token is none.
#[tactic(auto, unfolding(crate::specs::Words::call_of))]
pub fn call_code(c: Conventions, token: &[u8]) -> Option<u8>
    ensures { (unwrap_or result 47 ≡ call_of c token.now) × IfSome result (λ k. k < 47) }
{
    if let Some(bid) = bid_of(c, token) {
        return Some(bid);
    }
    sign_code(token)
}

// Whether an annotation begins here.
#[tactic(auto, unfolding(crate::specs::Words::is_mark))]
fn is_mark(b: u8) -> bool
    ensures { result ≡ is_mark b }
{
    matches!(b, b'=' | b'!' | b'?' | b'$')
}

// The number of bytes before a token's annotation.
pub(crate) fn call_len(token: &[u8]) -> usize
    ensures { (result ≡ length (call_part token.now)) × (result ≤ length token.now) }
{
    token
        .iter()
        .position(|b| is_mark(*b))
        .unwrap_or(token.len())
}

// AP, all pass.
#[tactic(auto, unfolding(crate::specs::Words::is_all_pass))]
pub(crate) fn is_all_pass(token: &[u8]) -> bool
    ensures { result ≡ is_all_pass token.now }
{
    same_word(b"AP", token)
}

// Nothing, X or XX.
#[tactic(auto, using(crate::proofs::WordLaws::nothing_is), unfolding(crate::specs::Words::is_doubling))]
fn is_doubling(t: &[u8]) -> bool
    ensures { result ≡ is_doubling t.now }
{
    t.is_empty() | same_word(b"X", t) | same_word(b"XX", t)
}

// The trump suit of a contract, 4 for notrump or no contract: word 59 of a card in C, and a number that no suit is equal to.
#[tactic(auto, using(crate::proofs::WordLaws::contract_is))]
pub(crate) fn contract_trump(c: Conventions, value: &[u8]) -> u8
    ensures { (result ≡ contract_trump c value.now) × (result ≤ 4) }
{
    if level_of(byte_at(value, 0)).is_none() {
        return 4;
    }
    if is_doubling(from(value, 2)) {
        return strain_of(c, upto(from(value, 1), 1)).unwrap_or(4);
    }
    4
}

#[tactic(auto, unfolding(crate::specs::Words::is_no_side))]
fn is_no_side(value: &[u8]) -> bool
    ensures { result ≡ is_no_side value.now }
{
    same_word(b"NONE", value) | same_word(b"LOVE", value) | matches!(value, [b'-'])
}

#[tactic(auto, unfolding(crate::specs::Words::is_both_sides))]
fn is_both_sides(value: &[u8]) -> bool
    ensures { result ≡ is_both_sides value.now }
{
    same_word(b"ALL", value) | same_word(b"BOTH", value)
}

// 0 none, 1 NS, 2 EW, 3 all, as the C interface's word of a card says it; 4 where it is no vulnerability, as `Identity` keeps it: an
// Option would become that number in the one place that calls.
#[tactic(auto, unfolding(crate::specs::Words::vulnerability_of))]
pub(crate) fn vulnerability_of(value: &[u8]) -> u8
    ensures { (result ≡ vulnerability_of value.now) × (result ≤ 4) }
{
    if is_no_side(value) {
        return 0;
    }
    if same_word(b"NS", value) {
        return 1;
    }
    if same_word(b"EW", value) {
        return 2;
    }
    if is_both_sides(value) {
        return 3;
    }
    4
}

// The number of a card; nothing where suit or rank is none.
#[tactic(auto, unfolding(crate::specs::Words::card_number))]
pub fn card_number(suit: u8, rank: u8) -> Option<u8>
    ensures { (unwrap_or result 52 ≡ card_number suit rank) × IfSome result (λ k. k < 52) }
{
    if suit > 3 || rank > 12 {
        return None;
    }
    Some(13 * suit + rank)
}

// The card that a token's first two characters name.
#[tactic(auto, using(crate::proofs::WordLaws::card_short, crate::proofs::WordLaws::card_long), unfolding(crate::specs::Words::card_number))]
pub fn card_named(c: Conventions, token: &[u8]) -> Option<u8>
    ensures { (unwrap_or result 52 ≡ card_named c token.now) × IfSome result (λ k. k < 52) }
{
    let [suit, rank, ..] = token else {
        return None;
    };
    if is_inside(*rank) {
        return None;
    }
    let suit = suit_of(c, *suit)?;
    let rank = rank_of(c, first_character(from(token, 1)))?;
    card_number(suit, rank)
}
