// The vulnerability (parse_sv), the calls, the contract and its declarer. A contract says `unwrap_or result 47` since the definition of a
// LIN call ends in that of a PBN call, whose number for none is 47.
ghost use Rattle.std.specs.Prelude.{◌≡◌, ◌≤◌, ◌<◌, IfSome, unwrap_or};
ghost use Rattle.tables.specs.Puts.{Puts};
ghost use Rattle.lin.specs.Bidding.{vulnerability_in, unalerted, call_in, calls_from, is_bid, strain, next_seat, with_call, names, first_to_name};
ghost use Rattle.lin.specs.BiddingSteps.{call_at, last_text};
ghost use Rattle.lin.specs.Pairs.{pairs_of};
ghost use Rattle.lin.specs.PairSteps.{pair_of};

use crate::pairs::{Command, PairAt, pairs_in};
use reader::words::{X, XX, call_code, same_word};
use tables::letters::Conventions;
use tables::page::Page;
use writer::tokens::put_call;

// n or ns is 1, e or ew 2, b, both or all 3, anything else 0, as put_vulnerability takes it: its one use would make an enum the number again.
#[tactic(auto, unfolding(crate::specs::Bidding::vulnerability_in))]
pub(crate) fn vulnerability_in(t: &[u8]) -> u8
    ensures { (result ≡ vulnerability_in t.now) × (result ≤ 3) }
{
    if same_word(b"N", t) | same_word(b"NS", t) {
        return 1;
    }
    if same_word(b"E", t) | same_word(b"EW", t) {
        return 2;
    }
    if same_word(b"B", t) | (same_word(b"BOTH", t) | same_word(b"ALL", t)) {
        return 3;
    }
    0
}

// A text less all `!` at its end.
fn less_alerts(s: &[u8]) -> &[u8]
    ensures { result.now ≡ unalerted s.now }
{
    let mut kept = s;
    while let Some((last, front)) = kept.split_last() {
        if *last != b'!' {
            return kept;
        }
        kept = front;
    }
    kept
}

// The code of a call.
#[tactic(auto, unfolding(crate::specs::Bidding::call_in, crate::specs::Bidding::call_named))]
pub(crate) fn call_in(c: Conventions, value: &[u8]) -> Option<u8>
    ensures { (unwrap_or result 47 ≡ call_in c value.now) × IfSome result (λ k. k < 47) }
{
    let t = less_alerts(value);
    if same_word(b"D", t) {
        return Some(X);
    }
    if same_word(b"R", t) {
        return Some(XX);
    }
    call_code(c, t)
}

// The call of a pair, where it is one.
pub(crate) fn call_at(c: Conventions, p: PairAt) -> Option<u8>
    ensures { result ≡ call_at c (pair_of p.entry) }
{
    if p.command == Command::Mb {
        return call_in(c, p.value);
    }
    None
}

// The last bid, 0 where there is none; the seat that made it, counted from the dealer; the last X or XX behind it, or 0. An Option would be
// no plainer: put_contract, put_play and declarer_of would each match it where they test `bid == 0`, and since the theorems speak of the
// contract with 0, a second type with a function to the first would stand in the specs.
#[derive(Clone, Copy)]
pub struct Contract {
    pub bid: u8,
    pub bidder: u8,
    pub doubling: u8,
}

fn is_bid(code: u8) -> bool
    ensures { result ≡ is_bid code }
{
    matches!(code, 1..=35)
}

pub(crate) fn next_seat(seat: u8) -> u8
    ensures { (result ≡ next_seat seat) × (result ≤ 3) }
{
    (seat % 4 + 1) % 4
}

// The contract after one more call, by a seat.
#[tactic(auto, unfolding(crate::specs::Bidding::with_call))]
pub(crate) fn with_call(seat: u8, k: Contract, code: u8) -> Contract
    ensures { result ≡ with_call seat k code }
{
    if is_bid(code) {
        return Contract {
            bid: code,
            bidder: seat,
            doubling: 0,
        };
    }
    if ((code == X) | (code == XX)) & (0 < k.bid) {
        return Contract {
            doubling: code,
            ..k
        };
    }
    k
}

// The strain of a bid; 0, as of clubs, without one.
pub(crate) fn strain_of(bid: u8) -> u8
    ensures { result ≡ strain bid }
{
    bid.saturating_sub(1) % 5
}

// A bid of the contract's strain by its side.
#[tactic(auto, unfolding(crate::specs::Bidding::names))]
fn is_named(k: Contract, seat: u8, code: u8) -> bool
    ensures { result ≡ names k seat code }
{
    is_bid(code) & ((strain_of(code) == strain_of(k.bid)) & (seat % 2 == k.bidder % 2))
}

// The first of the last bid's side to name its strain, counted from the dealer. Where there is a bid there is one; 4, and no Option, behind
// the last call, since declarer_of would only unwrap it to 4, with which its definition counts.
pub(crate) fn first_to_name(c: Conventions, text: &[u8], k: Contract) -> u8
    ensures { (result ≡ first_to_name k 0 (calls_from c (pairs_of text.now))) × (result ≤ 4) }
{
    let mut seat: u8 = 0;
    for p in pairs_in(text) {
        let Some(code) = call_at(c, p) else {
            continue;
        };
        if is_named(k, seat, code) {
            return seat;
        }
        seat = next_seat(seat);
    }
    4
}

// A contract: the bid, then X or XX.
#[tactic(auto, unfolding(crate::specs::BiddingSteps::last_text))]
pub(crate) fn put_contract(page: &mut Page, c: Conventions, k: Contract)
    ensures { Puts page.old (last_text c k) page.new }
{
    if k.bid == 0 {
        return;
    }
    put_call(page, c, k.bid as usize);
    if k.doubling == 0 {
        return;
    }
    put_call(page, c, k.doubling as usize);
}
