// The auction section (parse_auction).
ghost use Rattle.std.specs.Prelude.{◌≡◌, ◌+◌, ◌*◌, ◌≤◌, ◌^◌, length};
ghost use Rattle.reader.specs.PieceSteps.{Emits, piece};
ghost use Rattle.reader.specs.Auction.{call_token_of, bidding, called, call_out, passes_out, called_piece};
ghost use Rattle.reader.specs.TokenSteps.{CallInside};

use crate::store::{ANNOTATION, CALL, Entries};
use crate::tokens::tokens_in;
use crate::words::{PASS, PLUS, call_code, call_len, is_all_pass};
use tables::letters::Conventions;
use tables::text::upto;

// What a token of an auction is: an enum matched once, since the definitions call_token_of and called_by of specs/Auction.antt say what a
// token is and what it does apart, over this enum.
#[derive(Clone, Copy)]
pub enum CallToken {
    Plus,
    Star,
    AllPass,
    Annotation,
    Call(u8, usize),
    NoCall,
}

// Bidding so far; before the first token it is the default. `any`, whether a token was met, `made`, whether a call was, to which an
// annotation alone goes, and `stopped` are facts with no value of their own: `end` (0, 1 or 2, as the card has it) and `count` are 0 before
// the first token too, and are read then, so that each use of an Option<Bidding> would begin with unwrap_or_default. The bounds of `count`
// stand in contracts for the reason at Entries (store.rt).
#[derive(Clone, Copy, Default)]
pub struct Bidding {
    pub end: usize,
    pub count: usize,
    // Side by side, as those of `Tricks`.
    pub any: bool,
    pub made: bool,
    pub stopped: bool,
}

#[tactic(auto, unfolding(crate::specs::Auction::call_token_of, crate::specs::Words::section_end))]
fn call_token(c: Conventions, t: &[u8]) -> CallToken
    ensures { (result ≡ call_token_of c t.now) × CallInside result (length t.now) }
{
    match t {
        [b'+'] => CallToken::Plus,
        [b'*'] => CallToken::Star,
        _ if is_all_pass(t) => CallToken::AllPass,
        _ => match call_len(t) {
            0 => CallToken::Annotation,
            k => match call_code(c, upto(t, k)) {
                Some(code) => CallToken::Call(code, k),
                None => CallToken::NoCall,
            },
        },
    }
}

// By place, as the definition `bidding` takes them: each of its eight uses would be a struct of four lines.
fn bid(made: bool, end: usize, stopped: bool, count: usize) -> Bidding
    ensures { result ≡ bidding made end stopped count }
{
    Bidding {
        any: true,
        made,
        end,
        stopped,
        count,
    }
}

// A call with its annotation, if it has one.
fn put_call(b: Bidding, len: usize, at: usize, k: usize, code: u8, entries: &mut Entries) -> Bidding
    requires { (entries.old.start + at + len ≤ 2 ^ 40) × (entries.old.count ≤ 2 ^ 59) × (b.count ≤ 2 ^ 60) × (k ≤ len) }
    ensures { Emits entries.old entries.new result (call_out b at len k code) × (result.count ≤ b.count + 3) }
{
    entries.put(CALL, at, k, usize::from(code));
    if k < len {
        entries.put(ANNOTATION, at + k, len - k, 0);
        return bid(true, b.end, false, b.count + 2);
    }
    bid(true, b.end, false, b.count + 1)
}

// AP: three passes, all at its own place.
fn put_passes(b: Bidding, len: usize, at: usize, entries: &mut Entries) -> Bidding
    requires { (entries.old.start + at + len ≤ 2 ^ 40) × (entries.old.count ≤ 2 ^ 59) × (b.count ≤ 2 ^ 60) }
    ensures { Emits entries.old entries.new result (passes_out b at len) × (result.count ≤ b.count + 3) }
{
    entries.put(CALL, at, len, PASS as usize);
    entries.put(CALL, at, len, PASS as usize);
    entries.put(CALL, at, len, PASS as usize);
    bid(true, b.end, true, b.count + 3)
}

// One token at the place `at` of its record.
fn call_step(c: Conventions, b: Bidding, t: &[u8], at: usize, entries: &mut Entries) -> Bidding
    requires { (entries.old.start + at + length t.now ≤ 2 ^ 40) × (entries.old.count ≤ 2 ^ 59) × (b.count ≤ 2 ^ 60) }
    ensures { Emits entries.old entries.new result (called c b (piece at t.now)) × (result.count ≤ b.count + 3) }
{
    if b.stopped {
        return b;
    }
    match call_token(c, t) {
        CallToken::Plus => {
            entries.put(CALL, at, t.len(), PLUS as usize);
            bid(true, 1, false, b.count + 1)
        }
        CallToken::Star => bid(b.made, 2, true, b.count),
        CallToken::AllPass => put_passes(b, t.len(), at, entries),
        CallToken::Annotation => {
            if b.made {
                entries.put(ANNOTATION, at, t.len(), 0);
                return bid(true, b.end, false, b.count + 1);
            }
            bid(false, b.end, false, b.count)
        }
        CallToken::Call(code, k) => put_call(b, t.len(), at, k, code, entries),
        CallToken::NoCall => bid(b.made, b.end, false, b.count),
    }
}

// All tokens of a piece of data.
pub(crate) fn call_piece(
    c: Conventions,
    b: Bidding,
    s: &[u8],
    at: usize,
    entries: &mut Entries,
) -> Bidding
    requires { (entries.old.start + at + length s.now ≤ 2 ^ 40) × (entries.old.count ≤ 2 ^ 58) × (b.count ≤ 2 ^ 59) }
    ensures { Emits entries.old entries.new result (called_piece c b (piece at s.now)) × (result.count ≤ b.count + 3 * length s.now) }
{
    let mut w = b;
    for t in tokens_in(s) {
        w = call_step(c, w, t.of(s), at + t.start, entries);
    }
    w
}
