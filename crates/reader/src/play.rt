// The play section (parse_play).
ghost use Rattle.std.specs.Prelude.{◌≡◌, cond, ◌+◌, ◌≤◌, ◌^◌, length};
ghost use Rattle.reader.specs.PieceSteps.{Emits, piece};
ghost use Rattle.reader.specs.Play.{no_slots, with_slot, is_full, weight, best_slot, winner_of, trick_entry, new_trick, next_leader, opened, taking, slot_of, with_card, played, played_bytes, played_piece, one_more, last_trick, no_tricks};
ghost use Rattle.reader.specs.TokenSteps.{Low, Seated, OpenTrick};

use crate::store::{Entries, Entry, TRICK};
use crate::tokens::tokens_in;
use crate::words::card_named;
use tables::letters::Conventions;

// The four slots of a trick, 255 for an empty one, as the bytes of a trick's last word in C. By name and not as an array, which the
// definitions see as a list of any length: each law of a trick's slots would first have to say that there are four.
#[derive(Clone, Copy)]
pub struct Slots {
    pub a: usize,
    pub b: usize,
    pub c: usize,
    pub d: usize,
}

// What the cards of a play are read by: the conventions, the seat of the opening leader, and the trump.
#[derive(Clone, Copy)]
pub struct Terms {
    pub c: Conventions,
    pub lead: u8,
    pub trump: usize,
}

// Play so far: whether a trick is open, its leader, 4 before the first, its winner once it is full, 4 until then, its slots, and how
// many seats of it are taken; the end mark, 0, 1 or 2 as the word of the card, whether the section has stopped, and how many tricks
// were closed, which hold before the first trick too. The winner as an Option was tried: with it, and with the array's map at
// cell_words (edition.rt), reading, which is to be three times as fast as the Rust, takes 1 to 2 in 100 longer (docs/SPEED.md). An
// Option of the open trick would be no plainer: take_seat and with_card, and `taking`, `with_card` and `played` of specs/Play, would
// each match it, though all stand behind `opened`, which has just made it; or it would be handed beside the rest, and put back at each
// end of play_token. That seats and slots are in range stands in contracts (Seated, OpenTrick, Low), and not in ghost fields: the
// definitions make tricks and slots at each token, and each would have to carry its proof. The bounds of `count` stand in contracts for
// the reason at Entries (store.rt).
#[derive(Clone, Copy)]
pub struct Tricks {
    pub leader: usize,
    pub winner: usize,
    pub slots: Slots,
    pub seat: usize,
    pub end: usize,
    pub count: usize,
    // Side by side: apart, reading takes 2 in 100 longer, since the bytes that fill up the words behind them are copied at each token.
    pub any: bool,
    pub stopped: bool,
}

pub fn no_slots() -> Slots
    ensures { result ≡ no_slots }
{
    Slots {
        a: 255,
        b: 255,
        c: 255,
        d: 255,
    }
}

pub(crate) fn no_tricks() -> Tricks
    ensures { result ≡ no_tricks }
{
    Tricks {
        any: false,
        leader: 4,
        winner: 4,
        slots: no_slots(),
        seat: 0,
        end: 0,
        stopped: false,
        count: 0,
    }
}

// A card's weight in a trick.
#[tactic(auto, unfolding(crate::specs::Play::weight))]
fn weigh(trump: usize, led: usize, card: usize) -> usize
    requires { card ≤ 255 }
    ensures { result ≡ weight trump led card }
{
    if card / 13 == trump {
        return card % 13 + 14;
    }
    if card / 13 == led {
        return card % 13 + 1;
    }
    0
}

// The first of the heaviest. max_by_key over the four from back to front would answer it, as an Option which four never leave empty; its
// contract tells of the calls one by one, and that they come to best_slot was not proved by search.
#[tactic(auto, unfolding(crate::specs::Play::best_slot))]
fn best_slot(p: usize, q: usize, r: usize, s: usize) -> usize
    ensures { (result ≡ best_slot p q r s) × (result ≤ 3) }
{
    if (q <= p) & ((r <= p) & (s <= p)) {
        return 0;
    }
    if (r <= q) & (s <= q) {
        return 1;
    }
    if s <= r {
        return 2;
    }
    3
}

// The seat that wins a full trick (determine_winner).
pub fn winner(trump: usize, leader: usize, s: Slots) -> usize
    requires { (leader ≤ 255) × Low s }
    ensures { (result ≡ winner_of trump leader s) × (result ≤ 4) }
{
    let led = s.a / 13;
    let k = best_slot(
        weigh(trump, led, s.a),
        weigh(trump, led, s.b),
        weigh(trump, led, s.c),
        weigh(trump, led, s.d),
    );
    (leader + k) % 4
}

fn is_full(s: Slots) -> bool
    ensures { result ≡ is_full s }
{
    (s.a != 255) & ((s.b != 255) & ((s.c != 255) & (s.d != 255)))
}

// The winner once a trick is full, until then the one before, which is 4 for none, as a trick's entry has it.
fn winner_now(trump: usize, leader: usize, before: usize, s: Slots) -> usize
    requires { (leader ≤ 255) × (before ≤ 4) × Low s }
    ensures { (result ≡ cond (is_full s) (winner_of trump leader s) before) × (result ≤ 4) }
{
    if is_full(s) {
        return winner(trump, leader, s);
    }
    before
}

pub fn with_slot(s: Slots, k: usize, v: usize) -> Slots
    requires { Low s × (v ≤ 255) }
    ensures { (result ≡ with_slot s k v) × Low result }
{
    Slots {
        a: if k == 0 { v } else { s.a },
        b: if k == 1 { v } else { s.b },
        c: if k == 2 { v } else { s.c },
        d: if k == 3 { v } else { s.d },
    }
}

// The slot of a seat, counted from the trick's own leader.
pub fn slot_of(lead: usize, seat: usize, leader: usize) -> usize
    requires { (lead ≤ 255) × (seat ≤ 255) }
    ensures { result ≡ slot_of lead seat leader }
{
    (lead + seat + 4).saturating_sub(leader) % 4
}

// A trick as an entry.
fn trick_entry(t: Tricks) -> Entry
    requires { Seated t }
    ensures { (result ≡ trick_entry t) × (result.x ≤ 255) }
{
    let s = t.slots;
    Entry {
        kind: TRICK,
        x: t.leader,
        y: t.winner,
        z: s.a + 256 * s.b + 65536 * s.c + 16777216 * s.d,
    }
}

fn new_trick(leader: usize, end: usize, count: usize) -> Tricks
    requires { leader ≤ 255 }
    ensures { (result ≡ new_trick leader end count) × OpenTrick result }
{
    Tricks {
        any: true,
        leader,
        winner: 4,
        slots: no_slots(),
        seat: 0,
        end,
        stopped: false,
        count,
    }
}

// The winner leads, or the same leader again.
fn next_leader(winner: usize, leader: usize) -> usize
    ensures { result ≡ next_leader winner leader }
{
    if winner == 4 { leader } else { winner }
}

// A token opens the first trick, and after a full one the next; the full one is stored.
fn open_trick(lead: u8, t: Tricks, entries: &mut Entries) -> Tricks
    requires { Seated t × (entries.old.start ≤ 2 ^ 40) × (entries.old.count ≤ 2 ^ 60) × (t.count ≤ 2 ^ 60) }
    ensures { Emits entries.old entries.new result (opened lead t) × OpenTrick result }
{
    if t.any {
        if t.seat == 4 {
            entries.push(trick_entry(t));
            return new_trick(next_leader(t.winner, t.leader), t.end, t.count + 1);
        }
        return t;
    }
    new_trick(usize::from(lead), t.end, t.count)
}

fn take_seat(t: Tricks, end: usize, stopped: bool, seat: usize) -> Tricks
    requires { Seated t × (seat ≤ 4) }
    ensures { (result ≡ taking t end stopped seat) × Seated result }
{
    Tricks {
        any: true,
        seat,
        end,
        stopped,
        ..t
    }
}

fn with_card(trump: usize, t: Tricks, s: Slots) -> Tricks
    requires { OpenTrick t × Low s }
    ensures { (result ≡ with_card trump t s) × Seated result }
{
    Tricks {
        any: true,
        winner: winner_now(trump, t.leader, t.winner, s),
        slots: s,
        seat: t.seat + 1,
        stopped: false,
        ..t
    }
}

// A card into the slot of the next seat.
fn play_card(by: Terms, t: Tricks, card: u8) -> Tricks
    requires { OpenTrick t }
    ensures { (result ≡ with_card by.trump t (with_slot t.slots (slot_of by.lead t.seat t.leader) card)) × Seated result }
{
    let k = slot_of(usize::from(by.lead), t.seat, t.leader);
    with_card(by.trump, t, with_slot(t.slots, k, usize::from(card)))
}

// What a token does in an open trick.
#[tactic(auto, unfolding(crate::specs::Play::played, crate::specs::Play::is_gap, crate::specs::Words::section_end))]
fn play_token(by: Terms, t: Tricks, token: &[u8]) -> Tricks
    requires { OpenTrick t }
    ensures { (result ≡ played by.c by.lead by.trump t token.now) × Seated result }
{
    match token {
        [b'+'] => take_seat(t, 1, false, t.seat + 1),
        [b'*'] => take_seat(t, 2, true, t.seat),
        [b'-'] => take_seat(t, t.end, false, t.seat + 1),
        _ => match card_named(by.c, token) {
            Some(card) => play_card(by, t, card),
            None => t,
        },
    }
}

// One token.
fn play_step(by: Terms, t: Tricks, token: &[u8], entries: &mut Entries) -> Tricks
    requires { Seated t × (entries.old.start ≤ 2 ^ 40) × (entries.old.count ≤ 2 ^ 60) × (t.count ≤ 2 ^ 60) }
    ensures { Emits entries.old entries.new result (played_bytes by.c by.lead by.trump t token.now) × Seated result }
{
    if t.stopped {
        return t;
    }
    play_token(by, open_trick(by.lead, t, entries), token)
}

// All tokens of a piece of data at the place `at` of its record.
pub(crate) fn play_piece(by: Terms, t: Tricks, s: &[u8], at: usize, entries: &mut Entries) -> Tricks
    requires { Seated t × (entries.old.start + at + length s.now ≤ 2 ^ 40) × (entries.old.count ≤ 2 ^ 58) × (t.count ≤ 2 ^ 59) }
    ensures { Emits entries.old entries.new result (played_piece by.c by.lead by.trump t (piece at s.now)) × Seated result × (result.count ≤ t.count + length s.now) }
{
    let mut w = t;
    for d in tokens_in(s) {
        w = play_step(by, w, d.of(s), entries);
    }
    w
}

fn one_more(t: Tricks) -> Tricks
    requires { t.count ≤ 2 ^ 60 }
    ensures { result ≡ one_more t }
{
    Tricks {
        count: t.count + 1,
        ..t
    }
}

// The section closes: its last trick is stored.
pub(crate) fn last_trick(t: Tricks, entries: &mut Entries) -> Tricks
    requires { Seated t × (entries.old.start ≤ 2 ^ 40) × (entries.old.count ≤ 2 ^ 60) × (t.count ≤ 2 ^ 60) }
    ensures { Emits entries.old entries.new result (last_trick t) × (result.count ≤ t.count + 1) }
{
    if t.any {
        entries.push(trick_entry(t));
        return one_more(t);
    }
    t
}
