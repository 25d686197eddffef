// The cards (parse_card), their tricks, and the data lines of the play. A contract says `unwrap_or result 52` since the definition of a card
// is reader's for two characters, whose number for none is 52.
ghost use Rattle.std.specs.Prelude.{◌≡◌, ◌≤◌, ◌<◌, IfSome, unwrap_or};
ghost use Rattle.tables.specs.Puts.{Puts};
ghost use Rattle.lin.specs.Pairs.{pairs_of};
ghost use Rattle.lin.specs.PairSteps.{pair_of};
ghost use Rattle.lin.specs.Playing.{card_in, cards_played, slot_at, slot_word};
ghost use Rattle.lin.specs.PlayingSteps.{card_at, word_text, trick_text, FineTrick, taken, empty_trick, next_trick, trick_texts, last_line};

use crate::pairs::{Command, PairAt, pairs_in};
use reader::play::{Slots, Terms, no_slots, slot_of, winner, with_slot};
use reader::words::card_named;
use tables::letters::Conventions;
use tables::page::Page;
use tables::text::trim;
use writer::tokens::put_card;

// A card: exactly a suit and a rank.
#[tactic(auto, unfolding(crate::specs::Playing::card_in))]
pub(crate) fn card_in(c: Conventions, t: &[u8]) -> Option<u8>
    ensures { (unwrap_or result 52 ≡ card_in c t.now) × IfSome result (λ k. k < 52) }
{
    if t.len() == 2 {
        return card_named(c, t);
    }
    None
}

// The card of a pair, where it is one.
fn card_at(c: Conventions, p: PairAt) -> Option<u8>
    ensures { result ≡ card_at c (pair_of p.entry) }
{
    if p.command == Command::Pc {
        return card_in(c, trim(p.value));
    }
    None
}

// A trick of at most four cards: its leader, its cards, and how many they are. That it is fine stands in five contracts, and not in a ghost
// field: specs/PlayingSteps.antt makes tricks of any leader and slots (`empty_trick`, `taken`), which then would have to ask for the bounds.
#[derive(Clone, Copy)]
pub struct LinTrick {
    pub leader: usize,
    pub slots: Slots,
    pub count: usize,
}

#[tactic(auto, unfolding(crate::specs::Playing::slot_at))]
fn slot_at(s: Slots, k: usize) -> usize
    ensures { result ≡ slot_at s k }
{
    match k {
        0 => s.a,
        1 => s.b,
        2 => s.c,
        _ => s.d,
    }
}

// A card, or `-`. The writer's put_slot shares no more than put_card with it: for an empty slot it puts nothing, and before a card a blank
// where it is not the first.
#[tactic(auto, unfolding(crate::specs::Playing::slot_word))]
fn put_slot(page: &mut Page, c: Conventions, k: usize)
    ensures { Puts page.old (slot_word c k) page.new }
{
    if k < 52 {
        put_card(page, c, k);
        return;
    }
    page.put_text(b"-");
}

// The word of the j-th seat from the opening leader on.
fn put_word(page: &mut Page, by: Terms, t: LinTrick, j: usize)
    requires { (j ≤ 4) × FineTrick t }
    ensures { Puts page.old (word_text by.c by.lead t j) page.new }
{
    put_slot(
        page,
        by.c,
        slot_at(t.slots, slot_of(usize::from(by.lead), j, t.leader)),
    );
}

// A trick's line: four words by seat from the opening leader on.
fn put_line(page: &mut Page, by: Terms, t: LinTrick)
    requires { FineTrick t }
    ensures { Puts page.old (trick_text by.c by.lead t) page.new }
{
    put_word(page, by, t, 0);
    page.put_byte(b' ');
    put_word(page, by, t, 1);
    page.put_byte(b' ');
    put_word(page, by, t, 2);
    page.put_byte(b' ');
    put_word(page, by, t, 3);
    page.put_byte(b'\n');
}

// The line of a last trick, where it has a card.
#[tactic(auto, unfolding(crate::specs::PlayingSteps::last_line))]
fn put_rest(page: &mut Page, by: Terms, t: LinTrick)
    requires { FineTrick t }
    ensures { Puts page.old (last_line by.c by.lead t) page.new }
{
    if t.count == 0 {
        return;
    }
    put_line(page, by, t);
}

// One more card.
fn take_card(t: LinTrick, card: u8) -> LinTrick
    requires { FineTrick t × (t.count ≤ 3) }
    ensures { (result ≡ taken t card) × FineTrick result × (result.count ≤ 4) }
{
    LinTrick {
        slots: with_slot(t.slots, t.count, card as usize),
        count: t.count + 1,
        ..t
    }
}

// A trick without cards.
fn new_trick(leader: usize) -> LinTrick
    requires { leader ≤ 255 }
    ensures { (result ≡ empty_trick leader) × FineTrick result }
{
    LinTrick {
        leader,
        slots: no_slots(),
        count: 0,
    }
}

// The trick behind a full one, led by its winner.
fn next_trick(trump: usize, t: LinTrick) -> LinTrick
    requires { FineTrick t }
    ensures { (result ≡ next_trick trump t) × FineTrick result }
{
    new_trick(winner(trump, t.leader, t.slots))
}

// The lines of the tricks.
pub(crate) fn put_tricks(page: &mut Page, by: Terms, text: &[u8])
    ensures { Puts page.old (trick_texts by.c by.lead by.trump (empty_trick by.lead) (cards_played by.c (pairs_of text.now))) page.new }
{
    let mut t = new_trick(usize::from(by.lead));
    for p in pairs_in(text) {
        let Some(card) = card_at(by.c, p) else {
            continue;
        };
        let u = take_card(t, card);
        if u.count == 4 {
            put_line(page, by, u);
            t = next_trick(by.trump, u);
            continue;
        }
        t = u;
    }
    put_rest(page, by, t);
}
