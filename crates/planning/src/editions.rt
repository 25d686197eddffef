// Both editions, read into lent boxes.
ghost use Rattle.std.specs.Prelude.{◌≡◌, ◌*◌, ◌≤◌, false, length};
ghost use Rattle.planning.specs.Plans.{editions_number, editions_carries, edition_refused, words_of, SameLent, BothRead};
ghost use Rattle.planning.specs.PlanSteps.{cards_in, BoxesKept, EachRead};

use crate::cards::{Card, cards_in};
use reader::edition::{Counts, ReadRefusal, read_pbn_with};
use tables::letters::Conventions;
use tables::refused::{Edition, Refused};

// Refusals 1 to 3 of an edition: of the old one, then of the new.
#[derive(Clone, Copy, Debug, PartialEq, Eq)]
pub struct EditionsRefusal {
    pub edition: Edition,
    pub refusal: ReadRefusal,
}

impl Refused for EditionsRefusal {
    ghost number_of = { editions_number };

    ghost edition_of = { edition_refused };

    ghost carries = { editions_carries };

    fn number(self) -> u64 {
        self.refusal.number()
    }

    fn edition(self) -> Option<Edition> {
        Some(self.edition)
    }

    fn carried(self) -> u64 {
        self.refusal.carried()
    }
}

// The boards and entries of each edition. They stand beside the boxes, which are the caller's and have no counts before they are read into.
#[derive(Clone, Copy, Debug, PartialEq, Eq)]
pub struct Both {
    pub old: Counts,
    pub new: Counts,
}

// The four boxes: words lent for the cards and the entries of the old edition, and of the new. The two texts are parameters beside them: they are
// only read, while the boxes are written, and outlive these (record_behind answers a part of one). They are no pair of their own, since they come
// one by one from the boundary, and text_of alone chooses between them.
#[derive(Drop)]
pub struct LentBoxes<'a> {
    pub old_cards: &'a mut [u32],
    pub old_entries: &'a mut [u32],
    pub new_cards: &'a mut [u32],
    pub new_entries: &'a mut [u32],
}

impl LentBoxes<'_> {
    // The cards of each edition, where both were read.
    pub fn cards(&self, both: Both) -> (&[Card], &[Card])
        requires { (64 * both.old.boards ≤ length self.now.old_cards.now) × (64 * both.new.boards ≤ length self.now.new_cards.now) }
        ensures { (result.0.now ≡ cards_in both.old.boards self.now.old_cards.now) × (result.1.now ≡ cards_in both.new.boards self.now.new_cards.now) }
    {
        (
            cards_in(self.old_cards, both.old.boards),
            cards_in(self.new_cards, both.new.boards),
        )
    }

    // Sets all cards and entries to 0.
    pub fn zero(&mut self)
        ensures zeros { BoxesKept false (words_of self.old) (words_of self.new) }
        ensures same { SameLent self.old self.new }
    {
        self.old_cards.fill(0);
        self.old_entries.fill(0);
        self.new_cards.fill(0);
        self.new_entries.fill(0);
    }
}

// Reads the old edition, then the new one. After a refusal of the new one the words lent for the old one hold what was read.
fn read_each(
    c: Conventions,
    old: &[u8],
    new: &[u8],
    boxes: &mut LentBoxes,
) -> Result<Both, EditionsRefusal>
    ensures read { EachRead c old.now new.now (words_of boxes.old) (words_of boxes.new) result }
    ensures same { SameLent boxes.old boxes.new }
{
    let m = read_pbn_with(c, old, boxes.old_cards, boxes.old_entries).map_err(
        |refusal| EditionsRefusal {
            edition: Edition::Old,
            refusal,
        },
    )?;
    let n = read_pbn_with(c, new, boxes.new_cards, boxes.new_entries).map_err(
        |refusal| EditionsRefusal {
            edition: Edition::New,
            refusal,
        },
    )?;
    Ok(Both { old: m, new: n })
}

// Reads both editions; a refusal of either leaves all lent words zero. Five functions go on with LentBoxes::cards and a question about the cards,
// three lines each: a function that is given the question would have to say of any question what it answers and stores.
pub fn read_both(
    c: Conventions,
    old: &[u8],
    new: &[u8],
    boxes: &mut LentBoxes,
) -> Result<Both, EditionsRefusal>
    ensures read { BothRead c old.now new.now (words_of boxes.old) (words_of boxes.new) result }
    ensures same { SameLent boxes.old boxes.new }
{
    let r = read_each(c, old, new, boxes);
    if r.is_err() {
        boxes.zero();
    }
    r
}
