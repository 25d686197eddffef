// A case of the recorded answers: taken apart, replayed through read_pbn, and counted. main.rt has the form of a case.
ghost use Rattle.std.specs.Prelude.{◌≤◌};

use crate::codes::is_coded;
use reader::edition::{Counts, read_pbn};
use recorded::bytes::Bytes;
use recorded::cases::{Recorded, add, add_group};
use recorded::pages::FULL;
use recorded::told::{Told, whole_answer};

// The places of the counts, behind those of the five groups.
#[derive(Clone, Copy)]
enum Place {
    Taken = 5,
    BoxFull = 6,
    ListFull = 7,
    Boards = 8,
    Entries = 9,
    Words = 10,
}

// The words that are lent.
#[derive(Clone, Copy)]
pub struct Lent {
    pub cards: usize,
    pub entries: usize,
    ghost cards_small: { cards ≤ 8192 },
    ghost entries_small: { entries ≤ 8192 },
}

// The codes give the lent words as they stand after the call.
#[derive(Clone, Copy)]
pub struct Case<'a> {
    group: u8,
    text: &'a [u8],
    lent: Lent,
    told: Option<Result<Counts, Told>>,
    card_codes: &'a [u8],
    entry_codes: &'a [u8],
}

impl<'a> Recorded<'a> for Case<'a> {
    fn take(cases: &mut Bytes<'a>) -> Option<Case<'a>> {
        let group = cases.byte()?;
        let text = cases.part()?;
        let cards = cases.two_bytes()?;
        let entries = cases.two_bytes()?;
        let refusal = u64::from(cases.byte()?);
        let carried = cases.two_bytes()? as u64;
        let counts = Counts {
            boards: cases.two_bytes()?,
            entries: cases.two_bytes()?,
        };
        let blank = (counts.boards == 0) & (counts.entries == 0);
        let card_codes = cases.part()?;
        let entry_codes = cases.part()?;
        if (cards > 8192) | (entries > 8192) {
            return None;
        }
        Some(Case {
            group,
            text,
            lent: Lent { cards, entries },
            told: whole_answer(counts, blank, refusal, carried),
            card_codes,
            entry_codes,
        })
    }

    fn is_same(self) -> bool {
        let mut cards = [FULL; 8192];
        let mut entries = [FULL; 8192];
        let cards = &mut cards[..self.lent.cards];
        let entries = &mut entries[..self.lent.entries];
        let told = read_pbn(self.text, cards, entries).map_err(Told::of);
        (Some(told) == self.told)
            & is_coded(cards, self.card_codes)
            & is_coded(entries, self.entry_codes)
    }

    // The group; the answer, with the boards and entries of those that are taken; all words lent.
    fn count(self, counts: &mut [u64]) {
        add_group(counts, self.group);
        match self.told {
            Some(Ok(n)) => {
                add(counts, Place::Taken as usize, 1);
                add(counts, Place::Boards as usize, n.boards as u64);
                add(counts, Place::Entries as usize, n.entries as u64);
            }
            Some(Err(Told { refusal: 2, .. })) => add(counts, Place::BoxFull as usize, 1),
            Some(Err(Told { refusal: 3, .. })) => add(counts, Place::ListFull as usize, 1),
            _ => (),
        }
        add(
            counts,
            Place::Words as usize,
            (self.lent.cards + self.lent.entries) as u64,
        );
    }
}
