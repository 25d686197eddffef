// A case of the recorded answers: taken apart, replayed through write_pbn, and counted. main.rt has the form of a case.
ghost use Rattle.std.specs.Prelude.{◌≤◌};

use reader::edition::read_pbn;
use recorded::bytes::Bytes;
use recorded::cases::{Recorded, add, add_group};
use recorded::pages::{FULL, holds};
use recorded::told::{Told, whole_answer};
use writer::write::write_pbn;

// The places of the counts, behind those of the five groups.
#[derive(Clone, Copy)]
enum Place {
    Written = 5,
    BoxFull = 6,
    ListFull = 7,
    PageFull = 8,
    Bytes = 9,
    Pages = 10,
}

// The words and bytes that are lent.
#[derive(Clone, Copy)]
pub struct Lent {
    pub cards: usize,
    pub entries: usize,
    pub page: usize,
    ghost cards_small: { cards ≤ 8192 },
    ghost entries_small: { entries ≤ 8192 },
    ghost page_small: { page ≤ 16384 },
}

#[derive(Clone, Copy)]
pub struct Case<'a> {
    group: u8,
    text: &'a [u8],
    lent: Lent,
    told: Option<Result<u64, Told>>,
    written: &'a [u8],
}

impl<'a> Case<'a> {
    // Whether these words are those that reading leaves, all zero after a refusal. Words are lent anew, since those that writing left are
    // compared with them. A function that lends them here, in is_same and in the replay of reading would be given a closure over two
    // slices, for three lines in each.
    fn is_read(self, cards: &[u32], entries: &[u32]) -> bool {
        let mut read_cards = [FULL; 8192];
        let mut read_entries = [FULL; 8192];
        let read_cards = &mut read_cards[..self.lent.cards];
        let read_entries = &mut read_entries[..self.lent.entries];
        if let Some(Ok(_)) = self.told {
            let _ = read_pbn(self.text, read_cards, read_entries);
        } else {
            read_cards.fill(0);
            read_entries.fill(0);
        }
        (cards == &*read_cards) & (entries == &*read_entries)
    }
}

impl<'a> Recorded<'a> for Case<'a> {
    fn take(cases: &mut Bytes<'a>) -> Option<Case<'a>> {
        let group = cases.byte()?;
        let text = cases.part()?;
        let cards = cases.two_bytes()?;
        let entries = cases.two_bytes()?;
        let page = cases.two_bytes()?;
        let refusal = u64::from(cases.byte()?);
        let carried = cases.two_bytes()? as u64;
        let written = cases.part()?;
        if (cards > 8192) | (entries > 8192) | (page > 16384) {
            return None;
        }
        Some(Case {
            group,
            text,
            lent: Lent {
                cards,
                entries,
                page,
            },
            told: whole_answer(written.len() as u64, written.is_empty(), refusal, carried),
            written,
        })
    }

    fn is_same(self) -> bool {
        let mut cards = [FULL; 8192];
        let mut entries = [FULL; 8192];
        let mut page = [170; 16384];
        let cards = &mut cards[..self.lent.cards];
        let entries = &mut entries[..self.lent.entries];
        let page = &mut page[..self.lent.page];
        let told = write_pbn(self.text, cards, entries, page).map_err(Told::of);
        (Some(told) == self.told) & holds(page, self.written) & self.is_read(cards, entries)
    }

    // The group; the answer, with the bytes written; all bytes lent as pages.
    fn count(self, counts: &mut [u64]) {
        add_group(counts, self.group);
        match self.told {
            Some(Ok(bytes)) => {
                add(counts, Place::Written as usize, 1);
                add(counts, Place::Bytes as usize, bytes);
            }
            Some(Err(Told { refusal: 2, .. })) => add(counts, Place::BoxFull as usize, 1),
            Some(Err(Told { refusal: 3, .. })) => add(counts, Place::ListFull as usize, 1),
            Some(Err(Told { refusal: 7, .. })) => add(counts, Place::PageFull as usize, 1),
            _ => (),
        }
        add(counts, Place::Pages as usize, self.lent.page as u64);
    }
}
