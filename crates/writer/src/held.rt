// A board as the words that were just read hold it.
ghost use Rattle.std.specs.Prelude.{◌≡◌, ◌+◌, ◌-◌, ◌<◌, ◌≤◌, MatchOption};
ghost use Rattle.std.proofs.Math.Option.{none, some};
ghost use Rattle.writer.specs.Held.{card_word};
ghost use Rattle.writer.specs.Items.{items_of, has_remarks, ItemsFrom};
ghost use Rattle.writer.specs.BoardTexts.{word_of, value_of, BoardHeld};

use crate::items::Items;
use reader::store::{COMMENTARY, DIRECTIVE};

// An edition that was read: its text, the lent words of its cards and entries, and how many boards it has, as page_held of the definitions
// takes them (see Board).
#[derive(Clone, Copy)]
pub struct ReadEdition<'a> {
    pub text: &'a [u8],
    pub cards: &'a [u32],
    pub entries: &'a [u32],
    pub boards: usize,
}

// The board whose card stands at an index; its remarks are among its entries, or among none of them where there is no remark. The card is named
// by its index among lent words: the definitions page_held, next_held, of_board and word_of, and the theorems over them, are of lent words and an
// index, 0 past the last. So put_parts goes by its index, and put_digits by its words' numbers. The letters of cards and calls are no part of a
// board, nor of a page: tables and listing_text put pages without any, and of the functions here that take a page more than half take none.
#[derive(Clone, Copy)]
pub struct Board<'a> {
    pub cards: &'a [u32],
    pub index: usize,
    pub remarks: Items<'a>,
}

// The word i of the card k; 0 past the last card, since the definitions speak of all words and not of those alone that were read. word_at of
// Items has 4 for 64: one over both would take a const parameter and a definition, for two bodies of four lines.
fn card_word(cards: &[u32], k: usize, i: usize) -> usize
    requires { i < 64 }
    ensures { (result ≡ card_word cards.now k i) × (result < 4294967296) }
{
    if k < cards.len() / 64 {
        return cards[64 * k + i] as usize;
    }
    0
}

// Whether a directive or a block is among them.
fn has_remarks(items: &Items) -> bool
    ensures { result ≡ has_remarks (items_of items.now) }
{
    let mut rest = *items;
    rest.any(|entry| (entry.kind() == DIRECTIVE) | (entry.kind() == COMMENTARY))
}

impl<'a> Board<'a> {
    // The board of the card at an index.
    pub(crate) fn new(edition: &ReadEdition<'a>, index: usize) -> Board<'a>
        ensures { BoardHeld edition.now.text.now edition.now.cards.now edition.now.entries.now index result }
    {
        let cards = edition.cards;
        let first = card_word(cards, index, 0);
        let count = card_word(cards, index, 1);
        let items = Items {
            text: edition.text,
            entries: edition.entries,
            first,
            count,
        };
        if has_remarks(&items) {
            return Board {
                cards,
                index,
                remarks: items,
            };
        }
        Board {
            cards,
            index,
            remarks: items.part(first, 0),
        }
    }

    // The word i of its card. Every caller names i as a number below 64, so that i < 64 is no more than the bound of an array's index.
    pub(crate) fn word(&self, i: usize) -> usize
        requires { i < 64 }
        ensures { (result ≡ word_of self.now i) × (result < 4294967296) }
    {
        card_word(self.cards, self.index, i)
    }

    // The value that the word i names: an entry plus 1, 0 for none.
    pub(crate) fn value(&self, i: usize) -> Option<&'a [u8]>
        requires { i < 64 }
        ensures { MatchOption result (value_of self.now i ≡ none) (λ v. value_of self.now i ≡ some v.now) }
    {
        let w = self.word(i);
        if w == 0 {
            return None;
        }
        Some(self.remarks.bytes_at(w - 1))
    }

    // Its entries.
    pub(crate) fn items(&self) -> Items<'a>
        ensures { ItemsFrom self.now.remarks (word_of self.now 0) (word_of self.now 1) result }
    {
        self.remarks.part(self.word(0), self.word(1))
    }

    // The entries of the section that the word i names, an entry plus 1, 0 for none; the next word says how many there are.
    pub(crate) fn section(&self, i: usize) -> Option<Items<'a>>
        requires { i < 63 }
        ensures { MatchOption result (word_of self.now i ≡ 0)
            (λ is. (word_of self.now i ≡ 0 → ⊥) × ItemsFrom self.now.remarks (word_of self.now i - 1) (word_of self.now (i + 1)) is × (is.first < 4294967296)) }
    {
        let w = self.word(i);
        if w == 0 {
            return None;
        }
        Some(self.remarks.part(w - 1, self.word(i + 1)))
    }

    // Its entries from an entry on.
    pub(crate) fn items_from(&self, first: usize) -> Items<'a>
        requires { first ≤ 4294967296 }
        ensures { ItemsFrom self.now.remarks first (word_of self.now 0 + word_of self.now 1 - first) result }
    {
        let end = self.word(0) + self.word(1);
        self.remarks.part(first, end.saturating_sub(first))
    }
}
