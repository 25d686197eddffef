// Entries in a row, and the bytes that they name.
ghost use Rattle.std.specs.Prelude.{◌+◌, ◌≤◌};

use reader::store::TRICK;
use reader::tag::Span;

// The entries from first on, count of them, as they were just read from a text. Not a part of the entries: is_extra looks back to the board's
// first entry, a note is named by the place of its value, and the definitions give an entry past the lent words zeros.
#[derive(Clone, Copy)]
pub struct Items<'a> {
    pub text: &'a [u8],
    pub entries: &'a [u32],
    pub first: usize,
    pub count: usize,
    ghost in_range: { first + count ≤ 8589934592 },
}

impl<'a> Items<'a> {
    ghost use Rattle.std.specs.Prelude.{◌≡◌, ◌<◌};
    ghost use Rattle.writer.specs.Held.{entry_word, place_bytes};
    ghost use Rattle.writer.specs.Items.{item_of, tag_of, ItemsFrom};

    // The word j of the entry e; 0 past the last entry, since the definitions speak of all words.
    fn word_at(&self, e: usize, j: usize) -> usize
        requires { j < 4 }
        ensures { (result ≡ entry_word self.now.entries.now e j) × (result < 4294967296) }
    {
        if e < self.entries.len() / 4 {
            return self.entries[4 * e + j] as usize;
        }
        0
    }

    // What the first of them is.
    pub(crate) fn kind(&self) -> usize
        ensures { result ≡ (item_of self.now).kind }
    {
        self.word_at(self.first, 0)
    }

    // The code of the call that the first of them is, or the slots of the trick.
    pub(crate) fn mark(&self) -> usize
        ensures { (result ≡ (item_of self.now).mark) × (result < 4294967296) }
    {
        self.word_at(self.first, 3)
    }

    // The bytes of the text at the place of the entry e.
    pub(crate) fn bytes_at(&self, e: usize) -> &'a [u8]
        ensures { result.now ≡ place_bytes self.now.text.now self.now.entries.now e }
    {
        let start = self.word_at(e, 1);
        let len = self.word_at(e, 2);
        Span { start, len }.of(self.text)
    }

    // Those of the first of them.
    pub(crate) fn bytes(&self) -> &'a [u8]
        ensures { result.now ≡ place_bytes self.now.text.now self.now.entries.now self.now.first }
    {
        self.bytes_at(self.first)
    }

    // The value of the tag that the first of them is: the bytes of the next entry, none behind the last one or where a trick stands,
    // told as the empty part, since first_bytes of the definitions has no none.
    pub(crate) fn value(&self) -> &'a [u8]
        ensures { result.now ≡ (tag_of self.now).value }
    {
        if self.count < 2 || self.word_at(self.first + 1, 0) == TRICK {
            return b"";
        }
        self.bytes_at(self.first + 1)
    }

    // Other entries of the same text.
    pub(crate) fn part(&self, first: usize, count: usize) -> Items<'a>
        requires { first + count ≤ 8589934592 }
        ensures { ItemsFrom self.now first count result }
    {
        Items {
            text: self.text,
            entries: self.entries,
            first,
            count,
        }
    }
}

// Each of them in turn, with those behind it.
impl<'a> Iterator for Items<'a> {
    ghost use Rattle.writer.specs.Items.{NextEntry, entries_left};

    type Item = Items<'a>;

    ghost next_gives = { NextEntry };

    ghost remaining = { entries_left };

    fn next(&mut self) -> Option<Items<'a>> {
        let entry = *self;
        let count = self.count.checked_sub(1)?;
        *self = self.part(self.first + 1, count);
        Some(entry)
    }
}
