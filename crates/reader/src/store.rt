// Blocks of words stored into lent slices.
ghost use Rattle.std.specs.Prelude.{◌≡◌, ◌∷◌, [], ◌+◌, ◌≤◌, ◌<◌, ◌^◌, length};
ghost use Rattle.std.proofs.lemmas.List.Edits.{sets};
ghost use Rattle.reader.specs.Store.{low_word, moved};
ghost use Rattle.reader.specs.Pieces.{entry};
ghost use Rattle.reader.specs.PieceSteps.{Adds};

// The kinds of entries: numbers, as the first of an entry's four words in C.
pub const NAME: usize = 1;

pub const VALUE: usize = 2;

pub const DIRECTIVE: usize = 3;

pub const COMMENTARY: usize = 4;

pub const DATA: usize = 5;

pub const CALL: usize = 6;

pub const ANNOTATION: usize = 7;

pub const TRICK: usize = 8;

// An entry of a record, its place counted from the record's start.
#[derive(Clone, Copy)]
pub struct Entry {
    pub kind: usize,
    pub x: usize,
    pub y: usize,
    pub z: usize,
}

// The low 32 bits: `as u32` alone is refused where it loses bits, and `try_from` answers a Result.
pub(crate) fn low_word(x: usize) -> u32
    ensures { result ≡ low_word x }
{
    (x % 4294967296) as u32
}

// Copies src into dst from index at.
pub fn copy_in(dst: &mut [u32], at: usize, src: &[u32])
    requires { at + length src.now ≤ length dst.old }
    ensures { dst.new ≡ sets dst.old at src.now }
{
    dst[at..at + src.len()].copy_from_slice(src);
}

fn moved_place(a: usize, kind: usize, x: usize) -> usize
    requires { a + x < 2 ^ 63 }
    ensures { result ≡ moved a kind x }
{
    if kind == TRICK { x } else { a + x }
}

// Where a record's entries go: the lent words, the place where the record starts, and how many entries stand before the next one. That
// there are few stands in each contract, and not in a ghost field: an entry that is put is one more, so that a bound that held before it
// need not hold after it. What bounds the count, and the start with what is added to it, is the text that is read, and each contract says
// so of its own part: a line at p, a piece at its place, a section's data.
#[derive(Drop)]
pub struct Entries<'a> {
    pub words: &'a mut [u32],
    pub start: usize,
    pub count: usize,
}

impl Entries<'_> {
    // Stores the part of `len` bytes at the place `at` of the record, with its mark, as the next entry.
    pub(crate) fn put(&mut self, kind: usize, at: usize, len: usize, mark: usize)
        requires { (self.old.start + at < 2 ^ 63) × (self.old.count ≤ 2 ^ 60) }
        ensures { Adds self.old self.new (entry kind at len mark ∷ []) }
    {
        self.push(Entry {
            kind,
            x: at,
            y: len,
            z: mark,
        });
    }

    // Stores e as the next entry, where there is room for a whole one: by its index, since of words that as_chunks_mut cuts into entries
    // nothing is known once one is changed.
    pub(crate) fn push(&mut self, e: Entry)
        requires { (self.old.start + e.x < 2 ^ 63) × (self.old.count ≤ 2 ^ 60) }
        ensures { Adds self.old self.new (e ∷ []) }
    {
        let n = self.count;
        if n < self.words.len() / 4 {
            let x = moved_place(self.start, e.kind, e.x);
            let words = [low_word(e.kind), low_word(x), low_word(e.y), low_word(e.z)];
            copy_in(self.words, 4 * n, &words);
        }
        self.count = n + 1;
    }
}
