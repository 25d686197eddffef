// An edition: its records read into cards and entries (read_pbn). C lends the two side by side, and so they are handed to the three
// functions inside: a struct of both would be made in one function and taken apart in the next.
ghost use Rattle.std.specs.Prelude.{◌≡◌, ◌∷◌, cond, ◌+◌, ◌-◌, ◌≤◌, ◌^◌, eqb, length, take, drop};
ghost use Rattle.std.proofs.lemmas.List.Edits.{sets};
ghost use Rattle.tables.specs.Letters.{built_in};
ghost use Rattle.reader.specs.Store.{low_word, put};
ghost use Rattle.reader.specs.Editions.{read_number, read_carries, entry_place, head_words, value_words, section_words, tail_words, back_words, card_words, IsRead};
ghost use Rattle.reader.specs.EditionSteps.{RecordIn, AllIn, ReadingEnded};

use crate::board::{Board, Section, State, TableCard, Values};
use crate::reading::read_board;
use crate::record::record_end;
use crate::store::{Entries, copy_in, low_word};
use crate::tag::Span;
use tables::letters::{Conventions, built_in};
use tables::refused::{Edition, Refused};

// Refusals 1 to 3, each with its carried number; specs/Editions.antt gives the numbers.
#[derive(Clone, Copy, Debug, PartialEq, Eq)]
pub enum ReadRefusal {
    Overlong(u64),
    BoxFull(u64),
    ListFull(u64),
}

// Where a record stands in its text, and the entries before it.
#[derive(Clone, Copy)]
pub struct Place {
    pub start: usize,
    pub end: usize,
    pub before: usize,
}

// The boards and entries of an edition.
#[derive(Clone, Copy, Debug, PartialEq, Eq)]
pub struct Counts {
    pub boards: usize,
    pub entries: usize,
}

impl Refused for ReadRefusal {
    ghost number_of = { read_number };

    ghost edition_of = { λ f. 0 };

    ghost carries = { read_carries };

    fn number(self) -> u64 {
        match self {
            ReadRefusal::Overlong(_) => 1,
            ReadRefusal::BoxFull(_) => 2,
            ReadRefusal::ListFull(_) => 3,
        }
    }

    fn edition(self) -> Option<Edition> {
        None
    }

    fn carried(self) -> u64 {
        match self {
            ReadRefusal::Overlong(n) | ReadRefusal::BoxFull(n) | ReadRefusal::ListFull(n) => n,
        }
    }
}

// The entry x (plus 1) of a record with n entries before it; 0 is none, as in `Values` and `Section`.
fn placed_word(n: usize, x: usize) -> u32
    ensures { result ≡ entry_place n x }
{
    if x == 0 {
        return 0;
    }
    low_word(n % 4294967296 + x % 4294967296)
}

// 0, the word of none vulnerable, for 4, no vulnerability (see `Identity`).
fn vulnerability_word(v: usize) -> u32
    ensures { result ≡ low_word (cond (eqb v 4) 0 v) }
{
    if v == 4 {
        return 0;
    }
    low_word(v)
}

fn head_words(n: usize, count: usize, b: Board) -> [u32; 10]
    ensures { result ≡ head_words n count b }
{
    let id = b.id;
    let deal = b.deal;
    [
        low_word(n),
        low_word(count),
        low_word(id.number_met),
        low_word(id.number),
        low_word(id.dealer),
        vulnerability_word(id.vulnerability),
        low_word(id.declarer),
        low_word(id.result_met),
        low_word(id.result),
        low_word(deal.kind),
    ]
}

fn cell_words(t: TableCard) -> [u32; 20]
    ensures { result ≡ t.cells }
{
    // By index: the array's map was tried and takes some 500 instructions a board more, where reading is to be three times as fast as the
    // Rust (docs/SPEED.md, and `Tricks` in play.rt); with zip the loop's invariant has no number of the turn.
    let cells = t.cells;
    let mut words = [0; 20];
    for i in 0..20 {
        words[i] = cells[i] as u32;
    }
    words
}

// The table's kind, and the value entries.
fn value_words(kind: usize, n: usize, v: Values) -> [u32; 13]
    ensures { result ≡ low_word kind ∷ value_words n v }
{
    [
        low_word(kind),
        placed_word(n, v.id),
        placed_word(n, v.event),
        placed_word(n, v.site),
        placed_word(n, v.date),
        placed_word(n, v.contract),
        placed_word(n, v.north),
        placed_word(n, v.east),
        placed_word(n, v.south),
        placed_word(n, v.west),
        placed_word(n, v.deal),
        placed_word(n, v.score),
        placed_word(n, v.par),
    ]
}

fn section_words(n: usize, s: Section) -> [u32; 4]
    ensures { result ≡ section_words n s }
{
    [
        placed_word(n, s.first),
        low_word(s.count),
        low_word(s.seat),
        low_word(s.end),
    ]
}

fn tail_words(at: Place, b: Board) -> [u32; 5]
    ensures { result ≡ tail_words at.start at.end b }
{
    [
        low_word(b.trump),
        low_word(at.start),
        low_word(at.end),
        0,
        0,
    ]
}

// Words 38 to 63 of a card, stored from index i.
fn put_back(cards: &mut [u32], i: usize, at: Place, b: Board)
    requires { i + 26 ≤ length cards.old }
    ensures { cards.new ≡ sets cards.old i (back_words at.start at.end at.before b) }
{
    let values = value_words(b.table.kind, at.before, b.values);
    copy_in(cards, i, &values);
    let auction = section_words(at.before, b.auction);
    copy_in(cards, i + 13, &auction);
    let play = section_words(at.before, b.play);
    copy_in(cards, i + 17, &play);
    let tail = tail_words(at, b);
    copy_in(cards, i + 21, &tail);
}

// Stores the k-th card, where there is room for a whole one: k goes on behind the last lent card, since boards without one are counted. By
// its index: of words that as_chunks_mut cuts into cards nothing is known once a card is changed.
fn put_card(cards: &mut [u32], k: usize, at: Place, s: State)
    ensures { (cards.new ≡ put 64 cards.old k (card_words at.start at.end at.before s.n s.board)) × (length (card_words at.start at.end at.before s.n s.board) ≡ 64) }
{
    let b = s.board;
    let cells = cell_words(b.table);
    if k < cards.len() / 64 {
        let i = 64 * k;
        let head = head_words(at.before, s.n, b);
        copy_in(cards, i, &head);
        copy_in(cards, i + 10, &b.deal.words);
        copy_in(cards, i + 18, &cells);
        put_back(cards, i + 38, at, b);
    }
}

// Reads a record as the k-th board. How many entries there are then.
fn read_record(
    c: Conventions,
    text: &[u8],
    at: Place,
    cards: &mut [u32],
    k: usize,
    entries: &mut [u32],
) -> usize
    requires { (at.start ≤ at.end) × (at.end ≤ length text.now) × (length text.now ≤ 16777215) × (at.before ≤ 2 ^ 56) }
    ensures { RecordIn c (take (at.end - at.start) (drop at.start text.now)) at.start k at.before cards.old entries.old result cards.new entries.new }
{
    let start = at.start;
    let len = at.end - start;
    let own = Span { start, len }.of(text);
    let mut list = Entries {
        words: entries,
        start: at.start,
        count: at.before,
    };
    let s = read_board(c, own, &mut list);
    put_card(cards, k, at, s);
    list.count
}

// Reads all records of a text. An iterator of records would hold `a` alone, whose last value is where no record is left: the boards and
// the entries, which say where the next card and entry go, would be counted here all the same.
fn read_records(c: Conventions, text: &[u8], cards: &mut [u32], entries: &mut [u32]) -> Counts
    requires { length text.now ≤ 16777215 }
    ensures { AllIn c text.now cards.old entries.old result cards.new entries.new }
{
    let mut a = 0;
    let mut boards = 0;
    let mut n = 0;
    while let Some(e) = record_end(text, a) {
        let at = Place {
            start: a,
            end: e,
            before: n,
        };
        n = read_record(c, text, at, cards, boards, entries);
        boards += 1;
        a = e;
    }
    Counts { boards, entries: n }
}

// The counts, where all fits; the words are set to 0 where it does not.
fn finish_reading(
    cards: &mut [u32],
    entries: &mut [u32],
    counts: Counts,
) -> Result<Counts, ReadRefusal>
    ensures { ReadingEnded cards.old entries.old counts result cards.new entries.new }
{
    let refusal = if cards.len() / 64 < counts.boards {
        ReadRefusal::BoxFull(counts.boards as u64)
    } else if entries.len() / 4 < counts.entries {
        ReadRefusal::ListFull(counts.entries as u64)
    } else {
        return Ok(counts);
    };
    cards.fill(0);
    entries.fill(0);
    Err(refusal)
}

// Reads a text into the lent words, by the given conventions. A refusal leaves all of them zero.
pub fn read_pbn_with(
    c: Conventions,
    text: &[u8],
    cards: &mut [u32],
    entries: &mut [u32],
) -> Result<Counts, ReadRefusal>
    ensures { IsRead c text.now cards.old entries.old result cards.new entries.new }
{
    cards.fill(0);
    entries.fill(0);
    let length = text.len();
    if 16777215 < length {
        return Err(ReadRefusal::Overlong(length as u64));
    }
    let counts = read_records(c, text, cards, entries);
    finish_reading(cards, entries, counts)
}

// Reads a text into the lent words, by the built-in letters, as `golavimes_read` does: Rattle has no default argument, and the layers above
// pass letters of their own.
pub fn read_pbn(text: &[u8], cards: &mut [u32], entries: &mut [u32]) -> Result<Counts, ReadRefusal>
    ensures { IsRead built_in text.now cards.old entries.old result cards.new entries.new }
{
    read_pbn_with(built_in(), text, cards, entries)
}
