// The finished edition: the new one, every whole board with a table (finish).
ghost use Rattle.std.specs.Prelude.{◌≡◌, ◌+◌, ◌*◌, ◌≤◌, true, is_ok, length};
ghost use Rattle.tables.specs.Letters.{built_in};
ghost use Rattle.tables.specs.Refusals.{refusal_carries};
ghost use Rattle.planning.specs.Plans.{words_of, SameLent};
ghost use Rattle.writer.specs.declared.finish.FinishRefusal.TheVariants.{PageFull};
ghost use Rattle.writer.specs.GivenCards.{marked, given_cleared, changed_at, changed_all, BoardsPut};
ghost use Rattle.writer.specs.Finishings.{finish_number, finish_carries, finish_edition, checked_of, finishing_of, IsFinished};

use crate::give::give_tables;
use crate::held::ReadEdition;
use crate::page::put_page;
use planning::cards::{card_here, has_table, is_whole};
use planning::editions::{EditionsRefusal, LentBoxes, read_both};
use reader::store::copy_in;
use tables::letters::{Conventions, built_in};
use tables::page::Page;
use tables::refusal::Refusal;
use tables::refused::{Edition, Refused};

// Refusals 1 to 3 of an edition; 5 answers of another number of bytes than 20 a slip, 6 a byte above 13, 7 the page is too short;
// specs/Finishings.antt gives the numbers.
#[derive(Clone, Copy, Debug, PartialEq, Eq)]
pub enum FinishRefusal {
    Edition(EditionsRefusal),
    Answers(u64),
    Impossible(u64),
    PageFull(u64),
}

impl From<EditionsRefusal> for FinishRefusal {
    ghost use Rattle.std.specs.Prelude.{◌≡◌};
    ghost use Rattle.writer.specs.declared.finish.FinishRefusal.TheVariants.{Edition};

    ghost from_gives = { λ f g. g ≡ Edition f };

    fn from(f: EditionsRefusal) -> FinishRefusal {
        FinishRefusal::Edition(f)
    }
}

impl Refused for FinishRefusal {
    ghost number_of = { finish_number };

    ghost edition_of = { finish_edition };

    ghost carries = { finish_carries };

    fn number(self) -> u64 {
        match self {
            FinishRefusal::Edition(f) => f.number(),
            FinishRefusal::Answers(_) => 5,
            FinishRefusal::Impossible(_) => 6,
            FinishRefusal::PageFull(_) => 7,
        }
    }

    fn edition(self) -> Option<Edition> {
        match self {
            FinishRefusal::Edition(f) => f.edition(),
            FinishRefusal::Answers(_) | FinishRefusal::Impossible(_) | FinishRefusal::PageFull(_) =>
                None,
        }
    }

    fn carried(self) -> u64 {
        match self {
            FinishRefusal::Edition(f) => f.carried(),
            FinishRefusal::Answers(n) | FinishRefusal::Impossible(n) | FinishRefusal::PageFull(n) =>
                n,
        }
    }
}

// Words of a card: the first of its table's cells, and the table's kind; the kind of a table that was given, which no card that is read has.
const CELLS: usize = 18;

const KIND: usize = 38;

const GIVEN: u32 = 3;

// Marks the table of the board at index k as given, where the board is whole and has none.
fn mark_card(cards: &mut [u32], k: usize)
    requires { 64 * k + 64 ≤ length cards.old }
    ensures { cards.new ≡ changed_at marked k cards.old }
{
    let card = card_here(cards, k);
    let whole = is_whole(card);
    let tabled = has_table(card);
    if whole & !tabled {
        cards[64 * k + KIND] = GIVEN;
    }
}

// Marks the tables that were given: a whole board without a table. The cards are words with an index: of what as_chunks_mut cuts nothing is known
// once a card is changed, and a part that chunks_exact_mut gives is a slice, which mark_card would have to make a card again. clear_given, which
// needs no card, goes the same way, so that the same laws serve both loops. They are two, since one that is given what is done to a card would
// have to ask of it where the card lies and that the number of words stays.
fn mark_given(cards: &mut [u32], boards: usize)
    requires { 64 * boards ≤ length cards.old }
    ensures { cards.new ≡ changed_all marked boards cards.old }
{
    for k in 0..boards {
        mark_card(cards, k);
    }
}

// Takes the table of the board at index k away, where it was given.
fn clear_card(cards: &mut [u32], k: usize)
    requires { 64 * k + 64 ≤ length cards.old }
    ensures { cards.new ≡ changed_at given_cleared k cards.old }
{
    if cards[64 * k + KIND] == GIVEN {
        let none = [0u32; 21];
        copy_in(cards, 64 * k + CELLS, &none);
    }
}

// Takes the given tables away again.
fn clear_given(cards: &mut [u32], boards: usize)
    requires { 64 * boards ≤ length cards.old }
    ensures { cards.new ≡ changed_all given_cleared boards cards.old }
{
    for k in 0..boards {
        clear_card(cards, k);
    }
}

// Refuses answers that are not 20 bytes for each board to solve, or that have a byte above 13.
fn check_answers(answers: &[u8], solve: usize) -> Result<(), FinishRefusal>
    ensures { result ≡ checked_of solve answers.now }
{
    if answers.len() % 20 != 0 {
        return Err(FinishRefusal::Answers(solve as u64));
    }
    if answers.len() / 20 != solve {
        return Err(FinishRefusal::Answers(solve as u64));
    }
    match answers.iter().position(|b| *b > 13) {
        Some(k) => Err(FinishRefusal::Impossible(k as u64)),
        None => Ok(()),
    }
}

// Gives the boards of the new edition their tables and puts its page, where the answers are let through. The boxes are passed one by one, each
// as `&mut`, though only the new cards change: the check follows no call that reads two of them out of LentBoxes, nor a function that reads the
// cards of one edition in it while it changes those of the other. That the page's bytes are the same lent ones is no part of Puts, whose
// functions never end a page.
fn put_finished(
    page: &mut Page,
    c: Conventions,
    new: &[u8],
    old_cards: &mut [u32],
    olds: usize,
    cards: &mut [u32],
    entries: &mut [u32],
    news: usize,
    answers: &[u8],
) -> Result<(), FinishRefusal>
    requires { (64 * olds ≤ length old_cards.old) × (64 * news ≤ length cards.old) }
    ensures put { BoardsPut c new.now olds news old_cards.old cards.old entries.old answers.now page.old result cards.new page.new }
    ensures kept { (old_cards.new ≡ old_cards.old) × (entries.new ≡ entries.old) }
    ensures same { page.new.bytes.ghost_name ≡ page.old.bytes.ghost_name }
{
    let solve = give_tables(old_cards, olds, cards, news, answers);
    check_answers(answers, solve)?;
    mark_given(cards, news);
    put_page(
        page,
        &ReadEdition {
            text: new,
            cards,
            entries,
            boards: news,
        },
        c,
    );
    clear_given(cards, news);
    Ok(())
}

// Where a page was too short: the bytes needed. One for each refusal: of a closure given to map_err the check reads no fact in an answer
// (tried), and `From<Refusal>` would say of every refusal of tables that a page was full.
fn page_full(f: Refusal) -> FinishRefusal
    ensures { result ≡ PageFull (refusal_carries f) }
{
    FinishRefusal::PageFull(f.carried())
}

// Finishes the new edition on the page. What a refusal leaves is not said: finish_with sets it to 0.
fn finished(
    c: Conventions,
    old: &[u8],
    new: &[u8],
    boxes: &mut LentBoxes,
    answers: &[u8],
    page: &mut [u8],
) -> Result<u64, FinishRefusal>
    ensures answer { result ≡ finishing_of c old.now new.now (words_of boxes.old) answers.now (length page.old) }
    ensures well { is_ok result ≡ true → IsFinished c old.now new.now (words_of boxes.old) answers.now page.old result (words_of boxes.new) page.new }
    ensures same { SameLent boxes.old boxes.new }
{
    let both = read_both(c, old, new, boxes)?;
    let mut page = Page::new(page);
    put_finished(
        &mut page,
        c,
        new,
        boxes.old_cards,
        both.old.boards,
        boxes.new_cards,
        boxes.new_entries,
        both.new.boards,
        answers,
    )?;
    page.finish().map_err(page_full)
}

// Finishes by the given conventions: how many bytes; a refusal leaves all that was lent zero. finish stands beside it for the boundary, which
// passes none, since there are no default arguments.
pub fn finish_with(
    c: Conventions,
    old: &[u8],
    new: &[u8],
    boxes: &mut LentBoxes,
    answers: &[u8],
    page: &mut [u8],
) -> Result<u64, FinishRefusal>
    ensures finished { IsFinished c old.now new.now (words_of boxes.old) answers.now page.old result (words_of boxes.new) page.new }
    ensures same { SameLent boxes.old boxes.new }
{
    let done = finished(c, old, new, boxes, answers, page);
    if done.is_err() {
        boxes.zero();
        page.fill(0);
    }
    done
}

// Finishes the new edition on a page, given an old one and the answers: every whole board has a table.
pub fn finish(
    old: &[u8],
    new: &[u8],
    boxes: &mut LentBoxes,
    answers: &[u8],
    page: &mut [u8],
) -> Result<u64, FinishRefusal>
    ensures finished { IsFinished built_in old.now new.now (words_of boxes.old) answers.now page.old result (words_of boxes.new) page.new }
    ensures same { SameLent boxes.old boxes.new }
{
    finish_with(built_in(), old, new, boxes, answers, page)
}
