// The boundary: thin functions on byte and number slices over the layers. golavimes_c exports them to C.
// Each lent box is a parameter of its own, since C lends it as a pointer and a length. Each function stands here and in golavimes_c: a
// crate is a library or a static library, C needs the second, and demands, which proves its theorems of these functions, can depend on a
// library alone. LentBoxes is written out in six functions: its four fields are two of each kind, which the literal names and a function
// would take by place; made by one (tried), the check does not find what the four boxes hold after the call.
#![tactic(auto)]

ghost use Rattle.std.specs.Prelude.{◌≡◌, ◌+◌, ◌-◌, ◌≤◌, ◌∷◌, length, get_or, replicate};
ghost use Rattle.golavimes.specs.Answers.{decoded_numbers, table_left, bytes_numbers, part_numbers, WroteOut, ReadOut, EditionOut, WritingOut, LinOut, PlanOut, StateOut, BehindOut, BoardsOut, SearchesOut, FinishOut};
ghost use Rattle.planning.specs.Plans.{four};
ghost use Rattle.tables.specs.Letters.{built_in};
ghost use Rattle.tables.specs.Tables.{digits_text, header_text, rows_text, table_of_digits, table_of_rows};

use planning::behind::Behind;
use planning::editions::LentBoxes;
use tables::refusal::Refusal;
use tables::refused::{Edition, Refused};

// Tells the caller values, and that nothing is refused. Each export matches for itself: where one `tell` is given a Result of values, as
// `converted.map(|n| [n.bytes, n.boards])` (tried), `returns` of golavimes_lin_to_pbn stays open, since the check does not take apart the
// Result that `map` was given; an answer in each export would be longer than its match.
fn tell(values: &[u64], answer: &mut [u64]) -> u64
    requires { length answer.old ≡ 3 + length values.now }
    ensures { (answer.new ≡ 0 ∷ 0 ∷ 0 ∷ values.now) × (result ≡ 0) }
{
    answer[..3].fill(0);
    answer[3..].copy_from_slice(values);
    0
}

// Tells the caller a refusal. All values are 0.
fn refuse<R: Refused>(refusal: R, answer: &mut [u64]) -> u64
    requires { 3 ≤ length answer.old }
    ensures { (answer.new ≡ R.number_of refusal ∷ R.edition_of refusal ∷ R.carries refusal ∷ replicate (length answer.old - 3) 0) × (result ≡ R.number_of refusal) }
{
    answer.fill(0);
    answer[0] = refusal.number();
    answer[1] = refusal.edition().map_or(0, Edition::number);
    answer[2] = refusal.carried();
    answer[0]
}

// Tells the caller how many bytes were written.
fn tell_bytes<R: Refused>(written: Result<u64, R>, answer: &mut [u64; 4]) -> u64
    ensures { (answer.new ≡ bytes_numbers R.number_of R.edition_of R.carries written) × (result ≡ get_or answer.new 0 0) }
{
    match written {
        Ok(bytes) => tell(&[bytes], answer),
        Err(f) => refuse(f, answer),
    }
}

// The digits of a table, the value of a DoubleDummyTricks tag.
pub fn golavimes_dd_table_to_pbn(table: &[u8; 20], page: &mut [u8], answer: &mut [u64; 4]) -> u64
    ensures { WroteOut (digits_text table.now) page.old page.new answer.new result }
{
    tell_bytes(tables::dd::dd_table_to_pbn(table, page), answer)
}

// The value of an OptimumResultTable tag.
pub fn golavimes_optimum_result_table_header(
    table: &[u8; 20],
    page: &mut [u8],
    answer: &mut [u64; 4],
) -> u64
    ensures { WroteOut (header_text table.now) page.old page.new answer.new result }
{
    tell_bytes(tables::dd::optimum_result_table_header(table, page), answer)
}

// The twenty rows of an OptimumResultTable section, an LF after each.
pub fn golavimes_optimum_result_table_rows(
    table: &[u8; 20],
    page: &mut [u8],
    answer: &mut [u64; 4],
) -> u64
    ensures { WroteOut (rows_text built_in table.now) page.old page.new answer.new result }
{
    tell_bytes(tables::dd::optimum_result_table_rows(table, page), answer)
}

// Hands a table that was read to the caller's: zeros after a refusal.
fn hand_out(read: Result<[u8; 20], Refusal>, table: &mut [u8; 20], answer: &mut [u64; 3]) -> u64
    ensures { (table.new ≡ table_left read) × (answer.new ≡ decoded_numbers read) × (result ≡ get_or (decoded_numbers read) 0 0) }
{
    *table = read.unwrap_or([0; 20]);
    match read {
        Ok(_) => tell(&[], answer),
        Err(f) => refuse(f, answer),
    }
}

// Reads the value of a DoubleDummyTricks tag.
pub fn golavimes_dd_table_from_pbn(value: &[u8], table: &mut [u8; 20], answer: &mut [u64; 3]) -> u64
    ensures { ReadOut (table_of_digits value.now) table.new answer.new result }
{
    hand_out(tables::dd::dd_table_from_pbn(value), table, answer)
}

// Reads the data rows of an OptimumResultTable section, a text cut at each LF.
pub fn golavimes_optimum_result_table_from_rows(
    rows: &[u8],
    table: &mut [u8; 20],
    answer: &mut [u64; 3],
) -> u64
    ensures { ReadOut (table_of_rows built_in rows.now) table.new answer.new result }
{
    hand_out(
        tables::dd::optimum_result_table_from_rows(rows),
        table,
        answer,
    )
}

// Reads a text into cards of 64 words and entries of 4.
pub fn golavimes_read(
    text: &[u8],
    cards: &mut [u32],
    entries: &mut [u32],
    answer: &mut [u64; 5],
) -> u64
    ensures { EditionOut built_in text.now cards.old entries.old cards.new entries.new answer.new result }
{
    match reader::edition::read_pbn(text, cards, entries) {
        Ok(n) => tell(&[n.boards as u64, n.entries as u64], answer),
        Err(f) => refuse(f, answer),
    }
}

// Reads a text and writes it on a page, every comment and directive beside its tag.
pub fn golavimes_write(
    text: &[u8],
    cards: &mut [u32],
    entries: &mut [u32],
    page: &mut [u8],
    answer: &mut [u64; 4],
) -> u64
    ensures { WritingOut built_in text.now cards.old entries.old page.old cards.new entries.new page.new answer.new result }
{
    tell_bytes(writer::write::write_pbn(text, cards, entries, page), answer)
}

// Converts a LIN text to the page of a PBN edition.
pub fn golavimes_lin_to_pbn(text: &[u8], page: &mut [u8], answer: &mut [u64; 5]) -> u64
    ensures { LinOut built_in text.now page.old page.new answer.new result }
{
    match lin::convert::lin_to_pbn(text, page) {
        Ok(written) => tell(&[written.bytes, written.boards], answer),
        Err(f) => refuse(f, answer),
    }
}

// Plans two editions: totals, and a slip for each board to solve.
pub fn golavimes_plan(
    old: &[u8],
    new: &[u8],
    old_cards: &mut [u32],
    old_entries: &mut [u32],
    new_cards: &mut [u32],
    new_entries: &mut [u32],
    slips: &mut [u64],
    answer: &mut [u64; 10],
) -> u64
    ensures { PlanOut built_in old.now new.now
        (four old_cards.old old_entries.old new_cards.old new_entries.old)
        slips.old
        (four old_cards.new old_entries.new new_cards.new new_entries.new)
        slips.new answer.new result }
{
    let mut boxes = LentBoxes {
        old_cards,
        old_entries,
        new_cards,
        new_entries,
    };
    match planning::plan::plan(old, new, &mut boxes, slips) {
        Ok(t) => tell(
            &[t.boards, t.blank, t.own, t.old, t.near, t.twin, t.solve],
            answer,
        ),
        Err(f) => refuse(f, answer),
    }
}

// The state of the new edition's board at a position from 1.
pub fn golavimes_state(
    old: &[u8],
    new: &[u8],
    old_cards: &mut [u32],
    old_entries: &mut [u32],
    new_cards: &mut [u32],
    new_entries: &mut [u32],
    position: u64,
    answer: &mut [u64; 5],
) -> u64
    ensures { StateOut built_in old.now new.now
        (four old_cards.old old_entries.old new_cards.old new_entries.old)
        (four old_cards.new old_entries.new new_cards.new new_entries.new)
        position answer.new result }
{
    let mut boxes = LentBoxes {
        old_cards,
        old_entries,
        new_cards,
        new_entries,
    };
    match planning::state_at::state_at(old, new, &mut boxes, position) {
        Ok((_, s)) => tell(&[s.number(), s.source()], answer),
        Err(f) => refuse(f, answer),
    }
}

// The part of an edition that is behind a board: its edition, its start and its length.
fn part_numbers(b: Option<Behind>) -> [u64; 3]
    ensures { result ≡ part_numbers b }
{
    match b {
        Some(b) => [b.edition.number(), b.start, b.end.saturating_sub(b.start)],
        None => [0; 3],
    }
}

// The record behind the new edition's board at a position from 1: which edition's, its start and its length.
pub fn golavimes_record_behind(
    old: &[u8],
    new: &[u8],
    old_cards: &mut [u32],
    old_entries: &mut [u32],
    new_cards: &mut [u32],
    new_entries: &mut [u32],
    position: u64,
    answer: &mut [u64; 6],
) -> u64
    ensures { BehindOut built_in old.now new.now
        (four old_cards.old old_entries.old new_cards.old new_entries.old)
        (four old_cards.new old_entries.new new_cards.new new_entries.new)
        position answer.new result }
{
    let mut boxes = LentBoxes {
        old_cards,
        old_entries,
        new_cards,
        new_entries,
    };
    match planning::behind::place_behind(old, new, &mut boxes, position) {
        Ok((_, b)) => tell(&part_numbers(b), answer),
        Err(f) => refuse(f, answer),
    }
}

// Five numbers for each board of the new edition: state, source board, and edition, start and end of the record behind it.
pub fn golavimes_boards(
    old: &[u8],
    new: &[u8],
    old_cards: &mut [u32],
    old_entries: &mut [u32],
    new_cards: &mut [u32],
    new_entries: &mut [u32],
    boards: &mut [u64],
    answer: &mut [u64; 4],
) -> u64
    ensures { BoardsOut built_in old.now new.now
        (four old_cards.old old_entries.old new_cards.old new_entries.old)
        boards.old
        (four old_cards.new old_entries.new new_cards.new new_entries.new)
        boards.new answer.new result }
{
    let mut boxes = LentBoxes {
        old_cards,
        old_entries,
        new_cards,
        new_entries,
    };
    match planning::boards::plan_boards(old, new, &mut boxes, boards) {
        Ok(both) => tell(&[both.new.boards as u64], answer),
        Err(f) => refuse(f, answer),
    }
}

// Five numbers for each board of the new edition: state, source board, and the hand words compared in the searches for old, near and twin.
pub fn golavimes_searches(
    old: &[u8],
    new: &[u8],
    old_cards: &mut [u32],
    old_entries: &mut [u32],
    new_cards: &mut [u32],
    new_entries: &mut [u32],
    searches: &mut [u64],
    answer: &mut [u64; 5],
) -> u64
    ensures { SearchesOut built_in old.now new.now
        (four old_cards.old old_entries.old new_cards.old new_entries.old)
        searches.old
        (four old_cards.new old_entries.new new_cards.new new_entries.new)
        searches.new answer.new result }
{
    let mut boxes = LentBoxes {
        old_cards,
        old_entries,
        new_cards,
        new_entries,
    };
    match planning::searches::plan_searches(old, new, &mut boxes, searches) {
        Ok(s) => tell(&[s.both.new.boards as u64, s.words], answer),
        Err(f) => refuse(f, answer),
    }
}

// Finishes the new edition on a page, given an old one and 20 answers for each board to solve.
pub fn golavimes_finish(
    old: &[u8],
    new: &[u8],
    old_cards: &mut [u32],
    old_entries: &mut [u32],
    new_cards: &mut [u32],
    new_entries: &mut [u32],
    answers: &[u8],
    page: &mut [u8],
    answer: &mut [u64; 4],
) -> u64
    ensures { FinishOut built_in old.now new.now
        (four old_cards.old old_entries.old new_cards.old new_entries.old)
        answers.now page.old
        (four old_cards.new old_entries.new new_cards.new new_entries.new)
        page.new answer.new result }
{
    let mut boxes = LentBoxes {
        old_cards,
        old_entries,
        new_cards,
        new_entries,
    };
    tell_bytes(
        writer::finish::finish(old, new, &mut boxes, answers, page),
        answer,
    )
}
