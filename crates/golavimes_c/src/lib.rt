// The exports of libgolavimes.a: the functions of golavimes under the same names, for C. include/golavimes.h is kept by hand beside this file.
// Each lent box is a parameter of its own, since C lends it as a pointer and a length. Each function of golavimes stands here once more, with its
// contract: a crate is a library or a static library, no other crate can depend on this one, and a C symbol's contract stands at the symbol.
#![tactic(auto)]

ghost use Rattle.golavimes.specs.Answers.{WroteOut, ReadOut, EditionOut, WritingOut, LinOut, PlanOut, StateOut, BehindOut, BoardsOut, SearchesOut, FinishOut};
ghost use Rattle.planning.specs.Plans.{four};
ghost use Rattle.tables.specs.Letters.{built_in};
ghost use Rattle.tables.specs.Tables.{digits_text, header_text, rows_text, table_of_digits, table_of_rows};

// The digits of a table, the value of a DoubleDummyTricks tag.
#[unsafe(no_mangle)]
pub extern "C" fn golavimes_dd_table_to_pbn(
    table: &[u8; 20],
    page: &mut [u8],
    answer: &mut [u64; 4],
) -> u64
    ensures { WroteOut (digits_text table.now) page.old page.new answer.new result }
{
    golavimes::golavimes_dd_table_to_pbn(table, page, answer)
}

// The value of an OptimumResultTable tag.
#[unsafe(no_mangle)]
pub extern "C" fn golavimes_optimum_result_table_header(
    table: &[u8; 20],
    page: &mut [u8],
    answer: &mut [u64; 4],
) -> u64
    ensures { WroteOut (header_text table.now) page.old page.new answer.new result }
{
    golavimes::golavimes_optimum_result_table_header(table, page, answer)
}

// The twenty rows of an OptimumResultTable section, an LF after each.
#[unsafe(no_mangle)]
pub extern "C" fn golavimes_optimum_result_table_rows(
    table: &[u8; 20],
    page: &mut [u8],
    answer: &mut [u64; 4],
) -> u64
    ensures { WroteOut (rows_text built_in table.now) page.old page.new answer.new result }
{
    golavimes::golavimes_optimum_result_table_rows(table, page, answer)
}

// Reads the value of a DoubleDummyTricks tag.
#[unsafe(no_mangle)]
pub extern "C" fn golavimes_dd_table_from_pbn(
    value: &[u8],
    table: &mut [u8; 20],
    answer: &mut [u64; 3],
) -> u64
    ensures { ReadOut (table_of_digits value.now) table.new answer.new result }
{
    golavimes::golavimes_dd_table_from_pbn(value, table, answer)
}

// Reads the data rows of an OptimumResultTable section, a text cut at each LF.
#[unsafe(no_mangle)]
pub extern "C" fn golavimes_optimum_result_table_from_rows(
    rows: &[u8],
    table: &mut [u8; 20],
    answer: &mut [u64; 3],
) -> u64
    ensures { ReadOut (table_of_rows built_in rows.now) table.new answer.new result }
{
    golavimes::golavimes_optimum_result_table_from_rows(rows, table, answer)
}

// Reads a text into cards of 64 words and entries of 4.
#[unsafe(no_mangle)]
pub extern "C" fn golavimes_read(
    text: &[u8],
    cards: &mut [u32],
    entries: &mut [u32],
    answer: &mut [u64; 5],
) -> u64
    ensures { EditionOut built_in text.now cards.old entries.old cards.new entries.new answer.new result }
{
    golavimes::golavimes_read(text, cards, entries, answer)
}

// Reads a text and writes it on a page, every comment and directive beside its tag.
#[unsafe(no_mangle)]
pub extern "C" fn golavimes_write(
    text: &[u8],
    cards: &mut [u32],
    entries: &mut [u32],
    page: &mut [u8],
    answer: &mut [u64; 4],
) -> u64
    ensures { WritingOut built_in text.now cards.old entries.old page.old cards.new entries.new page.new answer.new result }
{
    golavimes::golavimes_write(text, cards, entries, page, answer)
}

// Converts a LIN text to the page of a PBN edition.
#[unsafe(no_mangle)]
pub extern "C" fn golavimes_lin_to_pbn(text: &[u8], page: &mut [u8], answer: &mut [u64; 5]) -> u64
    ensures { LinOut built_in text.now page.old page.new answer.new result }
{
    golavimes::golavimes_lin_to_pbn(text, page, answer)
}

// Plans two editions: totals, and a slip for each board to solve.
#[unsafe(no_mangle)]
pub extern "C" fn golavimes_plan(
    old: &[u8],
    new: &[u8],
    old_cards: &mut [u32],
    old_entries: &mut [u32],
    new_cards: &mut [u32],
    new_entries: &mut [u32],
    slips: &mut [u64],
    answer: &mut [u64; 10],
) -> u64
    ensures { PlanOut built_in old.now new.now
        (four old_cards.old old_entries.old new_cards.old new_entries.old)
        slips.old
        (four old_cards.new old_entries.new new_cards.new new_entries.new)
        slips.new answer.new result }
{
    golavimes::golavimes_plan(
        old,
        new,
        old_cards,
        old_entries,
        new_cards,
        new_entries,
        slips,
        answer,
    )
}

// The state of the new edition's board at a position from 1.
#[unsafe(no_mangle)]
pub extern "C" fn golavimes_state(
    old: &[u8],
    new: &[u8],
    old_cards: &mut [u32],
    old_entries: &mut [u32],
    new_cards: &mut [u32],
    new_entries: &mut [u32],
    position: u64,
    answer: &mut [u64; 5],
) -> u64
    ensures { StateOut built_in old.now new.now
        (four old_cards.old old_entries.old new_cards.old new_entries.old)
        (four old_cards.new old_entries.new new_cards.new new_entries.new)
        position answer.new result }
{
    golavimes::golavimes_state(
        old,
        new,
        old_cards,
        old_entries,
        new_cards,
        new_entries,
        position,
        answer,
    )
}

// The record behind the new edition's board at a position from 1: which edition's, its start and its length.
#[unsafe(no_mangle)]
pub extern "C" fn golavimes_record_behind(
    old: &[u8],
    new: &[u8],
    old_cards: &mut [u32],
    old_entries: &mut [u32],
    new_cards: &mut [u32],
    new_entries: &mut [u32],
    position: u64,
    answer: &mut [u64; 6],
) -> u64
    ensures { BehindOut built_in old.now new.now
        (four old_cards.old old_entries.old new_cards.old new_entries.old)
        (four old_cards.new old_entries.new new_cards.new new_entries.new)
        position answer.new result }
{
    golavimes::golavimes_record_behind(
        old,
        new,
        old_cards,
        old_entries,
        new_cards,
        new_entries,
        position,
        answer,
    )
}

// Five numbers for each board of the new edition: state, source board, and edition, start and end of the record behind it.
#[unsafe(no_mangle)]
pub extern "C" fn golavimes_boards(
    old: &[u8],
    new: &[u8],
    old_cards: &mut [u32],
    old_entries: &mut [u32],
    new_cards: &mut [u32],
    new_entries: &mut [u32],
    boards: &mut [u64],
    answer: &mut [u64; 4],
) -> u64
    ensures { BoardsOut built_in old.now new.now
        (four old_cards.old old_entries.old new_cards.old new_entries.old)
        boards.old
        (four old_cards.new old_entries.new new_cards.new new_entries.new)
        boards.new answer.new result }
{
    golavimes::golavimes_boards(
        old,
        new,
        old_cards,
        old_entries,
        new_cards,
        new_entries,
        boards,
        answer,
    )
}

// Five numbers for each board of the new edition: state, source board, and the hand words compared in the searches for old, near and twin.
#[unsafe(no_mangle)]
pub extern "C" fn golavimes_searches(
    old: &[u8],
    new: &[u8],
    old_cards: &mut [u32],
    old_entries: &mut [u32],
    new_cards: &mut [u32],
    new_entries: &mut [u32],
    searches: &mut [u64],
    answer: &mut [u64; 5],
) -> u64
    ensures { SearchesOut built_in old.now new.now
        (four old_cards.old old_entries.old new_cards.old new_entries.old)
        searches.old
        (four old_cards.new old_entries.new new_cards.new new_entries.new)
        searches.new answer.new result }
{
    golavimes::golavimes_searches(
        old,
        new,
        old_cards,
        old_entries,
        new_cards,
        new_entries,
        searches,
        answer,
    )
}

// Finishes the new edition on a page, given an old one and 20 answers for each board to solve.
#[unsafe(no_mangle)]
pub extern "C" fn golavimes_finish(
    old: &[u8],
    new: &[u8],
    old_cards: &mut [u32],
    old_entries: &mut [u32],
    new_cards: &mut [u32],
    new_entries: &mut [u32],
    answers: &[u8],
    page: &mut [u8],
    answer: &mut [u64; 4],
) -> u64
    ensures { FinishOut built_in old.now new.now
        (four old_cards.old old_entries.old new_cards.old new_entries.old)
        answers.now page.old
        (four old_cards.new old_entries.new new_cards.new new_entries.new)
        page.new answer.new result }
{
    golavimes::golavimes_finish(
        old,
        new,
        old_cards,
        old_entries,
        new_cards,
        new_entries,
        answers,
        page,
        answer,
    )
}
