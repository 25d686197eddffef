// The two PBN forms of a double-dummy table (dd.rs). A table is an array of exactly 20 bytes, its cells in the order N, S, E, W,
// each NT, S, H, D, C.
ghost use Rattle.std.specs.Prelude.{◌≡◌, ◌+◌, ◌≤◌, ◌<◌, length, replicate, cond, ltb, MatchOption};
ghost use Rattle.std.specs.List.{list_any};
ghost use Rattle.tables.specs.Letters.{built_in};
ghost use Rattle.tables.specs.Text.{characters};
ghost use Rattle.tables.specs.Numbers.{decimal};
ghost use Rattle.tables.specs.Page.{Wrote, right};
ghost use Rattle.tables.specs.Puts.{Puts};
ghost use Rattle.tables.specs.Tables.{digit_byte, digits_text, digit_of, digits_reading, table_of_digits, header_text, row_order, cell_of, column_text, row_text, rows_text, fields_row, row_of, stored_row, missing, gathered, table_of_rows};

use crate::letters::{Conventions, built_in, seat_letter, seat_of, strain_of, suit_letter};
use crate::lines::lines_of;
use crate::numbers::parse_number;
use crate::page::Page;
use crate::refusal::Refusal;
use crate::text::{
    count_characters, first_character, first_word, from, next_words, trim, trim_start,
};

// One trick count as a base-14 digit, d of more than 13: `from_digit` answers an Option of a char, with none there, for three arms.
#[tactic(auto, unfolding(crate::specs::Tables::digit_byte))]
pub fn encode_tricks(tricks: u8) -> u8
    ensures { result ≡ digit_byte tricks }
{
    match tricks {
        0..=9 => b'0' + tricks,
        10..=12 => b'a' - 10 + tricks,
        _ => b'd',
    }
}

// The inverse of encode_tricks, also of A to D.
#[tactic(auto, unfolding(crate::specs::Tables::digit_of))]
fn decode_tricks(b: u8) -> Option<u8>
    ensures { MatchOption result (13 < digit_of b) (λ d. (d ≡ digit_of b) × (d ≤ 13)) }
{
    char::from(b).to_digit(14).map(|d| d as u8)
}

// The digits of a table of bytes. The writer's put_digits has the words of a card, any of which may be above 255 and is cut first: one
// over both would take an iterator for three lines.
fn put_digits(page: &mut Page, table: &[u8])
    ensures { Puts page.old (digits_text table.now) page.new }
{
    for tricks in table {
        page.put_byte(encode_tricks(*tricks));
    }
}

// The value of a DoubleDummyTricks tag. Given to one function, what the three writers put between the first line and the last would be a
// closure, with a contract for it.
pub fn dd_table_to_pbn(table: &[u8; 20], page: &mut [u8]) -> Result<u64, Refusal>
    ensures { Wrote (digits_text table.now) page.old page.new result }
{
    let mut put = Page::new(page);
    put_digits(&mut put, table);
    put.finish()
}

// The digits of a text of twenty characters. The byte i is the character i: each before it was a digit, one byte.
fn digits_read(value: &[u8]) -> Result<[u8; 20], Refusal>
    requires { length (characters value.now) ≡ 20 }
    ensures { result ≡ digits_reading (characters value.now) }
{
    let mut table = [0; 20];
    for (i, cell) in table.iter_mut().enumerate() {
        let Some(tricks) = decode_tricks(first_character(from(value, i))) else {
            return Err(Refusal::Digit(i as u64));
        };
        *cell = tricks;
    }
    Ok(table)
}

// Reads the value of a DoubleDummyTricks tag.
#[tactic(auto, unfolding(crate::specs::Tables::table_of_digits, crate::specs::Tables::digits_reading))]
pub fn dd_table_from_pbn(value: &[u8]) -> Result<[u8; 20], Refusal>
    ensures { result ≡ table_of_digits value.now }
{
    let v = trim(value);
    let n = count_characters(v);
    if n == 20 {
        return digits_read(v);
    }
    Err(Refusal::Length(n as u64))
}

// Whether the result column is two wide and not one: a cell reaches ten tricks.
fn is_wide(table: &[u8]) -> bool
    ensures { result ≡ list_any (λ t. ltb 9 t) table.now }
{
    table.iter().any(|tricks| *tricks > 9)
}

fn put_header(page: &mut Page, table: &[u8])
    ensures { Puts page.old (header_text table.now) page.new }
{
    page.put_text(b"Declarer;Denomination\\2R;Result\\");
    page.put_byte(if is_wide(table) { b'2' } else { b'1' });
    page.put_byte(b'R');
}

// The value of an OptimumResultTable tag.
pub fn optimum_result_table_header(table: &[u8; 20], page: &mut [u8]) -> Result<u64, Refusal>
    ensures { Wrote (header_text table.now) page.old page.new result }
{
    let mut put = Page::new(page);
    put_header(&mut put, table);
    put.finish()
}

// Rows run N, S, E, W.
#[tactic(auto, unfolding(crate::specs::Tables::row_order))]
fn row_order(k: u8) -> u8
    ensures { (result ≡ row_order k) × (result ≤ k + 1) }
{
    match k {
        1 => 2,
        2 => 1,
        _ => k,
    }
}

fn put_column(page: &mut Page, c: Conventions, k: u8)
    requires { k < 5 }
    ensures { Puts page.old (column_text c k) page.new }
{
    if k == 0 {
        page.put_text(b"NT");
    } else {
        page.put_byte(b' ');
        page.put_byte(suit_letter(c, 4 - k));
    }
}

// Puts a number to the right in two places, or in one.
fn put_right(page: &mut Page, wide: bool, tricks: u8)
    ensures { Puts page.old (right (cond wide 2 1) (decimal tricks)) page.new }
{
    if (tricks < 10) & wide {
        page.put_byte(b' ');
    }
    page.put_decimal(u32::from(tricks));
}

fn put_row(page: &mut Page, c: Conventions, wide: bool, cell: u8, tricks: u8)
    ensures { Puts page.old (row_text c (cond wide 2 1) cell tricks) page.new }
{
    page.put_byte(seat_letter(c, row_order(cell / 5)));
    page.put_byte(b' ');
    put_column(page, c, cell % 5);
    page.put_byte(b' ');
    put_right(page, wide, tricks);
}

fn put_rows(page: &mut Page, c: Conventions, table: &[u8; 20])
    ensures { Puts page.old (rows_text c table.now) page.new }
{
    let wide = is_wide(table);
    for (i, tricks) in table.iter().enumerate() {
        put_row(page, c, wide, i as u8, *tricks);
        page.put_byte(b'\n');
    }
}

// The twenty data rows of an OptimumResultTable section, an LF after each.
pub fn optimum_result_table_rows(table: &[u8; 20], page: &mut [u8]) -> Result<u64, Refusal>
    ensures { Wrote (rows_text built_in table.now) page.old page.new result }
{
    let mut put = Page::new(page);
    put_rows(&mut put, built_in(), table);
    put.finish()
}

// A cell of the table that a row gives, by its place, and its tricks.
#[derive(Clone, Copy)]
pub struct Cell {
    pub place: usize,
    pub tricks: u8,
}

// Seats and strains are numbers, as in a card's words in C; an enum would be turned back for this sum.
#[tactic(auto, unfolding(crate::specs::Tables::cell_of))]
fn cell_of(seat: u8, strain: u8) -> usize
    requires { (seat < 4) × (strain < 5) }
    ensures { result ≡ cell_of seat strain }
{
    (5 * row_order(seat) + (4 - strain)) as usize
}

#[tactic(auto, unfolding(crate::specs::Tables::fields_row))]
fn read_fields(
    c: Conventions,
    declarer: &[u8],
    denomination: &[u8],
    outcome: &[u8],
    n: u64,
) -> Result<Option<Cell>, Refusal>
    ensures { result ≡ fields_row c n declarer.now denomination.now outcome.now }
{
    let seat = seat_of(c, first_character(declarer)).ok_or(Refusal::Declarer(n))?;
    let strain = strain_of(c, denomination).ok_or(Refusal::Denomination(n))?;
    let v = parse_number(outcome, 255).ok_or(Refusal::Outcome(n))?;
    if v > 13 {
        return Err(Refusal::Over(n));
    }
    Ok(Some(Cell {
        place: cell_of(seat, strain),
        tricks: v as u8,
    }))
}

// Reads one row, number n: a blank one gives no cell.
pub fn read_row(c: Conventions, row: &[u8], n: u64) -> Result<Option<Cell>, Refusal>
    ensures { result ≡ row_of c n row.now }
{
    let first = trim_start(row);
    if first.is_empty() {
        return Ok(None);
    }
    let second = next_words(first);
    let third = next_words(second);
    if third.is_empty() || !next_words(third).is_empty() {
        return Err(Refusal::Fields(n));
    }
    read_fields(
        c,
        first_word(first),
        first_word(second),
        first_word(third),
        n,
    )
}

// The cells before any row: 255 for one that none has given, as the definitions say. With Options the table would have to be built from
// them.
pub fn no_cells() -> [u8; 20]
    ensures { result ≡ replicate 20 255 }
{
    [255; 20]
}

// The cells after a row; a faulty row leaves them. The last row for a cell wins.
pub fn stored_row(mut cells: [u8; 20], row: Result<Option<Cell>, Refusal>) -> [u8; 20]
    ensures { result ≡ stored_row cells row }
{
    if let Ok(Some(cell)) = row {
        if cell.place < 20 {
            cells[cell.place] = cell.tricks;
        }
    }
    cells
}

fn count_missing(cells: &[u8]) -> usize
    ensures { (result ≡ missing cells.now) × (result ≤ length cells.now) }
{
    cells.iter().filter(|tricks| **tricks == 255).count()
}

// The table of cells that all rows have given.
#[tactic(auto, unfolding(crate::specs::Tables::gathered))]
pub fn gathered_table(cells: [u8; 20]) -> Result<[u8; 20], Refusal>
    ensures { result ≡ gathered cells }
{
    let n = count_missing(&cells);
    if n == 0 {
        return Ok(cells);
    }
    Err(Refusal::Missing(n as u64))
}

// Reads the data rows of an OptimumResultTable section, a text cut at each LF.
pub fn optimum_result_table_from_rows(rows: &[u8]) -> Result<[u8; 20], Refusal>
    ensures { result ≡ table_of_rows built_in rows.now }
{
    let mut cells = no_cells();
    for (n, row) in lines_of(rows).enumerate() {
        cells = stored_row(cells, Ok(read_row(built_in(), row, n as u64)?));
    }
    gathered_table(cells)
}
