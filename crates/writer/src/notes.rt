// The notes of an auction, by number.
ghost use Rattle.std.specs.Prelude.{◌≡◌, false, [], ◌+◌, ◌-◌, ◌<◌, MatchOption};
ghost use Rattle.tables.specs.Text.{ascii};
ghost use Rattle.tables.specs.Numbers.{decimal};
ghost use Rattle.tables.specs.Puts.{Puts};
ghost use Rattle.reader.specs.Words.{same};
ghost use Rattle.writer.specs.Sections.{note_values};
ghost use Rattle.writer.specs.PresentSteps.{is_any};
ghost use Rattle.writer.specs.Items.{items_of, of_notes, tag_of, remarks_text, tag_line_text, notes_text, tags_at, note_number, note_number_at, note_places, note_text, has_value, placed_note, takes_value, takes_tag, full_note, all_notes};

use crate::items::Items;
use crate::remarks::{put_remarks, put_under};
use crate::tags::{put_close, put_open};
use reader::names::{TagName, tag_name};
use reader::store::{COMMENTARY, DIRECTIVE, NAME};
use tables::numbers::parse_number;
use tables::page::Page;
use tables::text::{from, index_of, trim, upto};

// The notes of an auction: the entries from its calls on, and the place of the value of each note among them, by number. No value stands at
// the place 0, which is that of no note: an Option would say no more, in twice the memory.
#[derive(Clone, Copy)]
pub struct Notes<'a> {
    pub items: Items<'a>,
    pub places: [usize; 256],
}

// The number of a note's value. The definitions have 256 for none, the first number past the places, so that none puts nothing in its place.
fn note_number(value: &[u8]) -> Option<u8>
    ensures { MatchOption result (note_number value.now ≡ 256) (λ n. (note_number value.now ≡ n) × (n < 256)) }
{
    let k = index_of(value, 58);
    if k < value.len() {
        // With `?` (tried) the value of the residual is one more thing to show.
        let Some(n) = parse_number(trim(upto(value, k)), 255) else {
            return None;
        };
        return Some(n as u8);
    }
    None
}

// The number of the note that an entry names.
#[tactic(auto, unfolding(crate::specs::Items::note_number_at, crate::specs::Held::item_at))]
fn note_of(entry: &Items) -> Option<u8>
    ensures { MatchOption result
        (note_number_at entry.now.text.now entry.now.entries.now entry.now.first ≡ 256)
        (λ n. (note_number_at entry.now.text.now entry.now.entries.now entry.now.first ≡ n) × (n < 256)) }
{
    if entry.kind() != NAME {
        return None;
    }
    match tag_name(entry.bytes()) {
        Some(TagName::Note) => note_number(entry.bytes_at(entry.first + 1)),
        _ => None,
    }
}

// Whether an auction has notes, given the entries from its calls on.
pub(crate) fn has_notes(items: &Items) -> bool
    ensures { result ≡ is_any (note_values (tags_at items.now.text.now items.now.entries.now items.now.first items.now.count)) }
{
    let mut rest = *items;
    rest.any(|entry| note_of(&entry).is_some())
}

// Puts the place of each note's value at its number, the last note of a number over the others.
fn set_places(items: &Items, places: &mut [usize; 256])
    ensures { places.new ≡ note_places items.now.text.now items.now.entries.now places.old items.now.first items.now.count }
{
    for entry in *items {
        if let Some(n) = note_of(&entry) {
            places[n as usize] = entry.first + 1;
        }
    }
}

// A note on its line, given the place of its value.
fn put_note(page: &mut Page, items: &Items, n: u8, place: usize)
    ensures { Puts page.old (tag_line_text (ascii "Note") (note_text items.now.text.now items.now.entries.now n place)) page.new }
{
    let value = items.bytes_at(place);
    let k = index_of(value, 58);
    put_open(page, b"Note");
    page.put_decimal(n as u32);
    page.put_byte(58);
    page.put_text(from(value, k + 1));
    put_close(page);
}

// Whether s is n in decimal, which is put into ten bytes, as nothing is lent to put it on.
fn is_decimal(s: &[u8], n: u8) -> bool
    ensures { result ≡ same s.now (decimal n) }
{
    let mut digits = [0u8; 10];
    let mut page = Page::new(&mut digits);
    page.put_decimal(n as u32);
    let k = page.at;
    s == upto(&digits, k)
}

// Whether the note n, whose value has a place, is written with this value.
fn is_note(items: &Items, n: u8, place: usize, value: &[u8]) -> bool
    ensures { result ≡ same value.now (note_text items.now.text.now items.now.entries.now n place) }
{
    let own = items.bytes_at(place);
    let behind = from(own, index_of(own, 58) + 1);
    let k = index_of(value, 58);
    if k < value.len() {
        return is_decimal(upto(value, k), n) & (from(value, k + 1) == behind);
    }
    false
}

// Whether the note n is written, and with this value.
fn is_written_as(notes: &Notes, n: u8, value: &[u8]) -> bool
    ensures { result ≡ has_value value.now (of_notes placed_note notes.now n) }
{
    let place = notes.places[n as usize];
    if place == 0 {
        return false;
    }
    is_note(&notes.items, n, place, value)
}

// Whether the note n takes the directives of a Note of this value; fresh says that it is the first. Notes, n and fresh are passed as they stand:
// a struct of them would be made by put_placed alone and taken apart in each function.
fn takes_value(notes: &Notes, n: u8, fresh: bool, value: &[u8]) -> bool
    ensures { result ≡ of_notes takes_value notes.now n fresh value.now }
{
    let Some(m) = note_number(value) else {
        return fresh;
    };
    if m == n {
        return fresh || is_written_as(notes, m, value);
    }
    fresh && !is_written_as(notes, m, value)
}

// Whether the note n takes the directives of the tag that an entry is.
#[tactic(auto)]
fn takes_tag(notes: &Notes, n: u8, fresh: bool, entry: &Items) -> bool
    ensures { result ≡ of_notes takes_tag notes.now n fresh (tag_of entry.now) }
{
    matches!(entry.bytes(), b"Note") && takes_value(notes, n, fresh, entry.value())
}

// The directives that the note n takes.
fn put_taken(page: &mut Page, notes: &Notes, n: u8, fresh: bool, remarks: &Items)
    ensures { Puts page.old (remarks_text (of_notes takes_tag notes.now n fresh) false 3 (items_of remarks.now)) page.new }
{
    put_remarks(
        page,
        remarks,
        false,
        DIRECTIVE,
        |entry| takes_tag(notes, n, fresh, &entry),
    );
}

// A note, the directives that it takes and, after the first, the blocks.
fn put_full_note(page: &mut Page, notes: &Notes, n: u8, fresh: bool, remarks: &Items)
    ensures { Puts page.old (of_notes full_note notes.now n fresh (items_of remarks.now)) page.new }
{
    put_note(page, &notes.items, n, notes.places[n as usize]);
    put_taken(page, notes, n, fresh, remarks);
    if fresh {
        put_under(page, remarks, COMMENTARY, b"Note");
    }
}

// The notes that have a place, by rising number, each with what follows it.
fn put_placed(page: &mut Page, notes: &Notes, remarks: &Items)
    ensures { Puts page.old (of_notes all_notes notes.now (items_of remarks.now)) page.new }
{
    let mut fresh = true;
    for (n, place) in notes.places.iter().enumerate() {
        if *place != 0 {
            put_full_note(page, notes, n as u8, fresh, remarks);
            fresh = false;
        }
    }
}

// All notes of an auction, given the entries from its calls on.
pub(crate) fn put_notes(page: &mut Page, items: &Items, remarks: &Items)
    ensures { Puts page.old (notes_text [] (note_values (tags_at items.now.text.now items.now.entries.now items.now.first items.now.count)) (items_of remarks.now)) page.new }
{
    if has_notes(items) {
        let mut places = [0usize; 256];
        set_places(items, &mut places);
        let notes = Notes {
            items: *items,
            places,
        };
        put_placed(page, &notes, remarks);
    }
}
