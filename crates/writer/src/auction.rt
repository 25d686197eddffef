// The data lines of an auction (PBN 2.1 section 3.5).
ghost use Rattle.std.specs.Prelude.{◌≡◌, false, cond, ◌∷◌, [], eqb};
ghost use Rattle.tables.specs.Puts.{Puts};
ghost use Rattle.writer.specs.Items.{items_of, before_call, calls_text, last_code, end_text, auction_text};

use crate::items::Items;
use crate::tokens::put_call;
use reader::store::{ANNOTATION, CALL};
use reader::words::PLUS;
use tables::letters::Conventions;
use tables::page::Page;

// The LF or the blank before the call number n.
pub fn put_before(page: &mut Page, n: usize)
    ensures { Puts page.old (before_call n) page.new }
{
    if n == 0 {
        return;
    }
    if n % 4 == 0 {
        page.put_byte(10);
        return;
    }
    page.put_byte(32);
}

// An LF where there was anything.
pub fn put_last(page: &mut Page, n: usize)
    ensures { Puts page.old (cond (eqb n 0) [] (10 ∷ [])) page.new }
{
    if n != 0 {
        page.put_byte(10);
    }
}

// The calls of a section, four a line, each followed by its annotations.
fn put_calls(page: &mut Page, c: Conventions, items: &Items)
    ensures { Puts page.old (calls_text c 0 false (items_of items.now)) page.new }
{
    let mut n: usize = 0;
    let mut called = false;
    for entry in *items {
        let met = entry.kind();
        if met == CALL {
            put_before(page, n);
            put_call(page, c, entry.mark());
            n += 1;
            called = true;
            continue;
        }
        if (met == ANNOTATION) & called {
            page.put_text(entry.bytes());
            continue;
        }
        called = false;
    }
    put_last(page, n);
}

// Whether the last call is `+`.
fn ends_with_plus(items: &Items) -> bool
    ensures { result ≡ eqb (last_code 47 (items_of items.now)) 38 }
{
    let mut plus = false;
    for entry in *items {
        if entry.kind() == CALL {
            plus = entry.mark() == PLUS as usize;
        }
    }
    plus
}

// The end's line, by the word of a card, which may be any number: 1 and 2 are what Section.end of reader::board has.
pub(crate) fn put_end(page: &mut Page, end: usize)
    ensures { Puts page.old (end_text end) page.new }
{
    match end {
        1 => page.put_text(b"+\n"),
        2 => page.put_text(b"*\n"),
        _ => {}
    }
}

// The data lines of an auction: its calls, then its end, unless the last call is `+`.
pub(crate) fn put_auction(page: &mut Page, c: Conventions, items: &Items, end: usize)
    ensures { Puts page.old (auction_text c end (items_of items.now)) page.new }
{
    put_calls(page, c, items);
    if !ends_with_plus(items) {
        put_end(page, end);
    }
}
