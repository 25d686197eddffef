// Directives and commentary blocks, put back after the tag that they followed.
ghost use Rattle.std.specs.Prelude.{◌≡◌, ◌≤◌, Bool, []};
ghost use Rattle.reader.specs.Plain.{TagPair, without_returns};
ghost use Rattle.tables.specs.Puts.{Puts};
ghost use Rattle.writer.specs.declared.items.Items.{Items};
ghost use Rattle.writer.specs.Items.{Leading, Under, Unwritten, items_of, tag_of, remark_text, remarks_text, sought_text, after_text};

use crate::items::Items;
use crate::present::{Present, is_written};
use reader::names::tag_name;
use reader::store::{COMMENTARY, DIRECTIVE, NAME};
use tables::page::Page;
use tables::text::byte_at;

// A block's value: a CR before each LF is dropped.
fn put_block(page: &mut Page, s: &[u8])
    ensures { Puts page.old (without_returns s.now) page.new }
{
    let mut rest = s;
    while let [b, behind @ ..] = rest {
        if *b != 13 || byte_at(behind, 0) != 10 {
            page.put_byte(*b);
        }
        rest = behind;
    }
}

// A directive on its line, a block in braces. The kind is DIRECTIVE or COMMENTARY: an enum of the two would be made a number again where put_remarks
// compares it with an entry's kind, and in five contracts, whose definitions take the number. So kind ≤ 4 stands in four contracts.
pub(crate) fn put_remark(page: &mut Page, kind: usize, s: &[u8])
    ensures { Puts page.old (remark_text kind s.now) page.new }
{
    if kind == COMMENTARY {
        page.put_byte(123);
        put_block(page, s);
        page.put_text(b"}\n");
        return;
    }
    page.put_text(s);
    page.put_byte(10);
}

// The remarks of a kind behind the tags that are taken, and before the first tag where first says so: of those no tag could be asked, and a
// closure of an Option would make every caller but put_leading write a match.
pub(crate) fn put_remarks<'a, F: Fn(Items<'a>) -> bool>(
    page: &mut Page,
    items: &Items<'a>,
    first: bool,
    kind: usize,
    takes: F,
)
    requires small { kind ≤ 4 }
    requires callable { F.IsAlwaysCallable takes }
    ensures { (p : TagPair → Bool) → ((entry : Items) (r : Bool) → F.post takes entry r → r ≡ p (tag_of entry)) → Puts page.old (remarks_text p first kind (items_of items.now)) page.new }
{
    let mut under = first;
    for entry in *items {
        let met = entry.kind();
        if met == NAME {
            under = takes(entry);
            continue;
        }
        if (met == kind) & under {
            put_remark(page, kind, entry.bytes());
        }
    }
}

// The remarks of a kind before every tag.
pub(crate) fn put_leading(page: &mut Page, items: &Items, kind: usize)
    requires { kind ≤ 4 }
    ensures { Puts page.old (sought_text Leading [] kind (items_of items.now)) page.new }
{
    put_remarks(page, items, true, kind, |_| false);
}

// Those under a name.
pub(crate) fn put_under(page: &mut Page, items: &Items, kind: usize, name: &[u8])
    requires { kind ≤ 4 }
    ensures { Puts page.old (sought_text Under name.now kind (items_of items.now)) page.new }
{
    put_remarks(page, items, false, kind, |entry| name == entry.bytes());
}

// Those whose tag is not written.
pub(crate) fn put_lost(page: &mut Page, items: &Items, kind: usize, present: Present)
    requires { kind ≤ 4 }
    ensures { Puts page.old (sought_text (Unwritten present) [] kind (items_of items.now)) page.new }
{
    put_remarks(page, items, false, kind, |entry| {
        !is_written(present, tag_name(entry.bytes()))
    });
}

// What follows a written tag whose name no other has: its directives, then its blocks.
pub(crate) fn put_after(page: &mut Page, remarks: &Items, name: &[u8])
    ensures { Puts page.old (after_text name.now (items_of remarks.now)) page.new }
{
    put_under(page, remarks, DIRECTIVE, name);
    put_under(page, remarks, COMMENTARY, name);
}
