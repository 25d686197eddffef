// Tags on their lines, each with what follows it.
ghost use Rattle.std.specs.Prelude.{◌≡◌, ℕ, List, ◌∷◌, [], ◌++◌, ◌+◌, ◌≤◌};
ghost use Rattle.std.specs.Fn.{FnOnceReturnsAtMut};
ghost use Rattle.tables.specs.declared.page.Page.{Page};
ghost use Rattle.tables.specs.Puts.{Puts};
ghost use Rattle.writer.specs.Items.{items_of, tagged_text, is_extra_at, extras_text};

use crate::items::Items;
use crate::names::find_name;
use crate::remarks::put_after;
use reader::names::tag_name;
use reader::store::NAME;
use tables::page::Page;

// `[`, the name, a blank and a quote.
pub(crate) fn put_open(page: &mut Page, name: &[u8])
    ensures { Puts page.old ((91 ∷ []) ++ name.now ++ (32 ∷ 34 ∷ [])) page.new }
{
    page.put_byte(91);
    page.put_text(name);
    page.put_text(b" \"");
}

// A quote, `]` and the LF.
pub(crate) fn put_close(page: &mut Page)
    ensures { Puts page.old (34 ∷ 93 ∷ 10 ∷ []) page.new }
{
    page.put_text(b"\"]\n");
}

// A tag without data lines, the directives and the blocks after it.
pub(crate) fn put_tagged(page: &mut Page, remarks: &Items, name: &[u8], value: &[u8])
    ensures { Puts page.old (tagged_text name.now value.now (items_of remarks.now)) page.new }
{
    put_tagged_by(page, remarks, name, |page| page.put_text(value));
}

// The same of a value that put puts. The table, the auction and the play are put by hand: of a closure that takes a board or its entries the
// check doesn't find what it puts.
pub(crate) fn put_tagged_by<F: FnOnce(&mut Page)>(
    page: &mut Page,
    remarks: &Items,
    name: &[u8],
    put: F,
)
    requires callable { F.IsAlwaysCallable put }
    ensures { (v : List ℕ) → ((p q : Page) → FnOnceReturnsAtMut F.FnOnce put p tt q → Puts p v q) → Puts page.old (tagged_text name.now v (items_of remarks.now)) page.new }
{
    put_open(page, name);
    put(page);
    put_close(page);
    put_after(page, remarks, name);
}

// Whether an entry names a supplemental tag, other than Scoring, that no entry from first on names before.
#[tactic(auto, unfolding(crate::specs::Items::is_extra_at, crate::specs::Held::item_at))]
fn is_extra(first: usize, entry: &Items) -> bool
    requires { first ≤ entry.now.first }
    ensures { result ≡ is_extra_at entry.now.text.now entry.now.entries.now first entry.now.first }
{
    if entry.kind() != NAME {
        return false;
    }
    let name = entry.bytes();
    if tag_name(name).is_some() {
        return false;
    }
    if matches!(name, b"Scoring") {
        return false;
    }
    let before = entry.part(first, entry.first - first);
    find_name(&before, name).is_none()
}

// The supplemental tags among entries, first being the first of their board.
pub(crate) fn put_extras(page: &mut Page, remarks: &Items, first: usize, items: &Items)
    requires { first ≤ items.now.first }
    ensures { Puts page.old (extras_text items.now.text.now items.now.entries.now first (items_of remarks.now) items.now.first items.now.count) page.new }
{
    for entry in *items {
        if is_extra(first, &entry) {
            put_tagged(
                page,
                remarks,
                entry.bytes(),
                entry.bytes_at(entry.first + 1),
            );
        }
    }
}
