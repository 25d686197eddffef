// The data lines of a play (PBN 2.1 section 3.6): each trick from its own leader, without gaps.
ghost use Rattle.std.specs.Prelude.{◌≡◌, ◌+◌, ◌≤◌, ◌<◌};
ghost use Rattle.tables.specs.Puts.{Puts};
ghost use Rattle.writer.specs.Items.{items_of, slot_text, slots_text, four_slots, tricks_text, play_text};

use crate::auction::{put_end, put_last};
use crate::items::Items;
use crate::tokens::put_card;
use reader::store::TRICK;
use tables::letters::Conventions;
use tables::page::Page;

// The card of a slot behind n others.
fn put_slot(page: &mut Page, c: Conventions, n: usize, k: usize)
    requires { k < 52 }
    ensures { Puts page.old (slot_text c n k) page.new }
{
    if n != 0 {
        page.put_byte(32);
    }
    put_card(page, c, k);
}

// A trick's line: four bytes of a word, by quotients as four_slots of the definitions has them.
fn put_trick(page: &mut Page, c: Conventions, z: usize)
    ensures { Puts page.old (slots_text c 0 (four_slots z)) page.new }
{
    let mut cards: usize = 0;
    for k in [z % 256, z / 256 % 256, z / 65536 % 256, z / 16777216 % 256] {
        if k < 52 {
            put_slot(page, c, cards, k);
            cards += 1;
        }
    }
    put_last(page, cards);
}

// A line for each trick with cards.
fn put_tricks(page: &mut Page, c: Conventions, items: &Items)
    ensures { Puts page.old (tricks_text c (items_of items.now)) page.new }
{
    for entry in *items {
        if entry.kind() == TRICK {
            put_trick(page, c, entry.mark());
        }
    }
}

// The data lines of a play: its tricks, then its end.
pub(crate) fn put_play(page: &mut Page, c: Conventions, items: &Items, end: usize)
    ensures { Puts page.old (play_text c end (items_of items.now)) page.new }
{
    put_tricks(page, c, items);
    put_end(page, end);
}
