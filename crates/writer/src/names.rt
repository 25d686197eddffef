// The search for a tag name among the entries of a board.
ghost use Rattle.std.specs.Prelude.{◌≡◌, ◌<◌, MatchOption};
ghost use Rattle.writer.specs.Items.{items_of, name_index};

use crate::items::Items;
use reader::store::NAME;

// How many entries stand before the first tag of the name. Nested loops left by a label: the form that is asked for here (docs/DECISIONS.md,
// section 10); `==` would compare the bytes.
pub(crate) fn find_name(items: &Items, name: &[u8]) -> Option<usize>
    ensures { MatchOption result
        (name_index name.now (items_of items.now) ≡ items.now.count)
        (λ n. (n ≡ name_index name.now (items_of items.now)) × (n < items.now.count)) }
{
    'search: for entry in *items {
        if entry.kind() != NAME {
            continue;
        }
        let bytes = entry.bytes();
        if name.len() != bytes.len() {
            continue;
        }
        for (a, b) in name.iter().zip(bytes) {
            if a != b {
                continue 'search;
            }
        }
        return Some(entry.first - items.first);
    }
    None
}
