// Both editions, each read if it is not longer than a limit.
ghost use Rattle.planning.specs.Plans.{words_of, SameLent};
ghost use Rattle.listing_text.specs.ListingSteps.{BothLimited};

use planning::editions::{Both, EditionsRefusal, LentBoxes, read_both};
use reader::edition::{ReadRefusal, read_pbn_with};
use tables::letters::Conventions;
use tables::refused::Edition;

// Reads both editions, if neither is longer than the limit. A refusal of either leaves all lent words zero.
pub(crate) fn read_both_limited(
    c: Conventions,
    old: &[u8],
    new: &[u8],
    limit: usize,
    boxes: &mut LentBoxes,
) -> Result<Both, EditionsRefusal>
    ensures read { BothLimited c limit old.now new.now (words_of boxes.old) (words_of boxes.new) result }
    ensures same { SameLent boxes.old boxes.new }
{
    if limit < old.len() {
        boxes.zero();
        return Err(EditionsRefusal {
            edition: Edition::Old,
            refusal: ReadRefusal::Overlong(old.len() as u64),
        });
    }
    // The old edition's refusals come before the new one's length.
    if limit < new.len() {
        let first = read_pbn_with(c, old, boxes.old_cards, boxes.old_entries);
        boxes.zero();
        let (edition, refusal) = match first {
            Ok(_) => (Edition::New, ReadRefusal::Overlong(new.len() as u64)),
            Err(f) => (Edition::Old, f),
        };
        return Err(EditionsRefusal { edition, refusal });
    }
    read_both(c, old, new, boxes)
}
