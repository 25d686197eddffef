// A case of the file `cases`: taken apart, replayed through the listing, and counted. Numbers have their low byte first.
//   2 the limit · 2 the page's length
//   2 the old edition's length, then its text
//   2 the new edition's length, then its text
//   1 the refusal · 4 the carried number
//   2 the output's length, then the output
ghost use Rattle.std.specs.Prelude.{◌≤◌};

use listing_text::listing::list;
use planning::editions::LentBoxes;
use recorded::bytes::Bytes;
use recorded::cases::{Recorded, add};
use recorded::pages::is_written;
use recorded::told::{Told, answer};
use tables::refusal::Refusal;
use tables::text::upto;

// The places of the counts.
#[derive(Clone, Copy)]
enum Place {
    Listed,
    Refused,
    TooShort,
}

// `limit` and `page` are lengths. The answer is the number of bytes, which is carried where the refusal is 0.
#[derive(Clone, Copy)]
pub struct Case<'a> {
    limit: usize,
    page: usize,
    old: &'a [u8],
    new: &'a [u8],
    told: Option<Result<u64, Told>>,
    output: &'a [u8],
    ghost page_small: { page ≤ 512 },
}

// Lends four cards and sixteen entries an edition and two slips, each with a tail too short for one more. No lent word is zero before.
fn list_on(page: &mut [u8], old: &[u8], new: &[u8], limit: usize) -> Result<u64, Refusal> {
    let mut old_cards = [170u32; 319];
    let mut old_entries = [170u32; 67];
    let mut new_cards = [170u32; 319];
    let mut new_entries = [170u32; 67];
    let mut slips = [170u64; 14];
    let mut boxes = LentBoxes {
        old_cards: &mut old_cards,
        old_entries: &mut old_entries,
        new_cards: &mut new_cards,
        new_entries: &mut new_entries,
    };
    list(old, new, limit, &mut boxes, &mut slips, page)
}

impl<'a> Recorded<'a> for Case<'a> {
    fn take(cases: &mut Bytes<'a>) -> Option<Case<'a>> {
        let limit = cases.two_bytes()?;
        let page = cases.two_bytes()?;
        let old = cases.part()?;
        let new = cases.part()?;
        let refusal = u64::from(cases.byte()?);
        let carried = cases.four_bytes()? as u64;
        let output = cases.part()?;
        let bytes = output.len() as u64;
        if page > 512 {
            return None;
        }
        let whole = (refusal != 0) | (carried == bytes);
        Some(Case {
            limit,
            page,
            old,
            new,
            told: whole.then_some(answer(bytes, refusal, carried)),
            output,
        })
    }

    fn is_same(self) -> bool {
        is_written(
            self.page,
            |page| Some(list_on(page, self.old, self.new, self.limit).map_err(Told::of)),
            self.told,
            upto(self.output, self.page),
        )
    }

    // Listed, refused in a line, which begins with r, or a page too short.
    fn count(self, counts: &mut [u64]) {
        let place = match self.told {
            Some(Err(_)) => Place::TooShort,
            _ if self.output.starts_with(b"r") => Place::Refused,
            _ => Place::Listed,
        };
        add(counts, place as usize, 1);
    }
}
