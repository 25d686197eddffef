// A case of the recorded answers: taken apart, replayed through lin_to_pbn, and counted. main.rt has the form of a case.
ghost use Rattle.std.specs.Prelude.{◌≤◌};

use lin::convert::{Converted, lin_to_pbn};
use recorded::bytes::Bytes;
use recorded::cases::{Recorded, add, add_group};
use recorded::pages::is_written;
use recorded::told::{Told, whole_answer};

// The places of the counts, behind those of the five groups.
#[derive(Clone, Copy)]
enum Place {
    Converted = 5,
    NoDeal = 6,
    PageFull = 7,
    Boards = 8,
    Bytes = 9,
    Pages = 10,
}

// `page` is a length.
#[derive(Clone, Copy)]
pub struct Case<'a> {
    group: u8,
    text: &'a [u8],
    page: usize,
    told: Option<Result<Converted, Told>>,
    written: &'a [u8],
    ghost page_small: { page ≤ 16384 },
}

impl<'a> Recorded<'a> for Case<'a> {
    fn take(cases: &mut Bytes<'a>) -> Option<Case<'a>> {
        let group = cases.byte()?;
        let text = cases.part()?;
        let page = cases.two_bytes()?;
        let refusal = u64::from(cases.byte()?);
        let carried = cases.two_bytes()? as u64;
        let boards = cases.two_bytes()? as u64;
        let written = cases.part()?;
        if page > 16384 {
            return None;
        }
        let bytes = written.len() as u64;
        let blank = (bytes == 0) & (boards == 0);
        Some(Case {
            group,
            text,
            page,
            told: whole_answer(Converted { bytes, boards }, blank, refusal, carried),
            written,
        })
    }

    fn is_same(self) -> bool {
        is_written(
            self.page,
            |page| Some(lin_to_pbn(self.text, page).map_err(Told::of)),
            self.told,
            self.written,
        )
    }

    // The group; the answer, with the boards and bytes written; all bytes lent as pages.
    fn count(self, counts: &mut [u64]) {
        add_group(counts, self.group);
        match self.told {
            Some(Ok(page)) => {
                add(counts, Place::Converted as usize, 1);
                add(counts, Place::Boards as usize, page.boards);
                add(counts, Place::Bytes as usize, page.bytes);
            }
            Some(Err(Told { refusal: 16, .. })) => add(counts, Place::NoDeal as usize, 1),
            Some(Err(Told { refusal: 7, .. })) => add(counts, Place::PageFull as usize, 1),
            _ => (),
        }
        add(counts, Place::Pages as usize, self.page as u64);
    }
}
