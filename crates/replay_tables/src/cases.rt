// A case of the recorded answers: taken apart, replayed through tables, and counted. Numbers have their low byte first.
//   1 kind: 1 digits written, 2 header, 3 rows written, 4 digits read, 5 rows read
//   2 the input's length, then the input
//   2 the page's length · 1 the refusal · 4 the carried number
//   2 the output's length, then the output
ghost use Rattle.std.specs.Prelude.{◌≤◌};

use recorded::bytes::Bytes;
use recorded::cases::{Recorded, add};
use recorded::pages::is_written;
use recorded::told::{Told, whole_answer};
use tables::dd::{
    dd_table_from_pbn, dd_table_to_pbn, optimum_result_table_from_rows,
    optimum_result_table_header, optimum_result_table_rows,
};
use tables::refusal::Refusal;

// A writer is given a table, and a reader answers with one.
#[derive(Clone, Copy)]
pub enum Kind {
    DigitsWritten,
    HeaderWritten,
    RowsWritten,
    DigitsRead,
    RowsRead,
}

// In the order of the bytes 1 to 5.
const KINDS: [Kind; 5] = [
    Kind::DigitsWritten,
    Kind::HeaderWritten,
    Kind::RowsWritten,
    Kind::DigitsRead,
    Kind::RowsRead,
];

// `page` is a length, and the answer the number of bytes that a writer put or a reader filled.
#[derive(Clone, Copy)]
pub struct Case<'a> {
    kind: Kind,
    input: &'a [u8],
    page: usize,
    told: Option<Result<u64, Told>>,
    output: &'a [u8],
    ghost page_small: { page ≤ 512 },
}

impl<'a> Case<'a> {
    // Whether a table is written as recorded.
    fn is_written<F: Fn(&[u8; 20], &mut [u8]) -> Result<u64, Refusal>>(self, write: F) -> bool
        requires { F.IsAlwaysCallable write }
    {
        let Some(table) = self.input.first_chunk::<20>() else {
            return false;
        };
        is_written(
            self.page,
            |page| Some(write(table, page).map_err(Told::of)),
            self.told,
            self.output,
        )
    }

    // Whether a text is read as recorded.
    fn is_read<F: Fn(&[u8]) -> Result<[u8; 20], Refusal>>(self, read: F) -> bool
        requires { F.IsAlwaysCallable read }
    {
        let r = read(self.input);
        let told = r.map(|_| 20).map_err(Told::of);
        (Some(told) == self.told) & (r.unwrap_or([0; 20]).as_slice() == self.output)
    }
}

impl<'a> Recorded<'a> for Case<'a> {
    fn take(cases: &mut Bytes<'a>) -> Option<Case<'a>> {
        let kind = KINDS[cases.group()?];
        let input = cases.part()?;
        let page = cases.two_bytes()?;
        let refusal = u64::from(cases.byte()?);
        let carried = cases.four_bytes()? as u64;
        let output = cases.part()?;
        // A reader that refuses fills the table with zeros, a writer puts nothing.
        let (table, blank) = match kind {
            Kind::DigitsRead | Kind::RowsRead => (output, true),
            _ => (input, output.is_empty()),
        };
        if (table.len() != 20) | (page > 512) {
            return None;
        }
        Some(Case {
            kind,
            input,
            page,
            told: whole_answer(output.len() as u64, blank, refusal, carried),
            output,
        })
    }

    fn is_same(self) -> bool {
        match self.kind {
            Kind::DigitsWritten => self.is_written(dd_table_to_pbn),
            Kind::HeaderWritten => self.is_written(optimum_result_table_header),
            Kind::RowsWritten => self.is_written(optimum_result_table_rows),
            Kind::DigitsRead => self.is_read(dd_table_from_pbn),
            Kind::RowsRead => self.is_read(optimum_result_table_from_rows),
        }
    }

    // The kind.
    fn count(self, counts: &mut [u64]) {
        add(counts, self.kind as usize, 1);
    }
}
