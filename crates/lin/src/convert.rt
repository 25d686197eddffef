// A LIN text converted to a PBN page (lin_to_pbn).
ghost use Rattle.std.specs.Prelude.{◌≡◌};
ghost use Rattle.tables.specs.Letters.{built_in};
ghost use Rattle.lin.specs.Conversions.{lin_number, lin_carries, IsConverted};
ghost use Rattle.lin.specs.ConversionSteps.{ConvertingEnded};

use crate::pieces::{Progress, put_boards};
use tables::letters::{Conventions, built_in};
use tables::page::Page;
use tables::refused::{Edition, Refused};

// 1 with the text's length, 16, and 7 with the bytes needed; specs/Conversions.antt gives the numbers.
#[derive(Clone, Copy, Debug, PartialEq, Eq)]
pub enum LinRefusal {
    Overlong(u64),
    NoDeal,
    PageFull(u64),
}

// A text that was converted: the bytes written and the boards.
#[derive(Clone, Copy, Debug, PartialEq, Eq)]
pub struct Converted {
    pub bytes: u64,
    pub boards: u64,
}

impl Refused for LinRefusal {
    ghost number_of = { lin_number };

    ghost edition_of = { λ f. 0 };

    ghost carries = { lin_carries };

    fn number(self) -> u64 {
        match self {
            LinRefusal::Overlong(_) => 1,
            LinRefusal::NoDeal => 16,
            LinRefusal::PageFull(_) => 7,
        }
    }

    fn edition(self) -> Option<Edition> {
        None
    }

    fn carried(self) -> u64 {
        match self {
            LinRefusal::Overlong(n) | LinRefusal::PageFull(n) => n,
            LinRefusal::NoDeal => 0,
        }
    }
}

// Ends the page on which a text was put: the answer, and nothing but zeros after a refusal.
fn end_converting(put: Option<Progress>, page: &mut Page) -> Result<Converted, LinRefusal>
    ensures ended { ConvertingEnded put page.old.at page.old.bytes.now result page.new.bytes.now }
    ensures same { page.new.bytes.ghost_name ≡ page.old.bytes.ghost_name }
{
    let Some(Progress { boards, any: true }) = put else {
        page.bytes.fill(0);
        return Err(LinRefusal::NoDeal);
    };
    match page.finish() {
        Ok(bytes) => Ok(Converted { bytes, boards }),
        Err(f) => Err(LinRefusal::PageFull(f.carried())),
    }
}

// Converts a text, by the given conventions. A refusal leaves the page zero.
pub fn lin_to_pbn_with(
    c: Conventions,
    text: &[u8],
    page: &mut [u8],
) -> Result<Converted, LinRefusal>
    ensures { IsConverted c text.now page.old result page.new }
{
    let n = text.len();
    if 16777215 < n {
        page.fill(0);
        return Err(LinRefusal::Overlong(n as u64));
    }
    let mut out = Page::new(page);
    let put = put_boards(&mut out, c, text);
    end_converting(put, &mut out)
}

// Converts a text by the built-in letters. It stands beside lin_to_pbn_with since there are no default arguments, and hosts know these alone.
pub fn lin_to_pbn(text: &[u8], page: &mut [u8]) -> Result<Converted, LinRefusal>
    ensures { IsConverted built_in text.now page.old result page.new }
{
    lin_to_pbn_with(built_in(), text, page)
}
