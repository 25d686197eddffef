// An edition read and written (write_pbn).
ghost use Rattle.std.specs.Prelude.{◌≡◌, true, is_ok, length};
ghost use Rattle.tables.specs.Letters.{built_in};
ghost use Rattle.tables.specs.Refusals.{refusal_carries};
ghost use Rattle.writer.specs.declared.write.WriteRefusal.TheVariants.{PageFull};
ghost use Rattle.writer.specs.Writings.{write_number, write_carries, writing_of, IsWritten};

use crate::held::ReadEdition;
use crate::page::put_page;
use reader::edition::{ReadRefusal, read_pbn_with};
use tables::letters::{Conventions, built_in};
use tables::page::Page;
use tables::refusal::Refusal;
use tables::refused::{Edition, Refused};

// Refusals 1 to 3 of the edition, and 7 with the bytes needed; specs/Writings.antt gives the numbers.
#[derive(Clone, Copy, Debug, PartialEq, Eq)]
pub enum WriteRefusal {
    Edition(ReadRefusal),
    PageFull(u64),
}

impl From<ReadRefusal> for WriteRefusal {
    ghost use Rattle.std.specs.Prelude.{◌≡◌};
    ghost use Rattle.writer.specs.declared.write.WriteRefusal.TheVariants.{Edition};

    ghost from_gives = { λ f g. g ≡ Edition f };

    fn from(f: ReadRefusal) -> WriteRefusal {
        WriteRefusal::Edition(f)
    }
}

impl Refused for WriteRefusal {
    ghost number_of = { write_number };

    ghost edition_of = { λ f. 0 };

    ghost carries = { write_carries };

    fn number(self) -> u64 {
        match self {
            WriteRefusal::Edition(f) => f.number(),
            WriteRefusal::PageFull(_) => 7,
        }
    }

    fn edition(self) -> Option<Edition> {
        None
    }

    fn carried(self) -> u64 {
        match self {
            WriteRefusal::Edition(f) => f.carried(),
            WriteRefusal::PageFull(n) => n,
        }
    }
}

// Where a page was too short: the bytes needed; for the function of this name beside finish see there.
fn page_full(f: Refusal) -> WriteRefusal
    ensures { result ≡ PageFull (refusal_carries f) }
{
    WriteRefusal::PageFull(f.carried())
}

// Reads a text into the lent words and writes it on the page. What a refusal leaves is not said: write_pbn_with sets it to 0.
fn written(
    c: Conventions,
    text: &[u8],
    cards: &mut [u32],
    entries: &mut [u32],
    page: &mut [u8],
) -> Result<u64, WriteRefusal>
    ensures answer { result ≡ writing_of c text.now (length cards.old) (length entries.old) (length page.old) }
    ensures well { is_ok result ≡ true → IsWritten c text.now cards.old entries.old page.old result cards.new entries.new page.new }
{
    let counts = read_pbn_with(c, text, cards, entries)?;
    let boards = counts.boards;
    let mut page = Page::new(page);
    put_page(
        &mut page,
        &ReadEdition {
            text,
            cards,
            entries,
            boards,
        },
        c,
    );
    page.finish().map_err(page_full)
}

// Reads a text into the lent words and writes it on the page, by the given conventions: how many bytes; a refusal leaves all that was lent
// zero. write_pbn stands beside it for the boundary, which passes none, since there are no default arguments. Cards, entries and page are
// passed as the boundary is lent them.
pub fn write_pbn_with(
    c: Conventions,
    text: &[u8],
    cards: &mut [u32],
    entries: &mut [u32],
    page: &mut [u8],
) -> Result<u64, WriteRefusal>
    ensures { IsWritten c text.now cards.old entries.old page.old result cards.new entries.new page.new }
{
    let done = written(c, text, cards, entries, page);
    if done.is_err() {
        cards.fill(0);
        entries.fill(0);
        page.fill(0);
    }
    done
}

// Reads a text into the lent words and writes it on the page.
pub fn write_pbn(
    text: &[u8],
    cards: &mut [u32],
    entries: &mut [u32],
    page: &mut [u8],
) -> Result<u64, WriteRefusal>
    ensures { IsWritten built_in text.now cards.old entries.old page.old result cards.new entries.new page.new }
{
    write_pbn_with(built_in(), text, cards, entries, page)
}
