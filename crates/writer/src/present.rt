// Which tags of a board are written, decided by their names.
ghost use Rattle.std.specs.Prelude.{◌≡◌};
ghost use Rattle.reader.specs.Names.{number_of};
ghost use Rattle.writer.specs.PresentSteps.{is_tag_written};

use reader::names::TagName;

// What of a board there is: an id, a dealer, a table, an optimum score, a par contract, an auction, notes of it, a play. It is found once for
// all remarks of a board, since the notes take a walk over its entries.
#[derive(Clone, Copy)]
pub struct Present {
    pub board: bool,
    pub dealer: bool,
    pub table: bool,
    pub score: bool,
    pub par: bool,
    pub auction: bool,
    pub notes: bool,
    pub play: bool,
}

// Whether a tag is written whose name is k.
#[tactic(auto, unfolding(crate::specs::PresentSteps::is_tag_written))]
pub(crate) fn is_written(p: Present, k: Option<TagName>) -> bool
    ensures { result ≡ is_tag_written p (number_of k) }
{
    match k {
        Some(TagName::Board) => p.board,
        Some(TagName::Dealer) => p.dealer,
        Some(TagName::Auction) => p.auction,
        Some(TagName::Play) => p.play,
        Some(TagName::Note) => p.notes,
        Some(TagName::DoubleDummyTricks) => p.table,
        Some(TagName::OptimumResultTable) => false,
        Some(TagName::OptimumScore) => p.score,
        Some(TagName::ParContract) => p.par,
        _ => true,
    }
}
