// The record behind a board, by its places in the old or the new edition.
ghost use Rattle.std.specs.Prelude.{◌≡◌, ◌-◌};
ghost use Rattle.tables.specs.Letters.{built_in};
ghost use Rattle.planning.specs.States.{board_plans};
ghost use Rattle.planning.specs.Slips.{text_of, card_at, record_of, behind_state, behind_at};
ghost use Rattle.planning.specs.Plans.{words_of, SameLent, BehindTold, PartTold};

use crate::cards::{Card, index_of};
use crate::editions::{Both, EditionsRefusal, LentBoxes, read_both};
use crate::state::{BoardState, state_of};
use reader::tag::Span;
use tables::letters::{Conventions, built_in};
use tables::refused::Edition;

// The text of an edition, of the two.
fn text_of<'a>(edition: Edition, old: &'a [u8], new: &'a [u8]) -> &'a [u8]
    ensures { result.now ≡ text_of old.now new.now edition }
{
    match edition {
        Edition::Old => old,
        Edition::New => new,
    }
}

// A record, by the places of its start and its end in its edition.
#[derive(Clone, Copy, PartialEq, Eq, Debug)]
pub struct Behind {
    pub edition: Edition,
    pub start: u64,
    pub end: u64,
}

impl Behind {
    // Its bytes in the text of its edition; none where its end is not behind its start.
    fn span(self) -> Span
        ensures { (result.start ≡ self.start) × (result.len ≡ self.end - self.start) }
    {
        Span {
            start: self.start as usize,
            len: self.end.saturating_sub(self.start) as usize,
        }
    }
}

// The record of the card at the position p of an edition; from 0 to 0 where there is no card, as the definition `record_of` answers: the source of a
// state is always a board.
fn record_at(edition: Edition, cards: &[Card], p: u64) -> Behind
    ensures { result ≡ record_of edition (card_at cards.now p) }
{
    match index_of(p, cards.len()) {
        Some(k) => Behind {
            edition,
            start: cards[k][60] as u64,
            end: cards[k][61] as u64,
        },
        None => Behind {
            edition,
            start: 0,
            end: 0,
        },
    }
}

// The record behind the board at the position p of the new edition, whose state is s.
pub(crate) fn behind_state(olds: &[Card], news: &[Card], p: u64, s: BoardState) -> Behind
    ensures { result ≡ behind_state olds.now news.now (card_at news.now p) s }
{
    match s {
        BoardState::Old(k) => record_at(Edition::Old, olds, k),
        BoardState::Near(k) | BoardState::Twin(k) => record_at(Edition::New, news, k),
        BoardState::Blank | BoardState::Own | BoardState::Solve => {
            record_at(Edition::New, news, p)
        }
    }
}

// The record behind the board at the position p; none outside 1 to the boards.
fn behind_at(olds: &[Card], news: &[Card], p: u64) -> Option<Behind>
    ensures { result ≡ behind_at olds.now news.now (board_plans olds.now news.now) p }
{
    let k = index_of(p, news.len())?;
    let s = state_of(olds, news, k);
    Some(behind_state(olds, news, p, s))
}

// Both editions, and the record behind the board at a position of the new one, by the given conventions.
pub fn place_behind_with(
    c: Conventions,
    old: &[u8],
    new: &[u8],
    boxes: &mut LentBoxes,
    position: u64,
) -> Result<(Both, Option<Behind>), EditionsRefusal>
    ensures told { BehindTold c old.now new.now (words_of boxes.old) (words_of boxes.new) position result }
    ensures same { SameLent boxes.old boxes.new }
{
    let both = read_both(c, old, new, boxes)?;
    let (olds, news) = boxes.cards(both);
    Ok((both, behind_at(olds, news, position)))
}

// Both editions, and the record behind the board at a position of the new one, by its places; none outside 1 to boards.
pub fn place_behind(
    old: &[u8],
    new: &[u8],
    boxes: &mut LentBoxes,
    position: u64,
) -> Result<(Both, Option<Behind>), EditionsRefusal>
    ensures told { BehindTold built_in old.now new.now (words_of boxes.old) (words_of boxes.new) position result }
    ensures same { SameLent boxes.old boxes.new }
{
    place_behind_with(built_in(), old, new, boxes, position)
}

// The record behind the board at a position of the new edition, as a part of the old or the new text; the empty part where there is none.
pub fn record_behind<'a>(
    old: &'a [u8],
    new: &'a [u8],
    boxes: &mut LentBoxes,
    position: u64,
) -> &'a [u8]
    ensures told { PartTold built_in old.now new.now (words_of boxes.old) (words_of boxes.new) position result.now }
    ensures same { SameLent boxes.old boxes.new }
{
    match place_behind(old, new, boxes, position) {
        Ok((_, Some(b))) => b.span().of(text_of(b.edition, old, new)),
        Ok((_, None)) | Err(_) => &[],
    }
}
