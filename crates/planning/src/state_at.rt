// The state of a board, by position.
ghost use Rattle.std.specs.Prelude.{◌≡◌};
ghost use Rattle.tables.specs.Letters.{built_in};
ghost use Rattle.planning.specs.States.{board_plans, state_at};
ghost use Rattle.planning.specs.Plans.{words_of, SameLent, StateTold};

use crate::cards::{Card, index_of};
use crate::editions::{Both, EditionsRefusal, LentBoxes, read_both};
use crate::state::{BoardState, state_of};
use tables::letters::{Conventions, built_in};

// The state of the board at the position p; blank, which C is told as 0, outside 1 to the boards.
fn state_in(olds: &[Card], news: &[Card], p: u64) -> BoardState
    ensures { result ≡ state_at (board_plans olds.now news.now) p }
{
    match index_of(p, news.len()) {
        Some(k) => state_of(olds, news, k),
        None => BoardState::Blank,
    }
}

// Both editions, and the state of the board at a position of the new one, by the given conventions.
pub fn state_at_with(
    c: Conventions,
    old: &[u8],
    new: &[u8],
    boxes: &mut LentBoxes,
    position: u64,
) -> Result<(Both, BoardState), EditionsRefusal>
    ensures told { StateTold c old.now new.now (words_of boxes.old) (words_of boxes.new) position result }
    ensures same { SameLent boxes.old boxes.new }
{
    let both = read_both(c, old, new, boxes)?;
    let (olds, news) = boxes.cards(both);
    Ok((both, state_in(olds, news, position)))
}

// Both editions, and the state of the board at a position of the new one; blank outside 1 to boards.
pub fn state_at(
    old: &[u8],
    new: &[u8],
    boxes: &mut LentBoxes,
    position: u64,
) -> Result<(Both, BoardState), EditionsRefusal>
    ensures told { StateTold built_in old.now new.now (words_of boxes.old) (words_of boxes.new) position result }
    ensures same { SameLent boxes.old boxes.new }
{
    state_at_with(built_in(), old, new, boxes, position)
}
