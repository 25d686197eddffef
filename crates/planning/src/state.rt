// The state of a board.
ghost use Rattle.std.specs.Prelude.{◌≡◌, ◌+◌, ◌≤◌, ◌<◌, length, take};
ghost use Rattle.planning.specs.States.{state_of, state_number, from_of, is_solve};
ghost use Rattle.planning.specs.Searches.{old_sought, near_sought, twin_sought};
ghost use Rattle.planning.specs.Slips.{card_from};

use crate::cards::{Card, has_table, whole_deal};
use crate::search::first_with;

// The state of a board, the first that fits; a source board counts from 1.
#[derive(Clone, Copy, PartialEq, Eq, Debug)]
pub enum BoardState {
    Blank,
    Own,
    Old(u64),
    Near(u64),
    Twin(u64),
    Solve,
}

// The state of the board at index k of the new edition. Boards are gone over by their index, and three functions ask that k is one: the search for
// a twin is among those before k, the position is k + 1, and numbers are stored at k, so that an iterator of states would have to hand out k as well.
// Nine functions of planning and two of listing_text take the cards of the editions as two slices, as the definitions of specs do: a struct of
// both would be a parameter fewer in the eight that pass both on, and be taken apart in the other three and in the contracts of all eleven.
pub fn state_of(olds: &[Card], news: &[Card], k: usize) -> BoardState
    requires { k < length news.now }
    ensures { (result ≡ state_of olds.now news.now (take k news.now) (card_from news.now k)) × (from_of result ≤ length olds.now + length news.now) }
{
    let card = &news[k];
    let Some(d) = whole_deal(card) else {
        return BoardState::Blank;
    };
    if has_table(card) {
        return BoardState::Own;
    }
    if let Some(j) = first_with(olds, &d, true) {
        return BoardState::Old(j);
    }
    if let Some(j) = first_with(news, &d, true) {
        return BoardState::Near(j);
    }
    if let Some(j) = first_with(&news[..k], &d, false) {
        return BoardState::Twin(j);
    }
    BoardState::Solve
}

impl BoardState {
    // The states by their numbers, 0 to 5.
    pub fn number(self) -> u64
        ensures { result ≡ state_number self }
    {
        match self {
            BoardState::Blank => 0,
            BoardState::Own => 1,
            BoardState::Old(_) => 2,
            BoardState::Near(_) => 3,
            BoardState::Twin(_) => 4,
            BoardState::Solve => 5,
        }
    }

    // The source board, as C is told it: 0 where there is none.
    pub fn source(self) -> u64
        ensures { result ≡ from_of self }
    {
        match self {
            BoardState::Old(k) | BoardState::Near(k) | BoardState::Twin(k) => k,
            BoardState::Blank | BoardState::Own | BoardState::Solve => 0,
        }
    }

    // Which searches are made for the board: for old where it is not blank or own, for near where that finds none, and for twin where this does
    // not either.
    pub(crate) fn old_sought(self) -> bool
        ensures { result ≡ old_sought self }
    {
        !matches!(self, BoardState::Blank | BoardState::Own)
    }

    pub(crate) fn near_sought(self) -> bool
        ensures { result ≡ near_sought self }
    {
        matches!(
            self,
            BoardState::Near(_) | BoardState::Twin(_) | BoardState::Solve
        )
    }

    pub(crate) fn twin_sought(self) -> bool
        ensures { result ≡ twin_sought self }
    {
        matches!(self, BoardState::Twin(_) | BoardState::Solve)
    }

    // Is the board to be solved?
    pub fn is_solve(self) -> bool
        ensures { result ≡ is_solve self }
    {
        matches!(self, BoardState::Solve)
    }
}
