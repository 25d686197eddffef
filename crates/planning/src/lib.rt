// Layer 3: what still needs solving, given an old and a new edition.
// Of f and f_with the first is the second with the built-in letters, all that C is given; both stand, since there are no default arguments.
#![tactic(auto)]

pub mod behind; // the record behind a board
pub mod boards; // every board's state and record, from one reading
pub mod cards; // the words of a card that planning reads
pub mod editions; // both editions read
pub mod numbers; // blocks of five numbers stored into lent slices
pub mod plan; // totals and slips
pub mod search; // the first board with a deal, and the words compared
pub mod searches; // every board's searches, from one reading
pub mod slips; // slips, and what they are stored in
pub mod state; // the state of a board
pub mod state_at; // the state of a board, by position
