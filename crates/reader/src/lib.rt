// Layer 2: PBN text to cards and entries (reader.rs).
#![tactic(auto)]

pub mod apply; // what a tag does to a board
pub mod auction; // the auction section
pub mod board; // the structs of a board and of a record's state
pub mod deal; // hands and deals
pub mod edition; // cards and entries of a whole text (read_pbn)
pub mod line; // the kinds of lines
pub mod names; // the names of tags
pub mod play; // the play section
pub mod reading; // the lines of a record
pub mod record; // where a record ends
pub mod section; // the data of a section
pub mod store; // blocks of words stored into lent slices
pub mod tag; // tag lines
pub mod tokens; // the tokens of a text
pub mod words; // calls, cards, contracts, vulnerability
