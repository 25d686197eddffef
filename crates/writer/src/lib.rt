// Layer 4: an edition written, and finished.
#![tactic(auto)]

pub mod auction; // the data lines of an auction
pub mod board; // the tags of a board
pub mod deal; // the value of a Deal tag
pub mod finish; // the new edition finished, every whole board with a table
pub mod give; // the cells that each board of the new edition gets
pub mod held; // a board by the words of its card
pub mod items; // entries in a row, and the bytes that they name
pub mod names; // the search for a tag name
pub mod notes; // the notes of an auction
pub mod page; // a board, and the page of an edition
pub mod play; // the data lines of a play
pub mod present; // which tags of a board are written
pub mod remarks; // directives and commentary
pub mod tags; // tags with what follows them
pub mod tokens; // calls, cards, seats and other words
pub mod write; // an edition read and written
