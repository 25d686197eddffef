// Layer 1: the two PBN forms of a double-dummy table (dd.rs), and the leaf meanings that every layer needs.
#![tactic(auto)]

pub mod dd; // dd.rs: digits, header and rows of a table
pub mod letters; // the letters of seats, suits, strains and ranks
pub mod lines; // the lines of a text, one after the other
pub mod numbers; // decimal numbers, read and written
pub mod page; // text written to a lent page and counted past its end
pub mod refusal; // refusals 7 to 15
pub mod refused; // what a refusal of any layer tells
pub mod text; // white space, trimming, fields, characters
