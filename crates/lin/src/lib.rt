// A LIN text converted to a PBN page.
#![tactic(auto)]

pub mod pairs; // the pairs of a text, and the commands that count
pub mod dealing; // the deal of a board (parse_md)
pub mod bidding; // the vulnerability (parse_sv), the calls, the contract
pub mod playing; // the cards (parse_card), their tricks
pub mod survey; // a board's dealing, vulnerability and contract in one walk
pub mod board; // a board's lines on the page
pub mod pieces; // which pairs make a board (parse_lin_file)
pub mod convert; // answers and refusals; lin_to_pbn
