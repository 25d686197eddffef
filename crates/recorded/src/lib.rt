// What the programs share that replay recorded cases.
#![tactic(auto)]

pub mod bytes; // the bytes of the cases, taken from the front
pub mod cases; // cases replayed one after the other, and counted
pub mod pages; // what is lent, and what a lent page holds
pub mod report; // the file that is read, and what is printed
pub mod told; // what was recorded of a refusal
