// The text of the listing, and its own limit on an edition's length.
#![tactic(auto)]

pub mod limited; // both editions read, each within the limit
pub mod lines; // the lines of a listing
pub mod listing; // the listing of two editions on a page
