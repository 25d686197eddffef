// Replays the answers of the original Rust that the file `answers` holds, and prints how many were compared. oracle/README.md
// says how the file was made.
#![tactic(auto)]

mod cases; // a case taken apart, replayed and counted

use crate::cases::Case;
use recorded::cases::replay_all;
use recorded::report::{print_end, report};
use std::io;

// What is counted, by the places of cases.rt: names and counts are lists beside each other, since the counts go on alone where the names
// are only printed, and pairs would be taken apart in `add`, whose contract tells of numbers alone.
const NAMES: [&str; 5] = [
    "digits written",
    "header written",
    "rows written",
    "digits read",
    "rows read",
];

fn main(rt: HostRuntime) -> io::Result<()> {
    let mut counts = [0; 5];
    let replay = |file: &[u8], counts: &mut [u64]| replay_all::<Case>(file, counts);
    match report(&rt, "answers", 131072, &NAMES, &mut counts, replay)? {
        Some(replayed) => print_end(&rt, replayed),
        None => Ok(()),
    }
}
