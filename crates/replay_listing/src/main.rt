// Replays the listings that the file `cases` holds, with answers worked out by hand from the meaning of the states and refusals, and
// prints how many were compared. oracle/listing_cases.py wrote the file: it holds every text and every expected line as they are read here,
// and runs no part of the product.
#![tactic(auto)]

mod cases; // a case taken apart, replayed and counted

use crate::cases::Case;
use recorded::cases::replay_all;
use recorded::report::{print_end, report};
use std::io;

// What is counted, by the places of cases.rt: names and counts are lists beside each other, since the counts go on alone where the names
// are only printed, and pairs would be taken apart in `add`, whose contract tells of numbers alone.
const NAMES: [&str; 3] = ["listed", "refused", "page too short"];

fn main(rt: HostRuntime) -> io::Result<()> {
    let mut counts = [0; 3];
    let replay = |file: &[u8], counts: &mut [u64]| replay_all::<Case>(file, counts);
    match report(&rt, "cases", 65536, &NAMES, &mut counts, replay)? {
        Some(replayed) => print_end(&rt, replayed),
        None => Ok(()),
    }
}
