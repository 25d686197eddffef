// Replays the LIN texts that the file `answers` holds, and prints how many were compared. oracle/README.md says how the file was made.
//
// The file is a sequence of cases, without an end mark. Numbers have their low byte first. A case is, in bytes:
//   1 group: 1 chosen texts, 2 texts of several boards, 3 lent sizes, 4 sampled texts, 5 damaged texts
//   2 the text's length, then the text
//   2 the bytes lent as page
//   1 the refusal, 0 for none · 2 the carried number · 2 the boards
//   2 the length of what is written, then what is written
// All other bytes of the page are zero.
#![tactic(auto)]

mod cases; // a case taken apart, replayed and counted

use crate::cases::Case;
use recorded::cases::replay_all;
use recorded::report::report;
use std::io;

// What is counted, by the places of cases.rt: names and counts are lists beside each other, since the counts go on alone where the names
// are only printed, and pairs would be taken apart in `add`, whose contract tells of numbers alone.
const NAMES: [&str; 11] = [
    "chosen texts",
    "texts of several boards",
    "lent sizes",
    "sampled texts",
    "damaged texts",
    "converted",
    "refused, no deal",
    "refused, page full",
    "boards",
    "bytes written",
    "bytes of pages compared",
];

fn main(rt: HostRuntime) -> io::Result<()> {
    let mut counts = [0; 11];
    let replay = |file: &[u8], counts: &mut [u64]| replay_all::<Case>(file, counts);
    match report(&rt, "answers", 400001, &NAMES, &mut counts, replay)? {
        Some(replayed) => println!(rt; "{replayed}"),
        None => Ok(()),
    }
}
