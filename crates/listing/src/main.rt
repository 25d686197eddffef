// The listing program: lists the edition in `new.pbn`, given the one in `old.pbn`.
#![tactic(auto)]

use listing_text::listing::list;
use planning::editions::LentBoxes;
use std::io::{Read, Write};
use std::rt::Files;
use std::{fs, io};
use tables::text::upto;

// What a file holds; a file that is not opened is empty, where `read_file` of `recorded` says so and stops, as it does at a long one. An
// edition may have 16,384 bytes: one more is read, so that a longer file is seen.
fn read_file<R: Files + AllocGlobal>(rt: &R, path: &str) -> io::Result<Vec<u8>> {
    let mut bytes = Vec::new(rt.alloc());
    match fs::open(rt, path) {
        Ok(file) => {
            file.take(16385).read_to_end(&mut bytes)?;
            Ok(bytes)
        }
        Err(_) => Ok(bytes),
    }
}

// Lends 128 cards and 2,048 entries an edition, 128 slips, and a page that every listing of so many boards fits.
fn print_listing(rt: &impl Print, old: &[u8], new: &[u8]) -> io::Result<()> {
    let mut old_cards = [0u32; 8192];
    let mut old_entries = [0u32; 8192];
    let mut new_cards = [0u32; 8192];
    let mut new_entries = [0u32; 8192];
    let mut slips = [0u64; 640];
    let mut page = [0u8; 8192];
    let mut boxes = LentBoxes {
        old_cards: &mut old_cards,
        old_entries: &mut old_entries,
        new_cards: &mut new_cards,
        new_entries: &mut new_entries,
    };
    let written = list(old, new, 16384, &mut boxes, &mut slips, &mut page);
    match written {
        Ok(n) => io::writer(rt).write_all(upto(&page, n as usize)),
        Err(_) => Ok(()),
    }
}

fn main(rt: HostRuntime) -> io::Result<()> {
    let old = read_file(&rt, "old.pbn")?;
    let new = read_file(&rt, "new.pbn")?;
    print_listing(&rt, &old, &new)
}
