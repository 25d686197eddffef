// The file that is read, and what is printed.
ghost use Rattle.std.specs.Prelude.{◌<◌, IfOk, IfSome, vec_len};

use crate::cases::Replayed;
use std::io::Read;
use std::rt::Files;
use std::{fs, io};

// What the file holds; None, once that is printed, where it is not opened or has `limit` bytes or more: as many bytes as may be read
// may be a part only.
pub fn read_file<R: Files + Print + AllocGlobal>(
    rt: &R,
    name: &str,
    limit: u64,
) -> io::Result<Option<Vec<u8>>>
    ensures { IfOk result (λ o. IfSome o (λ v. vec_len v < limit)) }
{
    let Ok(file) = fs::open(rt, name) else {
        println!(rt; "{name}: not opened")?;
        return Ok(None);
    };
    let mut bytes = Vec::new(rt.alloc());
    file.take(limit).read_to_end(&mut bytes)?;
    if bytes.len() as u64 >= limit {
        println!(rt; "{name}: too long")?;
        return Ok(None);
    }
    Ok(Some(bytes))
}

// Replays the cases of a file, from counts that are 0, and prints each count under its name; None where the file is not read. The replay
// is given, and not the case: a case borrows the file, which is read in here, so that no caller can name its lifetime.
// Nothing is promised beyond: it prints, and answers what the replay answered.
pub fn report<R: Files + Print + AllocGlobal, F: Fn(&[u8], &mut [u64]) -> Replayed>(
    rt: &R,
    name: &str,
    limit: u64,
    names: &[&str],
    counts: &mut [u64],
    replay: F,
) -> io::Result<Option<Replayed>>
    requires { F.IsAlwaysCallable replay }
{
    let Some(file) = read_file(rt, name, limit)? else {
        return Ok(None);
    };
    let replayed = replay(&file, counts);
    for (name, n) in names.iter().zip(counts) {
        println!(rt; "{name}: {n}")?;
    }
    Ok(Some(replayed))
}

// How a replay ended, and how many cases were compared where it came to the end. It prints, which no contract can speak of. Two programs
// print this, and three how many were compared at a stop too, as they always have.
pub fn print_end(rt: &impl Print, replayed: Replayed) -> io::Result<()> {
    match replayed.end {
        Ok(()) => println!(rt; "{replayed}"),
        Err(stop) => println!(rt; "{stop}"),
    }
}
