// Cases replayed one after the other, and counted.
ghost use Rattle.std.specs.Prelude.{◌≡◌, ◌+◌, ◌-◌, ◌<◌, ◌≤◌, min, length, slice_index, slice_set, IfErr, OnOk, OnSome};

use crate::bytes::Bytes;
use std::fmt;

// Why a replay stops at a case: it gave another answer than the recorded one, or it is not whole.
#[derive(Clone, Copy, PartialEq, Eq)]
pub enum Fault {
    Different,
    NotWhole,
}

impl fmt::Display for Fault {
    fn fmt<W: fmt::Write>(&self, f: &mut fmt::Formatter<W>) -> fmt::Result {
        match self {
            Fault::Different => write!(f, "different"),
            Fault::NotWhole => write!(f, "no whole case"),
        }
    }
}

// The fault, and the byte that the case starts at.
#[derive(Clone, Copy)]
pub struct Stop {
    pub fault: Fault,
    pub at: usize,
}

impl fmt::Display for Stop {
    fn fmt<W: fmt::Write>(&self, f: &mut fmt::Formatter<W>) -> fmt::Result {
        write!(f, "{} at byte {}", self.fault, self.at)
    }
}

// How many cases gave the recorded answer, and where the replay stopped before the end.
#[derive(Clone, Copy)]
pub struct Replayed {
    pub compared: usize,
    pub end: Result<(), Stop>,
}

impl fmt::Display for Replayed {
    fn fmt<W: fmt::Write>(&self, f: &mut fmt::Formatter<W>) -> fmt::Result {
        write!(f, "{} compared, ", self.compared)?;
        match self.end {
            Ok(()) => write!(f, "0 different"),
            Err(stop) if stop.fault == Fault::Different => write!(f, "then one {stop}"),
            Err(stop) => write!(f, "then {stop}"),
        }
    }
}

// A case of a file of one program.
pub trait Recorded<'a>: Copy {
    // The next case.
    fn take(cases: &mut Bytes<'a>) -> Option<Self>
        ensures { OnSome result (length cases.new.rest.now < length cases.old.rest.now) };

    // Whether the product gives what was recorded. No contract: each program runs another part of the product, whose contracts say what it
    // gives, and compares that with the file.
    fn is_same(self) -> bool;

    // Counts the case, by the places of the program's counts.
    fn count(self, counts: &mut [u64])
        ensures { length counts.new ≡ length counts.old };
}

// Replays the next case, and counts it.
fn replay_next<'a, C: Recorded<'a>>(cases: &mut Bytes<'a>, counts: &mut [u64]) -> Result<(), Fault>
    ensures { OnOk result (length cases.new.rest.now < length cases.old.rest.now) }
{
    let case = C::take(cases).ok_or(Fault::NotWhole)?;
    if !case.is_same() {
        return Err(Fault::Different);
    }
    case.count(counts);
    Ok(())
}

// Replays every case up to the first that is different or not whole.
pub fn replay_all<'a, C: Recorded<'a>>(file: &'a [u8], counts: &mut [u64]) -> Replayed
    ensures compared { result.compared ≤ length file.now }
    ensures at { IfErr result.end (λ s. s.at < length file.now) }
{
    let mut cases = Bytes { rest: file };
    let mut compared = 0;
    while !cases.rest.is_empty() {
        let at = file.len() - cases.rest.len();
        if let Err(fault) = replay_next::<C>(&mut cases, counts) {
            return Replayed {
                compared,
                end: Err(Stop { fault, at }),
            };
        }
        compared += 1;
    }
    Replayed {
        compared,
        end: Ok(()),
    }
}

// Counts a case of the group, one of five: numbered from 1 in the file, from 0 in the counts. One of another group is not counted.
pub fn add_group(counts: &mut [u64], group: u8)
    ensures counted { (0 < group) × (group ≤ 5) × (group ≤ length counts.old) → counts.new ≡ slice_set counts.old (group - 1) (min (slice_index counts.old (group - 1) + 1) 18446744073709551615) }
    ensures none { group ≡ 0 → counts.new ≡ counts.old }
    ensures above { 5 < group → counts.new ≡ counts.old }
    ensures short { length counts.old < group → counts.new ≡ counts.old }
{
    if let 1..=5 = group {
        add(counts, usize::from(group - 1), 1);
    }
}

// n more at the place k, where there is one. A count stays at its limit, which no file reaches.
pub fn add(counts: &mut [u64], k: usize, n: u64)
    ensures counted { k < length counts.old → counts.new ≡ slice_set counts.old k (min (slice_index counts.old k + n) 18446744073709551615) }
    ensures other { length counts.old ≤ k → counts.new ≡ counts.old }
{
    if k < counts.len() {
        counts[k] = counts[k].saturating_add(n);
    }
}
