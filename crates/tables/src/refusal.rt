// This layer's refusals, each with its carried number; specs/Refusals.antt gives the numbers 7 to 15, which are C's. Each refusal is an arm
// of its own there and here: a struct of a kind and a number would be taken apart again wherever a definition tells them apart.
ghost use Rattle.tables.specs.Refusals.{refusal_number, refusal_carries};

use crate::refused::{Edition, Refused};

#[derive(Clone, Copy)]
pub enum Refusal {
    PageFull(u64),
    Length(u64),
    Digit(u64),
    Fields(u64),
    Declarer(u64),
    Denomination(u64),
    Outcome(u64),
    Over(u64),
    Missing(u64),
}

impl Refused for Refusal {
    ghost number_of = { refusal_number };

    ghost edition_of = { λ f. 0 };

    ghost carries = { refusal_carries };

    fn number(self) -> u64 {
        match self {
            Refusal::PageFull(_) => 7,
            Refusal::Length(_) => 8,
            Refusal::Digit(_) => 9,
            Refusal::Fields(_) => 10,
            Refusal::Declarer(_) => 11,
            Refusal::Denomination(_) => 12,
            Refusal::Outcome(_) => 13,
            Refusal::Over(_) => 14,
            Refusal::Missing(_) => 15,
        }
    }

    fn edition(self) -> Option<Edition> {
        None
    }

    fn carried(self) -> u64 {
        match self {
            Refusal::PageFull(n)
            | Refusal::Length(n)
            | Refusal::Digit(n)
            | Refusal::Fields(n)
            | Refusal::Declarer(n)
            | Refusal::Denomination(n)
            | Refusal::Outcome(n)
            | Refusal::Over(n)
            | Refusal::Missing(n) => n,
        }
    }
}
