// Slips, and what they are stored in: numbers, or structs.
ghost use Rattle.std.specs.Prelude.{◌≡◌, ℕ, List, ◌/◌, length};
ghost use Rattle.reader.specs.Store.{zeros, put};
ghost use Rattle.planning.specs.Slips.{slip_of, five_of, slip_numbers};

use crate::cards::{Card, deal_at};
use crate::numbers::put_five;
use reader::deal::hands_of_words;

// A board's position from 1 and its hands, by name as in `Hands`: each is a number of its own in what C is given.
#[derive(Clone, Copy, Debug, Default, PartialEq, Eq)]
pub struct Slip {
    pub position: u64,
    pub north: u64,
    pub east: u64,
    pub south: u64,
    pub west: u64,
}

// The slip of the board at the position p.
pub(crate) fn slip_of(p: u64, card: &Card) -> Slip
    ensures { five_of result ≡ slip_of p card.now }
{
    let h = hands_of_words(deal_at(card));
    Slip {
        position: p,
        north: h.north,
        east: h.east,
        south: h.south,
        west: h.west,
    }
}

// What slips are stored in. A slip is five numbers, whatever it is stored in.
pub trait Slot: Copy {
    ghost numbers: { List Self → List ℕ };

    // How many slips there is room for.
    fn room(slots: &[Self]) -> usize
        ensures { result ≡ length (numbers slots.now) / 5 };

    // Sets all to 0.
    fn clear(slots: &mut [Self])
        ensures { numbers slots.new ≡ zeros (numbers slots.old) };

    // Stores the n-th slip, where there is room for it.
    fn put(slots: &mut [Self], n: usize, slip: Slip)
        ensures { numbers slots.new ≡ put 5 (numbers slots.old) n (five_of slip) };
}

impl Slot for u64 {
    ghost numbers = { λ l. l };

    fn room(slots: &[u64]) -> usize {
        slots.len() / 5
    }

    fn clear(slots: &mut [u64]) {
        slots.fill(0);
    }

    fn put(slots: &mut [u64], n: usize, slip: Slip) {
        let five = [slip.position, slip.north, slip.east, slip.south, slip.west];
        put_five(slots, n, five);
    }
}

impl Slot for Slip {
    ghost numbers = { slip_numbers };

    fn room(slots: &[Slip]) -> usize {
        slots.len()
    }

    fn clear(slots: &mut [Slip]) {
        slots.fill(Slip::default());
    }

    fn put(slots: &mut [Slip], n: usize, slip: Slip) {
        if n < slots.len() {
            slots[n] = slip;
        }
    }
}
