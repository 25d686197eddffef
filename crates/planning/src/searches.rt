// Every board's searches: the hand words that each compares, from one reading.
ghost use Rattle.std.specs.Prelude.{◌≡◌, ◌≤◌, ◌<◌, length};
ghost use Rattle.tables.specs.Letters.{built_in};
ghost use Rattle.reader.specs.Store.{put_all};
ghost use Rattle.planning.specs.PlanSteps.{plan_here};
ghost use Rattle.planning.specs.States.{board_plans};
ghost use Rattle.planning.specs.Searches.{searched, words_if, search_numbers, searches_from, words_in_all};
ghost use Rattle.planning.specs.Plans.{words_of, SameLent, SearchesTold};

use crate::cards::{Card, WholeDeal, whole_deal};
use crate::editions::{Both, EditionsRefusal, LentBoxes, read_both};
use crate::numbers::put_five;
use crate::search::search_with;
use crate::state::state_of;
use tables::letters::{Conventions, built_in};

// Both editions, and the words compared for all boards of the new one.
#[derive(Clone, Copy, Debug, PartialEq, Eq)]
pub struct Searched {
    pub both: Both,
    pub words: u64,
}

// The words that a search compares, 0 where it is not made. `made` is a flag, as in `words_if` of specs: each of the three searches of
// search_numbers is made or not, and without it the `if` and its 0 would stand three times.
fn words_if(made: bool, cards: &[Card], d: &WholeDeal, tabled: bool) -> u64
    ensures { result ≡ words_if made (searched tabled d.now.words cards.now) }
{
    if made {
        return search_with(cards, d, tabled).words as u64;
    }
    0
}

// The five numbers of the board at index k. A board whose deal is not whole is blank: no search is made.
fn search_numbers(olds: &[Card], news: &[Card], k: usize) -> [u64; 5]
    requires { k < length news.now }
    ensures { result ≡ search_numbers olds.now news.now (plan_here olds.now news.now k) }
{
    let s = state_of(olds, news, k);
    let Some(d) = whole_deal(&news[k]) else {
        return [s.number(), s.source(), 0, 0, 0];
    };
    [
        s.number(),
        s.source(),
        words_if(s.old_sought(), olds, &d, true),
        words_if(s.near_sought(), news, &d, true),
        words_if(s.twin_sought(), &news[..k], &d, false),
    ]
}

// Stores the five numbers of each board, as many as there is room for, and returns the words of all boards. By index: see state_of. A text that is
// read has at most 16777215 bytes, and so no more boards: their words are then below 2 ^ 64.
fn put_searches(olds: &[Card], news: &[Card], numbers: &mut [u64]) -> u64
    requires { (length olds.now ≤ 16777215) × (length news.now ≤ 16777215) }
    ensures { (result ≡ words_in_all olds.now news.now (board_plans olds.now news.now))
        × (numbers.new ≡ put_all 5 numbers.old 0 (searches_from olds.now news.now (board_plans olds.now news.now))) }
{
    let mut words = 0;
    for k in 0..news.len() {
        let five = search_numbers(olds, news, k);
        put_five(numbers, k, five);
        words += five[2] + five[3] + five[4];
    }
    words
}

// Five numbers a board, by the given conventions.
pub fn plan_searches_with(
    c: Conventions,
    old: &[u8],
    new: &[u8],
    boxes: &mut LentBoxes,
    numbers: &mut [u64],
) -> Result<Searched, EditionsRefusal>
    ensures told { SearchesTold c old.now new.now (words_of boxes.old) numbers.old (words_of boxes.new) numbers.new result }
    ensures same { SameLent boxes.old boxes.new }
{
    numbers.fill(0);
    let both = read_both(c, old, new, boxes)?;
    let (olds, news) = boxes.cards(both);
    let words = put_searches(olds, news, numbers);
    Ok(Searched { both, words })
}

// Five numbers a board: its state, its source board, and the hand words compared in the searches for old, near and twin, 0 for a search that is
// not made.
pub fn plan_searches(
    old: &[u8],
    new: &[u8],
    boxes: &mut LentBoxes,
    numbers: &mut [u64],
) -> Result<Searched, EditionsRefusal>
    ensures told { SearchesTold built_in old.now new.now (words_of boxes.old) numbers.old (words_of boxes.new) numbers.new result }
    ensures same { SameLent boxes.old boxes.new }
{
    plan_searches_with(built_in(), old, new, boxes, numbers)
}
