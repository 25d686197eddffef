// Every board's state and record behind it, from one reading.
ghost use Rattle.std.specs.Prelude.{◌≡◌, ◌<◌, length};
ghost use Rattle.tables.specs.Letters.{built_in};
ghost use Rattle.reader.specs.Store.{put_all};
ghost use Rattle.planning.specs.PlanSteps.{plan_here};
ghost use Rattle.planning.specs.States.{board_plans};
ghost use Rattle.planning.specs.Slips.{board_numbers, numbers_from};
ghost use Rattle.planning.specs.Plans.{words_of, SameLent, BoardsTold};

use crate::behind::behind_state;
use crate::cards::Card;
use crate::editions::{Both, EditionsRefusal, LentBoxes, read_both};
use crate::numbers::put_five;
use crate::state::state_of;
use tables::letters::{Conventions, built_in};

// The five numbers of the board at index k.
fn board_numbers(olds: &[Card], news: &[Card], k: usize) -> [u64; 5]
    requires { k < length news.now }
    ensures { result ≡ board_numbers olds.now news.now (plan_here olds.now news.now k) }
{
    let s = state_of(olds, news, k);
    let b = behind_state(olds, news, (k + 1) as u64, s);
    [s.number(), s.source(), b.edition.number(), b.start, b.end]
}

// Stores the five numbers of each board, as many as there is room for. By index: see state_of.
fn put_boards(olds: &[Card], news: &[Card], numbers: &mut [u64])
    ensures { numbers.new ≡ put_all 5 numbers.old 0 (numbers_from olds.now news.now (board_plans olds.now news.now)) }
{
    for k in 0..news.len() {
        put_five(numbers, k, board_numbers(olds, news, k));
    }
}

// Five numbers a board, by the given conventions.
pub fn plan_boards_with(
    c: Conventions,
    old: &[u8],
    new: &[u8],
    boxes: &mut LentBoxes,
    numbers: &mut [u64],
) -> Result<Both, EditionsRefusal>
    ensures told { BoardsTold c old.now new.now (words_of boxes.old) numbers.old (words_of boxes.new) numbers.new result }
    ensures same { SameLent boxes.old boxes.new }
{
    numbers.fill(0);
    let both = read_both(c, old, new, boxes)?;
    let (olds, news) = boxes.cards(both);
    put_boards(olds, news, numbers);
    Ok(both)
}

// Five numbers a board: its state, its source board, and the edition, the start and the end of the record behind it.
pub fn plan_boards(
    old: &[u8],
    new: &[u8],
    boxes: &mut LentBoxes,
    numbers: &mut [u64],
) -> Result<Both, EditionsRefusal>
    ensures told { BoardsTold built_in old.now new.now (words_of boxes.old) numbers.old (words_of boxes.new) numbers.new result }
    ensures same { SameLent boxes.old boxes.new }
{
    plan_boards_with(built_in(), old, new, boxes, numbers)
}
