// The cells that each board of the new edition gets: its own, its source board's, or an answer.
ghost use Rattle.std.specs.Prelude.{◌≡◌, ◌+◌, ◌*◌, ◌≤◌, ◌<◌, ◌^◌, length};
ghost use Rattle.std.proofs.lemmas.List.Edits.{sets};
ghost use Rattle.planning.specs.Cards.{card_here};
ghost use Rattle.planning.specs.PlanSteps.{cards_in, tally};
ghost use Rattle.planning.specs.States.{state_of};
ghost use Rattle.writer.specs.Given.{answer_at};
ghost use Rattle.writer.specs.GivenCards.{cells_at, source_cells, Gave};

use planning::cards::cards_in;
use planning::state::{BoardState, state_of};
use reader::store::copy_in;

// The cells of the card at index k of lent words, which are changed while they are read, and so are no cards of their own (see mark_given); zeros
// where there is no such card, since the definition speaks of every state.
fn cells_at(cards: &[u32], k: usize) -> [u32; 20]
    ensures { result ≡ cells_at cards.now k }
{
    let mut cells = [0u32; 20];
    if cards.len() / 64 <= k {
        return cells;
    }
    let at = 64 * k + 18;
    let end = at + 20;
    copy_in(&mut cells, 0, &cards[at..end]);
    cells
}

// The 20 answers for a slip, bytes where cells_at has words; zeros where there are none, as refusal 5 is told only once all boards have their
// cells. By index: with zip the loop's invariant has no number of the turn (tried).
fn answer_cells(answers: &[u8], slip: usize) -> [u32; 20]
    ensures { result ≡ answer_at answers.now slip }
{
    let mut cells = [0u32; 20];
    if answers.len() / 20 <= slip {
        return cells;
    }
    let at = 20 * slip;
    for (i, cell) in cells.iter_mut().enumerate() {
        *cell = u32::from(answers[at + i]);
    }
    cells
}

// The cells of the board at index k, in the state s; slip is the number of solve boards before it.
fn source_cells(
    old_cards: &[u32],
    new_cards: &[u32],
    k: usize,
    s: BoardState,
    answers: &[u8],
    slip: usize,
) -> [u32; 20]
    ensures { result ≡ source_cells old_cards.now new_cards.now k s answers.now slip }
{
    match s {
        BoardState::Blank | BoardState::Own => cells_at(new_cards, k),
        BoardState::Old(j) => cells_at(old_cards, (j as usize).saturating_sub(1)),
        BoardState::Near(j) | BoardState::Twin(j) => {
            cells_at(new_cards, (j as usize).saturating_sub(1))
        }
        BoardState::Solve => answer_cells(answers, slip),
    }
}

// Puts cells on the card at index k.
fn put_cells(cards: &mut [u32], k: usize, cells: [u32; 20])
    requires { 64 * k + 64 ≤ length cards.old }
    ensures { cards.new ≡ sets cards.old (64 * k + 18) cells }
{
    copy_in(cards, 64 * k + 18, &cells);
}

// The number of solve boards, with one board more.
fn slip_after(slip: usize, s: BoardState) -> usize
    requires { slip ≤ 2 ^ 60 }
    ensures { result ≡ tally 5 s slip }
{
    if s.is_solve() {
        return slip + 1;
    }
    slip
}

// The state of the board at index k of the new edition.
fn state_here(
    old_cards: &[u32],
    olds: usize,
    new_cards: &[u32],
    news: usize,
    k: usize,
) -> BoardState
    requires { (64 * olds ≤ length old_cards.now) × (64 * news ≤ length new_cards.now) × (k < news) }
    ensures { result ≡ state_of (cards_in olds old_cards.now) (cards_in news new_cards.now) (cards_in k new_cards.now) (card_here k new_cards.now) }
{
    state_of(cards_in(old_cards, olds), cards_in(new_cards, news), k)
}

// Gives every board of the new edition its cells, and answers how many are to be solved. The states are found one by one, since an iterator of
// them would hold the cards that each turn changes. The old cards are words with their number too: whichever edition a state's source is of, one
// cells_at reads it, of words as its definition is.
pub(crate) fn give_tables(
    old_cards: &[u32],
    olds: usize,
    new_cards: &mut [u32],
    news: usize,
    answers: &[u8],
) -> usize
    requires { (64 * olds ≤ length old_cards.now) × (64 * news ≤ length new_cards.old) }
    ensures { Gave (cards_in olds old_cards.now) (cards_in news new_cards.old) new_cards.old news answers.now result new_cards.new }
{
    let mut slip = 0;
    for k in 0..news {
        let s = state_here(old_cards, olds, new_cards, news, k);
        let cells = source_cells(old_cards, new_cards, k, s, answers, slip);
        put_cells(new_cards, k, cells);
        slip = slip_after(slip, s);
    }
    slip
}
