// The search for the first board with a deal, and the hand words that it compares.
ghost use Rattle.std.specs.Prelude.{◌≡◌, cond, ◌+◌, ◌*◌, ◌≤◌, ◌<◌, length, MatchOption};
ghost use Rattle.planning.specs.Cards.{card_deal, is_whole, fits};
ghost use Rattle.planning.specs.PlanSteps.{equal_front, may_fit};
ghost use Rattle.planning.specs.States.{first_with};
ghost use Rattle.planning.specs.Searches.{compared, searched};

use crate::cards::{Card, WholeDeal, has_table, is_whole};
use reader::board::PARSED;

// The board found, from 1, 0 where there is none, and the number of hand words compared. No Option: the definition `searched` makes this struct,
// and the theorem FoundSame says of its `board` that it is `first_with` of specs, which is 0 for no board.
#[derive(Clone, Copy)]
pub struct Found {
    pub board: usize,
    pub words: usize,
}

// How many words of the deal, from the front, are those of the card?
fn equal_words(card: &Card, deal: &[u32; 8]) -> usize
    ensures { (result ≡ equal_front deal.now (card_deal card.now)) × (result ≤ 8) }
{
    deal.iter()
        .zip(&card[10..18])
        .take_while(|(a, b)| a == b)
        .count()
}

// Has the card a table, where one is sought, and is its word 9 1? The cards of its hands are not counted.
#[tactic(auto, unfolding(crate::specs::PlanSteps::may_fit))]
fn may_fit(card: &Card, tabled: bool) -> bool
    ensures { result ≡ may_fit tabled card.now }
{
    (!tabled || has_table(card)) && card[9] as usize == PARSED
}

// The words that count on the card, where so many are equal and the next differs: none where its deal is not whole.
fn words_counted(card: &Card, equal: usize) -> usize
    requires { equal < 8 }
    ensures { (result ≡ cond (is_whole card.now) (equal + 1) 0) × (result ≤ 8) }
{
    if is_whole(card) {
        return equal + 1;
    }
    0
}

// Whether a board is found, and the words that count on it.
#[derive(Clone, Copy)]
struct Tried {
    fits: bool,
    words: usize,
}

// A board, for a whole deal. A board with the same words is whole too, so its cards are counted only where a word differs: the words
// of a board that is not whole are looked at, and do not count.
fn try_board(card: &Card, deal: &WholeDeal, tabled: bool) -> Tried
    ensures { (result.fits ≡ fits tabled deal.now.words card.now) × (result.words ≡ compared tabled deal.now.words card.now) × (result.words ≤ 8) }
{
    if !may_fit(card, tabled) {
        return Tried {
            fits: false,
            words: 0,
        };
    }
    let equal = equal_words(card, &deal.words);
    if equal == 8 {
        return Tried {
            fits: true,
            words: 8,
        };
    }
    Tried {
        fits: false,
        words: words_counted(card, equal),
    }
}

// The search among boards for the deal d and a table, where one is sought. `tabled` is a bool as in `fits`, of which the theorems
// speak: a closure's contract would have to say which of the two tests it is.
pub(crate) fn search_with(cards: &[Card], d: &WholeDeal, tabled: bool) -> Found
    ensures { (result ≡ searched tabled d.now.words cards.now) × (result.board ≤ length cards.now) × (result.words ≤ 8 * length cards.now) }
{
    let mut words = 0;
    for (k, card) in cards.iter().enumerate() {
        let tried = try_board(card, d, tabled);
        words += tried.words;
        if tried.fits {
            return Found {
                board: k + 1,
                words,
            };
        }
    }
    Found { board: 0, words }
}

// The board that the search finds, from 1.
pub(crate) fn first_with(cards: &[Card], d: &WholeDeal, tabled: bool) -> Option<u64>
    ensures { MatchOption result (first_with tabled d.now.words cards.now ≡ 0) (λ k. (k ≡ first_with tabled d.now.words cards.now) × (0 < k) × (k ≤ length cards.now)) }
{
    match search_with(cards, d, tabled).board {
        0 => None,
        k => Some(k as u64),
    }
}
