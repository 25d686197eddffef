// Cards, as reading stores them in lent words, and what planning reads of one.
ghost use Rattle.std.specs.Prelude.{◌≡◌, ◌+◌, ◌*◌, ◌≤◌, true, false, MatchOption, length};
ghost use Rattle.reader.specs.Deals.{whole_hands, hands_of_words};
ghost use Rattle.planning.specs.Cards.{card_deal, is_whole, has_table, card_here};
ghost use Rattle.planning.specs.PlanSteps.{cards_in, IsIndex};

use reader::board::{NO_TABLE, PARSED};
use reader::deal::hands_of_words;

// The words of a board.
pub type Card = [u32; 64];

// The first n cards of lent words.
pub fn cards_in(words: &[u32], n: usize) -> &[Card]
    requires { 64 * n ≤ length words.now }
    ensures { (result.now ≡ cards_in n words.now) × (length result.now ≡ n) }
{
    &words.as_chunks::<64>().0[..n]
}

// The card at index k of lent words.
pub fn card_here(words: &[u32], k: usize) -> &Card
    requires { 64 * k + 64 ≤ length words.now }
    ensures { result.now ≡ card_here k words.now }
{
    &cards_in(words, k + 1)[k]
}

// The index of the position p, from 1, among n boards; none outside 1 to n.
pub(crate) fn index_of(p: u64, n: usize) -> Option<usize>
    ensures { IsIndex p n result }
{
    if p == 0 || (n as u64) < p {
        return None;
    }
    Some((p - 1) as usize)
}

// The deal of a card, words 10 to 17.
#[tactic(auto, unfolding(crate::specs::Cards::card_deal))]
pub(crate) fn deal_at(card: &Card) -> [u32; 8]
    ensures { result ≡ card_deal card.now }
{
    let mut words = [0; 8];
    words.copy_from_slice(&card[10..18]);
    words
}

// Is the deal of a card whole?
pub fn is_whole(card: &Card) -> bool
    ensures { result ≡ is_whole card.now }
{
    card[9] as usize == PARSED && reader::deal::is_whole(hands_of_words(deal_at(card)))
}

// A deal of 13 cards in each hand: what is searched for.
#[derive(Clone, Copy)]
pub(crate) struct WholeDeal {
    pub words: [u32; 8],
    ghost whole: { whole_hands (hands_of_words words) ≡ true },
}

// The deal of a card; none where it is not whole.
#[tactic(auto, using(crate::proofs::StateLaws::deal_whole))]
pub(crate) fn whole_deal(card: &Card) -> Option<WholeDeal>
    ensures { MatchOption result (is_whole card.now ≡ false) (λ d. (is_whole card.now ≡ true) × (d.words ≡ card_deal card.now)) }
{
    if !is_whole(card) {
        return None;
    }
    Some(WholeDeal {
        words: deal_at(card),
    })
}

// Has a card a table?
#[tactic(auto, unfolding(crate::specs::Cards::has_table))]
pub fn has_table(card: &Card) -> bool
    ensures { result ≡ has_table card.now }
{
    card[38] as usize != NO_TABLE
}
