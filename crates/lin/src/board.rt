// A board's lines on the page. Page and conventions (and in pieces the text with them) are two parameters, as of the writer's functions that
// are called here: the walks over pairs take the conventions and a text without a page, and most texts the page without conventions. That
// the dealer is at most 3 stands in three contracts here, for the reason at LinDealing.
ghost use Rattle.std.specs.Prelude.{◌≡◌, [], cond, ◌≤◌, ◌<◌};
ghost use Rattle.tables.specs.Puts.{Puts};
ghost use Rattle.writer.specs.Items.{tokens_text};
ghost use Rattle.lin.specs.Pairs.{pairs_of};
ghost use Rattle.lin.specs.Bidding.{calls_from, declarer_of};
ghost use Rattle.lin.specs.BoardSteps.{lin_head_text, lin_result_text, call_tokens, lin_auction_text, lin_play_text, survey_text};

use crate::bidding::{Contract, call_at, first_to_name, next_seat, put_contract, strain_of};
use crate::pairs::pairs_in;
use crate::playing::put_tricks;
use crate::survey::Survey;
use reader::deal::Hands;
use reader::play::Terms;
use tables::letters::Conventions;
use tables::page::Page;
use writer::auction::{put_before, put_last};
use writer::deal::put_deal;
use writer::tokens::{put_call, put_seat, put_vulnerability};

// From Event to Deal.
fn put_head(page: &mut Page, c: Conventions, dealer: usize, vulnerability: usize, h: Hands)
    requires { dealer ≤ 3 }
    ensures { Puts page.old (lin_head_text c dealer vulnerability h) page.new }
{
    page.put_text(
        b"[Event \"\"]\n[Site \"\"]\n[Date \"\"]\n[West \"\"]\n[North \"\"]\n[East \"\"]\n[South \"\"]\n[Dealer \"",
    );
    put_seat(page, c, dealer);
    page.put_text(b"\"]\n[Vulnerable \"");
    put_vulnerability(page, vulnerability);
    page.put_text(b"\"]\n[Deal \"");
    put_deal(page, c, dealer, h);
}

// From the end of Deal to Result.
fn put_result(page: &mut Page, c: Conventions, declarer: usize, k: Contract)
    ensures { Puts page.old (lin_result_text c declarer k) page.new }
{
    page.put_text(b"\"]\n[Scoring \"\"]\n[Declarer \"");
    put_seat(page, c, declarer);
    page.put_text(b"\"]\n[Contract \"");
    put_contract(page, c, k);
    page.put_text(b"\"]\n[Result \"\"]\n");
}

// The calls, four a line; n is read behind the loop too, where enumerate is gone.
fn put_calls(page: &mut Page, c: Conventions, text: &[u8])
    ensures { Puts page.old (tokens_text 0 (call_tokens c (calls_from c (pairs_of text.now)))) page.new }
{
    let mut n = 0;
    for p in pairs_in(text) {
        let Some(code) = call_at(c, p) else {
            continue;
        };
        put_before(page, n);
        put_call(page, c, code as usize);
        n += 1;
    }
    put_last(page, n);
}

// The auction, where there are calls.
fn put_auction(page: &mut Page, c: Conventions, text: &[u8], s: Survey)
    ensures { Puts page.old (cond s.called (lin_auction_text c s.deal.dealer (calls_from c (pairs_of text.now))) []) page.new }
{
    if s.called {
        page.put_text(b"[Auction \"");
        put_seat(page, c, s.deal.dealer);
        page.put_text(b"\"]\n");
        put_calls(page, c, text);
    }
}

// The play, where there are a bid and cards.
fn put_play(page: &mut Page, c: Conventions, text: &[u8], s: Survey, declarer: u8)
    ensures { Puts page.old (lin_play_text c s declarer (pairs_of text.now)) page.new }
{
    let bid = s.contract.bid;
    if bid == 0 {
        return;
    }
    if s.played {
        let lead = next_seat(declarer);
        page.put_text(b"[Play \"");
        put_seat(page, c, usize::from(lead));
        page.put_text(b"\"]\n");
        let trump = strain_of(bid) as usize;
        put_tricks(page, Terms { c, lead, trump }, text);
    }
}

// The declarer; 4 without a bid, for which put_seat puts nothing: an Option would be unwrapped to 4 for it, as at first_to_name, and put_play,
// the other use, has asked for a bid.
#[tactic(auto, unfolding(crate::specs::Bidding::declarer_of))]
fn declarer_of(c: Conventions, text: &[u8], dealer: usize, k: Contract) -> u8
    requires { dealer ≤ 3 }
    ensures { result ≡ declarer_of dealer k (calls_from c (pairs_of text.now)) }
{
    if k.bid == 0 {
        return 4;
    }
    ((dealer as u8) + first_to_name(c, text, k)) % 4
}

// All lines of a board of which s is known, and whose hands these are.
pub(crate) fn put_board(page: &mut Page, c: Conventions, text: &[u8], s: Survey, hands: Hands)
    requires { s.deal.dealer ≤ 3 }
    ensures { Puts page.old (survey_text c s hands (pairs_of text.now)) page.new }
{
    let dealer = s.deal.dealer;
    let k = s.contract;
    let declarer = declarer_of(c, text, dealer, k);
    put_head(page, c, dealer, s.vulnerability as usize, hands);
    put_result(page, c, declarer as usize, k);
    put_auction(page, c, text, s);
    put_play(page, c, text, s, declarer);
}
