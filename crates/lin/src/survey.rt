// A board's dealing, vulnerability and contract, and whether it has calls and cards, in one walk over its pairs.
ghost use Rattle.std.specs.Prelude.{◌≡◌, ◌<◌, IfSome, unwrap_or};
ghost use Rattle.lin.specs.Pairs.{pairs_of};
ghost use Rattle.lin.specs.PairSteps.{pair_of};
ghost use Rattle.lin.specs.SurveySteps.{no_survey, survey_call, surveyed, survey_from};

use crate::bidding::{Contract, call_in, next_seat, vulnerability_in, with_call};
use crate::dealing::{LinDealing, deal_in};
use crate::pairs::{Command, PairAt, pairs_in};
use crate::playing::card_in;
use reader::deal::Hands;
use tables::letters::Conventions;
use tables::text::trim;

// What is known of a board after some of its pairs: whether there are calls and cards; seat is the next caller's, counted from the dealer.
// Seat and contract hold before the first call too, as the dealer's and none, with which it starts: an Option of them would be unwrapped to
// these.
#[derive(Clone, Copy)]
pub struct Survey {
    pub deal: LinDealing,
    pub vulnerability: u8,
    pub called: bool,
    pub seat: u8,
    pub contract: Contract,
    pub played: bool,
}

// Before the first pair.
fn no_survey() -> Survey
    ensures { result ≡ no_survey }
{
    Survey {
        deal: LinDealing {
            dealer: 0,
            hands: Some(Hands {
                north: 0,
                east: 0,
                south: 0,
                west: 0,
            }),
        },
        vulnerability: 0,
        called: false,
        seat: 0,
        contract: Contract {
            bid: 0,
            bidder: 0,
            doubling: 0,
        },
        played: false,
    }
}

// One more call, where there is one; 47 is none in the definition of calls.
#[tactic(auto, unfolding(crate::specs::SurveySteps::survey_call))]
fn survey_call(s: Survey, call: Option<u8>) -> Survey
    requires { IfSome call (λ k. k < 47) }
    ensures { result ≡ survey_call s (unwrap_or call 47) }
{
    let Some(code) = call else {
        return s;
    };
    Survey {
        called: true,
        seat: next_seat(s.seat),
        contract: with_call(s.seat, s.contract, code),
        ..s
    }
}

// One more pair.
#[tactic(auto, unfolding(crate::specs::SurveySteps::surveyed))]
fn survey_step(c: Conventions, s: Survey, p: PairAt) -> Survey
    ensures { result ≡ surveyed c s (pair_of p.entry) }
{
    let value = p.value;
    match p.command {
        Command::Md => Survey {
            deal: deal_in(c, s.deal, trim(value)),
            ..s
        },
        Command::Sv => Survey {
            vulnerability: vulnerability_in(trim(value)),
            ..s
        },
        Command::Mb => survey_call(s, call_in(c, value)),
        Command::Pc => Survey {
            played: s.played | card_in(c, trim(value)).is_some(),
            ..s
        },
        Command::Qx | Command::Heading | Command::Other => s,
    }
}

// All pairs of a board.
pub(crate) fn survey_of(c: Conventions, text: &[u8]) -> Survey
    ensures { result ≡ survey_from c no_survey (pairs_of text.now) }
{
    let mut s = no_survey();
    for p in pairs_in(text) {
        s = survey_step(c, s, p);
    }
    s
}
