// The plan: how many boards are in each state, and a slip for each board to solve.
ghost use Rattle.std.specs.Prelude.{◌≡◌, cond, ◌^◌};
ghost use Rattle.tables.specs.Letters.{built_in};
ghost use Rattle.reader.specs.Store.{put, put_all};
ghost use Rattle.planning.specs.PlanSteps.{counted, Within, PlanEnded};
ghost use Rattle.planning.specs.States.{board_plans, is_solve};
ghost use Rattle.planning.specs.Slips.{slip_of, slips_of, totals_of};
ghost use Rattle.planning.specs.Plans.{plan_number, plan_carries, plan_edition, words_of, SameLent, IsPlanned};

use crate::cards::Card;
use crate::editions::{EditionsRefusal, LentBoxes, read_both};
use crate::slips::{Slot, slip_of};
use crate::state::{BoardState, state_of};
use tables::letters::{Conventions, built_in};
use tables::refused::{Edition, Refused};

// By name, since C and the listing tell each count under its name: in an array of one count a state the names would stand beside it.
#[derive(Clone, Copy, Debug, Default, PartialEq, Eq)]
pub struct Totals {
    pub boards: u64,
    pub blank: u64,
    pub own: u64,
    pub old: u64,
    pub near: u64,
    pub twin: u64,
    pub solve: u64,
}

// A refusal of an edition, or 4: fewer slips lent than boards to solve.
#[derive(Clone, Copy, Debug, PartialEq, Eq)]
pub enum PlanRefusal {
    Edition(EditionsRefusal),
    SlipsShort(u64),
}

impl From<EditionsRefusal> for PlanRefusal {
    ghost use Rattle.std.specs.Prelude.{◌≡◌};
    ghost use Rattle.planning.specs.declared.plan.PlanRefusal.TheVariants.{Edition};

    ghost from_gives = { λ f g. g ≡ Edition f };

    fn from(f: EditionsRefusal) -> PlanRefusal {
        PlanRefusal::Edition(f)
    }
}

impl Refused for PlanRefusal {
    ghost number_of = { plan_number };

    ghost edition_of = { plan_edition };

    ghost carries = { plan_carries };

    fn number(self) -> u64 {
        match self {
            PlanRefusal::Edition(g) => g.number(),
            PlanRefusal::SlipsShort(_) => 4,
        }
    }

    fn edition(self) -> Option<Edition> {
        match self {
            PlanRefusal::Edition(g) => g.edition(),
            PlanRefusal::SlipsShort(_) => None,
        }
    }

    fn carried(self) -> u64 {
        match self {
            PlanRefusal::Edition(g) => g.carried(),
            PlanRefusal::SlipsShort(n) => n,
        }
    }
}

// Totals with one board more.
#[tactic(auto, unfolding(crate::specs::PlanSteps::counted))]
fn counted(mut t: Totals, s: BoardState) -> Totals
    requires { Within (2 ^ 60) t }
    ensures { result ≡ counted t s }
{
    t.boards += 1;
    match s {
        BoardState::Blank => t.blank += 1,
        BoardState::Own => t.own += 1,
        BoardState::Old(_) => t.old += 1,
        BoardState::Near(_) => t.near += 1,
        BoardState::Twin(_) => t.twin += 1,
        BoardState::Solve => t.solve += 1,
    }
    t
}

// Stores the slip of the board at the position p as the n-th, where the board is to be solved.
fn put_slip<S: Slot>(slips: &mut [S], n: usize, p: u64, card: &Card, s: BoardState)
    ensures { S.numbers slips.new ≡ cond (is_solve s) (put 5 (S.numbers slips.old) n (slip_of p card.now)) (S.numbers slips.old) }
{
    if s.is_solve() {
        S::put(slips, n, slip_of(p, card));
    }
}

// The totals of all boards of the new edition, and their slips.
pub fn put_slips<S: Slot>(olds: &[Card], news: &[Card], slips: &mut [S]) -> Totals
    ensures { (result ≡ totals_of (board_plans olds.now news.now))
        × (S.numbers slips.new ≡ put_all 5 (S.numbers slips.old) 0 (slips_of (board_plans olds.now news.now))) }
{
    let mut t = Totals::default();
    for (k, card) in news.iter().enumerate() {
        let s = state_of(olds, news, k);
        put_slip(slips, t.solve as usize, (k + 1) as u64, card, s);
        t = counted(t, s);
    }
    t
}

// The answer for the totals; all lent words are set to 0 where it is a refusal.
pub fn finish_plan<S: Slot>(
    boxes: &mut LentBoxes,
    slips: &mut [S],
    t: Totals,
) -> Result<Totals, PlanRefusal>
    ensures ended { PlanEnded (words_of boxes.old) (S.numbers slips.old) t result (words_of boxes.new) (S.numbers slips.new) }
    ensures same { SameLent boxes.old boxes.new }
{
    if (S::room(slips) as u64) < t.solve {
        boxes.zero();
        S::clear(slips);
        return Err(PlanRefusal::SlipsShort(t.solve));
    }
    Ok(t)
}

// Plans by the given conventions.
pub fn plan_with<S: Slot>(
    c: Conventions,
    old: &[u8],
    new: &[u8],
    boxes: &mut LentBoxes,
    slips: &mut [S],
) -> Result<Totals, PlanRefusal>
    ensures planned { IsPlanned c old.now new.now (words_of boxes.old) (S.numbers slips.old) (words_of boxes.new) (S.numbers slips.new) result }
    ensures same { SameLent boxes.old boxes.new }
{
    S::clear(slips);
    let both = read_both(c, old, new, boxes)?;
    let (olds, news) = boxes.cards(both);
    let t = put_slips(olds, news, slips);
    finish_plan(boxes, slips, t)
}

// Plans a new edition, given an old one: what is in which state, and a slip for each board to solve, as five numbers or as a struct. A refusal
// leaves all lent words zero.
pub fn plan<S: Slot>(
    old: &[u8],
    new: &[u8],
    boxes: &mut LentBoxes,
    slips: &mut [S],
) -> Result<Totals, PlanRefusal>
    ensures planned { IsPlanned built_in old.now new.now (words_of boxes.old) (S.numbers slips.old) (words_of boxes.new) (S.numbers slips.new) result }
    ensures same { SameLent boxes.old boxes.new }
{
    plan_with(built_in(), old, new, boxes, slips)
}
