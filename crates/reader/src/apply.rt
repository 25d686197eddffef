// What a tag does to a board, and the section that it opens (apply_tag).
ghost use Rattle.std.specs.Prelude.{◌≡◌, ◌≤◌, ℕ, cond, eqb, length};
ghost use Rattle.tables.specs.Text.{first_character};
ghost use Rattle.tables.specs.Letters.{seat_of};
ghost use Rattle.reader.specs.Names.{deal_name, contract_name, double_dummy_tricks_name, number_of};
ghost use Rattle.reader.specs.Boards.{parsed_deal, table_by, is_kept_contract, applied, open_by, no_board};
ghost use Rattle.reader.specs.BoardSteps.{met_words};

use crate::board::{
    Board, DIGITS, DealCard, Identity, NO_DEAL, NO_TABLE, PARSED, ROWS, Section, TableCard,
    UNPARSED, Values,
};
use crate::deal::{Hands, hand_words, read_deal};
use crate::names::TagName;
use crate::section::{Kind, Open};
use crate::tag::Span;
use crate::words::{contract_trump, vulnerability_of};
use tables::dd::dd_table_from_pbn;
use tables::letters::{Conventions, seat_of};
use tables::numbers::{parse_number, parse_signed};
use tables::text::{first_character, trim};

// The seat that a value's first character names, 4 where it names none, as words 4 and 6 of a card say it in C.
fn seat_in(c: Conventions, value: &[u8]) -> usize
    ensures { (result ≡ seat_of c (first_character value.now)) × (result ≤ 4) }
{
    usize::from(seat_of(c, first_character(value)).unwrap_or(4))
}

// Whether there is a number, and the number: two words of a card.
fn met_words(n: Option<u32>) -> (usize, usize)
    ensures { result ≡ met_words n }
{
    match n {
        Some(v) => (1, v as usize),
        None => (0, 0),
    }
}

// The hands of a deal that parsed; one that was kept unparsed stays UNPARSED.
fn parsed_deal(h: Hands, d: DealCard) -> DealCard
    ensures { result ≡ parsed_deal h d }
{
    DealCard {
        kind: if d.kind == UNPARSED { UNPARSED } else { PARSED },
        words: hand_words(h),
    }
}

// Deal: read once, for the hands and for the value that is kept.
#[tactic(auto, unfolding(crate::specs::Boards::applied, crate::specs::Boards::identity_by, crate::specs::Boards::deal_by, crate::specs::Boards::table_by, crate::specs::Boards::values_by, crate::specs::Boards::is_kept, crate::specs::Boards::is_kept_value, crate::specs::Boards::contract_by))]
fn deal_tag(c: Conventions, value: &[u8], place: usize, b: &mut Board)
    ensures { b.new ≡ applied c deal_name value.now place b.old }
{
    match read_deal(c, value) {
        Some(h) => b.deal = parsed_deal(h, b.deal),
        None if trim(value).is_empty() => {}
        None => {
            b.deal.kind = UNPARSED;
            b.values.deal = place;
        }
    }
}

// DoubleDummyTricks: never over a table of an OptimumResultTable.
#[tactic(auto, unfolding(crate::specs::Boards::table_by))]
fn table_by(value: &[u8], t: TableCard) -> TableCard
    ensures { result ≡ table_by double_dummy_tricks_name value.now t }
{
    let kind = t.kind;
    if kind == ROWS {
        return t;
    }
    match dd_table_from_pbn(value) {
        Ok(cells) => TableCard {
            kind: DIGITS,
            cells,
        },
        Err(_) => TableCard {
            kind: NO_TABLE,
            cells: [0; 20],
        },
    }
}

// Neither empty nor `?`.
fn is_kept_contract(value: &[u8]) -> bool
    ensures { result ≡ is_kept_contract value.now }
{
    !matches!(value, [] | [b'?'])
}

// Contract: kept, and the trump of a play after it.
#[tactic(auto, unfolding(crate::specs::Boards::applied, crate::specs::Boards::identity_by, crate::specs::Boards::deal_by, crate::specs::Boards::table_by, crate::specs::Boards::values_by, crate::specs::Boards::is_kept, crate::specs::Boards::is_kept_value, crate::specs::Boards::contract_by))]
fn contract_tag(c: Conventions, value: &[u8], place: usize, b: &mut Board)
    ensures { b.new ≡ applied c contract_name value.now place b.old }
{
    if is_kept_contract(value) {
        b.contract = usize::from(contract_trump(c, value));
        b.values.contract = place;
    }
}

// The entry of a value: the one before where the value is empty.
fn kept(value: &[u8], place: usize, before: usize) -> usize
    ensures { result ≡ cond (eqb (length value.now) 0) before place }
{
    if value.is_empty() { before } else { place }
}

// A board after a tag whose name is k; place is the value's entry plus 1.
#[tactic(auto, using(crate::proofs::ApplyLaws::same_values), unfolding(crate::specs::Boards::applied, crate::specs::Boards::identity_by, crate::specs::Boards::deal_by, crate::specs::Boards::table_by, crate::specs::Boards::values_by, crate::specs::Boards::is_kept, crate::specs::Boards::is_kept_value, crate::specs::Boards::contract_by))]
pub(crate) fn apply_tag(
    c: Conventions,
    k: Option<TagName>,
    value: &[u8],
    place: usize,
    b: &mut Board,
)
    ensures { b.new ≡ applied c (number_of k) value.now place b.old }
{
    let Some(name) = k else {
        return;
    };
    match name {
        TagName::Board => {
            (b.id.number_met, b.id.number) = met_words(parse_number(value, 4294967295));
            b.values.id = kept(value, place, b.values.id);
        }
        TagName::Dealer => b.id.dealer = seat_in(c, value),
        TagName::Vulnerable => b.id.vulnerability = usize::from(vulnerability_of(value)),
        TagName::Deal => deal_tag(c, value, place, b),
        TagName::Event => b.values.event = kept(value, place, b.values.event),
        TagName::Site => b.values.site = kept(value, place, b.values.site),
        TagName::Date => b.values.date = kept(value, place, b.values.date),
        TagName::Declarer => b.id.declarer = seat_in(c, value),
        TagName::Contract => contract_tag(c, value, place, b),
        TagName::Result => {
            (b.id.result_met, b.id.result) = met_words(parse_signed(value, 128));
        }
        TagName::North => b.values.north = kept(value, place, b.values.north),
        TagName::East => b.values.east = kept(value, place, b.values.east),
        TagName::South => b.values.south = kept(value, place, b.values.south),
        TagName::West => b.values.west = kept(value, place, b.values.west),
        TagName::DoubleDummyTricks => b.table = table_by(value, b.table),
        TagName::OptimumScore => b.values.score = place,
        TagName::ParContract => b.values.par = place,
        TagName::Auction | TagName::Play | TagName::Note | TagName::OptimumResultTable => {}
    }
}

// The section that a tag opens; none where it names no seat that it has to.
#[tactic(auto, unfolding(crate::specs::Boards::open_by))]
pub(crate) fn open_by(
    c: Conventions,
    k: Option<TagName>,
    value: &[u8],
    at: usize,
    split: Option<Span>,
) -> Option<Open>
    ensures { result ≡ open_by c (number_of k) value.now at split }
{
    let kind = match k {
        Some(TagName::Auction) => Kind::Auction(seat_of(c, first_character(value))?),
        Some(TagName::Play) => Kind::Play(seat_of(c, first_character(value))?),
        Some(TagName::OptimumResultTable) => Kind::Optimum,
        _ => return None,
    };
    Some(Open { kind, at, split })
}

// No number, no result, no seat and no vulnerability.
fn no_identity() -> Identity
    ensures { result ≡ no_board.id }
{
    Identity {
        number_met: 0,
        number: 0,
        dealer: 4,
        vulnerability: 4,
        declarer: 4,
        result_met: 0,
        result: 0,
    }
}

// Before the first tag.
pub(crate) fn no_board() -> Board
    ensures { result ≡ no_board }
{
    let none = Section {
        first: 0,
        count: 0,
        seat: 4,
        end: 0,
    };
    Board {
        id: no_identity(),
        deal: DealCard {
            kind: NO_DEAL,
            words: [0; 8],
        },
        table: TableCard {
            kind: NO_TABLE,
            cells: [0; 20],
        },
        values: Values::default(),
        auction: none,
        play: none,
        trump: 4,
        contract: 4,
    }
}
