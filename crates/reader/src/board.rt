// The structs of a board and of a record's state.
use crate::section::Open;

// Words 2 to 8 of a card: the number and the result each have a word before them that says whether there is one; 4 is no dealer, no
// declarer and (as word 5 never is) no vulnerability. A card is any words that a caller lends, and specs read this struct from any of
// them (`board_held` of the writer): words like 7 for the seat, or a result behind a 0, for which Options have no value.
#[derive(Clone, Copy)]
pub struct Identity {
    pub number_met: usize,
    pub number: usize,
    pub dealer: usize,
    pub vulnerability: usize,
    pub declarer: usize,
    pub result_met: usize,
    pub result: usize,
}

// Word 9 of a card, whose words 10 to 17 are those of the last deal that parsed. `board_held` reads any number here, too, where an enum
// would have these three.
pub const NO_DEAL: usize = 0;

pub const PARSED: usize = 1;

pub const UNPARSED: usize = 2;

#[derive(Clone, Copy)]
pub struct DealCard {
    pub kind: usize,
    pub words: [u32; 8],
}

// Word 38 of a card: none, of DoubleDummyTricks, or of an OptimumResultTable; a number for the reason of word 9.
pub const NO_TABLE: usize = 0;

pub const DIGITS: usize = 1;

pub const ROWS: usize = 2;

#[derive(Clone, Copy)]
pub struct TableCard {
    pub kind: usize,
    pub cells: [u8; 20],
}

// Value entries plus 1, 0 absent, as words 39 to 50 of a card and the plain board count them: an Option would become that number at
// each of the twelve.
#[derive(Clone, Copy, Default)]
pub struct Values {
    pub id: usize,
    pub event: usize,
    pub site: usize,
    pub date: usize,
    pub contract: usize,
    pub north: usize,
    pub east: usize,
    pub south: usize,
    pub west: usize,
    pub deal: usize,
    pub score: usize,
    pub par: usize,
}

// First entry plus 1, entries, dealer or leader, end, as words 51 to 54 and 55 to 58 of a card: the writer reads them back from any words.
#[derive(Clone, Copy)]
pub struct Section {
    pub first: usize,
    pub count: usize,
    pub seat: usize,
    pub end: usize,
}

// trump is the play's, word 59 of a card, which may be any number as those of `Identity`; contract is the trump of the last kept contract,
// which becomes it. 4 is none or notrump.
#[derive(Clone, Copy)]
pub struct Board {
    pub id: Identity,
    pub deal: DealCard,
    pub table: TableCard,
    pub values: Values,
    pub auction: Section,
    pub play: Section,
    pub trump: usize,
    pub contract: usize,
}

// The board so far, its open section, its tags and entries, and where the block of commentary starts that is open. How many entries there
// may be stands in the contracts of the steps (2^57 to 2^59), not here: a step from the greatest number would break a bound that is the
// same before and after it, and only the loop of `read_board` knows the record's length. Nor does a State know the place p that is read up
// to, and its section and block start no later (`Sound p`).
#[derive(Clone, Copy)]
pub struct State {
    pub board: Board,
    pub section: Option<Open>,
    pub tags: usize,
    pub n: usize,
    pub commentary: Option<usize>,
}
