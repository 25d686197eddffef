// The lines of a record: what each does to the board, and the entries that it adds. A line l stands at the place p of its record; both
// are handed on side by side, since three of the eight steps take p alone (with a part of l) and no step takes l without p. The State and the
// Entries go side by side too: `read_board` hands the State out while the Entries stay its caller's, and `Emits`, the contract of the
// steps, compares the two lists of entries, and the State apart with the one that the definitions make, which have no lent words.
ghost use Rattle.std.specs.Prelude.{◌≡◌, ◌∷◌, [], ◌+◌, ◌*◌, ◌≤◌, ◌<◌, ◌^◌, Some, length};
ghost use Rattle.reader.specs.Pieces.{entry};
ghost use Rattle.reader.specs.PieceSteps.{Adds, Emits};
ghost use Rattle.reader.specs.TagSteps.{TagInside};
ghost use Rattle.reader.specs.LineSteps.{ReadingPlaced};
ghost use Rattle.reader.specs.TokenSteps.{Seated};
ghost use Rattle.reader.specs.Sections.{kind_number, span_of};
ghost use Rattle.reader.specs.SectionSteps.{walk_count};
ghost use Rattle.reader.specs.Boards.{no_state, auction_closed, play_closed, table_closed, board_closed, closed, tagged, directed, data_added, read_by, blocked, braced, block_of, in_commentary, line_out, record_out};
ghost use Rattle.reader.specs.BoardSteps.{Sound, Stepped, LastStored};

use crate::apply::{apply_tag, no_board, open_by};
use crate::board::{Board, ROWS, Section, State, TableCard};
use crate::line::{Line, TagReading, is_blank, last_brace, line_kind};
use crate::names::tag_name;
use crate::play::last_trick;
use crate::section::{Kind, Open, Walk, walk_section};
use crate::store::{COMMENTARY, DATA, DIRECTIVE, Entries, NAME, VALUE};
use crate::tag::{Span, Tag};
use tables::dd::gathered_table;
use tables::letters::Conventions;
use tables::lines::lines_from;
use tables::text::lead_len;

fn no_state() -> State
    ensures { result ≡ no_state }
{
    State {
        board: no_board(),
        section: None,
        tags: 0,
        n: 0,
        commentary: None,
    }
}

// The board after an auction with tokens.
fn auction_closed(b: Board, dealer: u8, n: usize, w: Walk) -> Board
    requires { n < 2 ^ 63 }
    ensures { result ≡ auction_closed b dealer n w }
{
    let bidding = w.bidding;
    if bidding.any {
        let auction = Section {
            first: n + 1,
            count: bidding.count,
            seat: usize::from(dealer),
            end: bidding.end,
        };
        return Board { auction, ..b };
    }
    b
}

// The board after a play with tokens.
#[tactic(auto, unfolding(crate::specs::Play::last_trick))]
fn play_closed(b: Board, leader: u8, n: usize, w: Walk) -> Board
    requires { (n < 2 ^ 62) × (w.tricks.count < 2 ^ 62) }
    ensures { result ≡ play_closed b leader n w }
{
    let tricks = w.tricks;
    if tricks.any {
        let play = Section {
            first: n + 1,
            count: tricks.count + 1,
            seat: usize::from(leader),
            end: tricks.end,
        };
        return Board {
            play,
            trump: b.contract,
            ..b
        };
    }
    b
}

// The board after the rows of a table.
fn table_closed(b: Board, w: Walk) -> Board
    ensures { result ≡ table_closed b w }
{
    let Some(rows) = w.rows else {
        return b;
    };
    let Ok(cells) = gathered_table(rows) else {
        return b;
    };
    let table = TableCard { kind: ROWS, cells };
    Board { table, ..b }
}

// The board after its open section.
fn board_closed(b: Board, o: Open, n: usize, w: Walk) -> Board
    requires { (n < 2 ^ 62) × (w.tricks.count < 2 ^ 62) }
    ensures { result ≡ board_closed b (Some o) n w }
{
    match o.kind {
        Kind::Auction(dealer) => auction_closed(b, dealer, n, w),
        Kind::Play(leader) => play_closed(b, leader, n, w),
        Kind::Optimum => table_closed(b, w),
    }
}

// The last trick of a play is stored behind the section's entries; how many these then are.
fn last_entries(kind: Kind, w: Walk, entries: &mut Entries) -> usize
    requires { Seated w.tricks × (entries.old.start ≤ 2 ^ 40) × (entries.old.count ≤ 2 ^ 58) × (walk_count w ≤ 2 ^ 58) }
    ensures { LastStored (kind_number kind) w entries.old entries.new result }
{
    let bidding = w.bidding;
    let tricks = w.tricks;
    let calls = bidding.count;
    if let Kind::Play(_) = kind {
        let last = last_trick(tricks, entries);
        return calls + last.count;
    }
    calls + tricks.count
}

// Closes the open section, if there is one (close_sections): its calls or tricks are added, or its table is taken.
fn close_sections(c: Conventions, r: &[u8], s: &mut State, entries: &mut Entries)
    requires { (entries.old.start + length r.now ≤ 16777215) × (entries.old.count ≤ 2 ^ 57) × (s.old.n ≤ 2 ^ 57) × Sound (length r.now) s.old }
    ensures { Emits entries.old entries.new s.new (closed c r.now s.old) × (s.new.n ≤ s.old.n + 6 * length r.now + 1) }
{
    let Some(o) = s.section else {
        return;
    };
    let b = s.board;
    let w = walk_section(c, r, o, b.contract, entries);
    let k = last_entries(o.kind, w, entries);
    s.board = board_closed(b, o, s.n, w);
    s.section = None;
    s.n += k;
}

// Stores the part d of the line at p, with a mark.
fn put_part(entries: &mut Entries, kind: usize, p: usize, d: Span, mark: usize)
    requires { (entries.old.start + p + d.start < 2 ^ 63) × (entries.old.count ≤ 2 ^ 60) }
    ensures { Adds entries.old entries.new (entry kind (p + d.start) d.len mark ∷ []) }
{
    entries.put(kind, p + d.start, d.len, mark);
}

// A tag, once sections are closed: its name and value, and what its value does.
fn tag_step(
    c: Conventions,
    s: &mut State,
    p: usize,
    l: &[u8],
    tag: Tag,
    split: Option<Span>,
    entries: &mut Entries,
)
    requires { (entries.old.start + p + length l.now ≤ 16777215) × (entries.old.count ≤ 2 ^ 58) × (s.old.n ≤ 2 ^ 58) × Sound p s.old × (s.old.tags ≤ 2 ^ 58) × TagInside tag (length l.now) × ((span_of split).start + (span_of split).len ≤ p + length l.now) }
    ensures { Stepped (p + length l.now) entries.old entries.new s.new (tagged c s.old p l.now (p + length l.now) tag split) }
{
    put_part(entries, NAME, p, tag.name, 0);
    put_part(entries, VALUE, p, tag.value, 0);
    let k = tag_name(tag.name.of(l));
    let v = tag.value.of(l);
    apply_tag(c, k, v, s.n + 2, &mut s.board);
    s.section = open_by(c, k, v, p + l.len(), split);
    s.tags += 1;
    s.n += 2;
    s.commentary = None;
}

// A directive, or a comment on a tag's line.
fn directive_step(s: &mut State, p: usize, d: Span, entries: &mut Entries)
    requires { (entries.old.start + p + d.start + d.len ≤ 2 ^ 40) × (entries.old.count ≤ 2 ^ 59) × (s.old.n ≤ 2 ^ 59) }
    ensures { Emits entries.old entries.new s.new (directed s.old p d) }
{
    put_part(entries, DIRECTIVE, p, d, s.tags);
    s.n += 1;
}

// A data line: its entry, where a section is open.
fn data_step(s: &mut State, p: usize, d: Span, entries: &mut Entries)
    requires { (entries.old.start + p + d.start + d.len ≤ 2 ^ 40) × (entries.old.count ≤ 2 ^ 59) × (s.old.n ≤ 2 ^ 59) }
    ensures { Emits entries.old entries.new s.new (data_added s.old p d) }
{
    if let Some(o) = s.section {
        put_part(entries, DATA, p, d, o.kind.number());
        s.n += 1;
    }
}

// A tag with its comment or its data.
fn tag_read(c: Conventions, s: &mut State, p: usize, l: &[u8], t: TagReading, entries: &mut Entries)
    requires { (entries.old.start + p + length l.now ≤ 16777215) × (entries.old.count ≤ 2 ^ 58) × (s.old.n ≤ 2 ^ 58) × Sound p s.old × (s.old.tags ≤ 2 ^ 58) × ReadingPlaced t (length l.now) }
    ensures { Stepped (p + length l.now) entries.old entries.new s.new (read_by c s.old p l.now (p + length l.now) t) }
{
    match t {
        TagReading::Plain(tag) => tag_step(c, s, p, l, tag, None, entries),
        TagReading::WithComment(tag, d) => {
            tag_step(c, s, p, l, tag, None, entries);
            directive_step(s, p, d, entries);
        }
        TagReading::WithData(tag, d) => {
            tag_step(c, s, p, l, tag, Some(d.moved(p)), entries);
            data_step(s, p, d, entries);
        }
    }
}

// Commentary closes: a block from i to j of the record, unless it is all white.
fn block_step(r: &[u8], s: &mut State, i: usize, j: usize, entries: &mut Entries)
    requires { (entries.old.start + i ≤ 2 ^ 41) × (entries.old.count ≤ 2 ^ 59) × (s.old.n ≤ 2 ^ 59) }
    ensures { Emits entries.old entries.new s.new (blocked r.now s.old i j) }
{
    s.commentary = None;
    let len = j.saturating_sub(i);
    let block = Span { start: i, len };
    if !is_blank(block.of(r)) {
        put_part(entries, COMMENTARY, 0, block, s.tags);
        s.n += 1;
    }
}

// A line that begins with `{`.
#[tactic(auto, unfolding(crate::specs::Boards::braced))]
fn brace_line(r: &[u8], s: &mut State, p: usize, l: &[u8], entries: &mut Entries)
    requires { (entries.old.start + p + length l.now ≤ 16777215) × (entries.old.count ≤ 2 ^ 57) × (s.old.n ≤ 2 ^ 57) }
    ensures { Emits entries.old entries.new s.new (braced r.now s.old p l.now) × (block_of s.new ≤ p + length l.now + 1) }
{
    let i = p + lead_len(l) + 1;
    match last_brace(l) {
        Some(j) => block_step(r, s, i, p + j, entries),
        None => s.commentary = Some(i),
    }
}

// A line inside commentary, whose block starts at i.
#[tactic(auto, unfolding(crate::specs::Boards::in_commentary))]
fn commentary_line(r: &[u8], s: &mut State, i: usize, p: usize, l: &[u8], entries: &mut Entries)
    requires { (s.old.commentary ≡ Some i) × (entries.old.start + p + length l.now ≤ 16777215) × (entries.old.count ≤ 2 ^ 57) × (s.old.n ≤ 2 ^ 57) × (i ≤ p + 1) }
    ensures { Emits entries.old entries.new s.new (in_commentary r.now s.old p l.now) × (block_of s.new ≤ p + 1) }
{
    if let Some(j) = last_brace(l) {
        block_step(r, s, i, p + j, entries);
    }
}

// The line of the record r that stands at p.
fn line_step(c: Conventions, r: &[u8], s: &mut State, p: usize, l: &[u8], entries: &mut Entries)
    requires { (p + length l.now ≤ length r.now) × (entries.old.start + length r.now ≤ 16777215) × (entries.old.count ≤ 2 ^ 57) × (s.old.n ≤ 2 ^ 57) × Sound p s.old × (s.old.tags ≤ p) }
    ensures { Stepped (p + length l.now) entries.old entries.new s.new (line_out c r.now s.old p l.now) }
{
    if let Some(i) = s.commentary {
        return commentary_line(r, s, i, p, l, entries);
    }
    match line_kind(l) {
        Line::Data(d) => data_step(s, p, d, entries),
        Line::Tag(t) => {
            close_sections(c, r, s, entries);
            tag_read(c, s, p, l, t, entries);
        }
        Line::Directive(d) => directive_step(s, p, d, entries),
        Line::Brace => brace_line(r, s, p, l, entries),
        Line::Blank | Line::Bracket => {}
    }
}

// The board of a record's own text r. The place of a line is counted, here as in `record_end` and `next_piece`, by the reason at `Lines`.
pub(crate) fn read_board(c: Conventions, r: &[u8], entries: &mut Entries) -> State
    requires { (entries.old.start + length r.now ≤ 16777215) × (entries.old.count ≤ 2 ^ 56) }
    ensures { Emits entries.old entries.new result (record_out c r.now) }
{
    let mut s = no_state();
    let mut p = 0;
    for l in lines_from(r, 0) {
        line_step(c, r, &mut s, p, l, entries);
        p += l.len();
    }
    close_sections(c, r, &mut s, entries);
    s
}
