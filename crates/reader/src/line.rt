// The kinds of lines.
ghost use Rattle.std.specs.Prelude.{◌≡◌, false, MatchOption, length};
ghost use Rattle.reader.specs.Lines.{is_blank, has_brace, last_brace, line_kind, split_line, bracket_line, opens_board};
ghost use Rattle.reader.specs.LineSteps.{LastBrace, LinePlaced};

use crate::tag::{Span, Tag, parse_tag_line, split_tag_and_data, trim_span};
use tables::text::{byte_at, lead_len};

// A tag: alone on its line, with a comment, or with section data split off. `tag_read` alone takes it apart, once, with a branch for each;
// a tag beside an enum of what follows would be the same three branches.
#[derive(Clone, Copy)]
pub enum TagReading {
    Plain(Tag),
    WithComment(Tag, Span),
    WithData(Tag, Span),
}

// `Brace` starts a commentary block; `Bracket` starts with `[` and is no tag. Directives and data are trimmed.
#[derive(Clone, Copy)]
pub enum Line {
    Blank,
    Brace,
    Directive(Span),
    Tag(TagReading),
    Bracket,
    Data(Span),
}

#[tactic(auto, using(crate::proofs::LineLaws::blank_is))]
pub(crate) fn is_blank(line: &[u8]) -> bool
    ensures { result ≡ is_blank line.now }
{
    lead_len(line) == line.len()
}

// Whether the line has a `}`.
#[tactic(auto, using(crate::proofs::TagLaws::among_any), unfolding(crate::specs::Lines::has_brace))]
pub(crate) fn has_brace(line: &[u8]) -> bool
    ensures { result ≡ has_brace line.now }
{
    line.contains(&b'}')
}

// The place of the last `}`.
pub(crate) fn last_brace(line: &[u8]) -> Option<usize>
    ensures { MatchOption result (has_brace line.now ≡ false) (λ k. LastBrace line.now k) }
{
    line.iter().rposition(|b| *b == b'}')
}

// A line that starts with `[` and is no tag, unless section data is split off.
#[tactic(auto, unfolding(crate::specs::Lines::split_line))]
fn split_line(line: &[u8]) -> Line
    ensures { (result ≡ split_line line.now) × LinePlaced result (length line.now) }
{
    match split_tag_and_data(line) {
        Some((tag, data)) => Line::Tag(TagReading::WithData(tag, data)),
        None => Line::Bracket,
    }
}

// A line that starts with `[`. Not inlined: `line_kind` saves no registers then for the lines that start with none, which took a quarter
// more time.
#[inline(never)]
#[tactic(auto, unfolding(crate::specs::Lines::bracket_line))]
fn bracket_line(line: &[u8]) -> Line
    ensures { (result ≡ bracket_line line.now) × LinePlaced result (length line.now) }
{
    match parse_tag_line(line) {
        Some((tag, None)) => Line::Tag(TagReading::Plain(tag)),
        Some((tag, Some(comment))) => Line::Tag(TagReading::WithComment(tag, comment)),
        None => split_line(line),
    }
}

// A line outside commentary, by its first byte that is not white.
#[tactic(auto, using(crate::proofs::LineLaws::blank_span), unfolding(crate::specs::Lines::line_kind))]
pub(crate) fn line_kind(line: &[u8]) -> Line
    ensures { (result ≡ line_kind line.now) × LinePlaced result (length line.now) }
{
    let t = trim_span(line);
    if t.len == 0 {
        return Line::Blank;
    }
    match byte_at(line, t.start) {
        b'{' => Line::Brace,
        b';' | b'%' => Line::Directive(t),
        b'[' => bracket_line(line),
        _ => Line::Data(t),
    }
}

// Whether the line holds a tag, which opens a board or goes on with one.
pub(crate) fn opens_board(line: &[u8]) -> bool
    ensures { result ≡ opens_board (line_kind line.now) }
{
    matches!(line_kind(line), Line::Tag(_))
}
