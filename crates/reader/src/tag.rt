// Tags: a line `[Name "value"]`, perhaps with a comment or with section data after it. Every place is one of the line as given.
ghost use Rattle.std.specs.Prelude.{◌≡◌, [], ◌+◌, ◌-◌, ◌≤◌, ◌<◌, ◌^◌, eqb, length, drop, IfSome};
ghost use Rattle.reader.specs.Tag.{cut, part, last_byte, trim_span, trim_part, bracket_of, ends_quoted, close_at, name_of, is_quoted, value_of, is_comment, comment_of, tag_line, find_at, data_bracket, data_after, split_of};
ghost use Rattle.reader.specs.Boards.{at};
ghost use Rattle.reader.specs.TagSteps.{SpanInside, TagPlaced, SplitPlaced};

use tables::text::{byte_at, from, index_of, kept_len, lead_len, trim_end, upto, word_len};

// A part of a line.
#[derive(Clone, Copy)]
pub struct Span {
    pub start: usize,
    pub len: usize,
}

impl Span {
    // The bytes of a text that stand there.
    pub fn of<'a>(self, text: &'a [u8]) -> &'a [u8]
        ensures { result.now ≡ cut self text.now }
    {
        upto(from(text, self.start), self.len)
    }

    // As a part of a text in which its own stands at the place `p`.
    pub(crate) fn moved(self, p: usize) -> Span
        requires { p + self.start < 2 ^ 64 }
        ensures { result ≡ at p self }
    {
        Span {
            start: p + self.start,
            ..self
        }
    }
}

// The places of a tag's name and of its value, without the quotes.
#[derive(Clone, Copy)]
pub struct Tag {
    pub name: Span,
    pub value: Span,
}

// The bytes from place `a` up to place `e`.
fn part(s: &[u8], a: usize, e: usize) -> &[u8]
    ensures { result.now ≡ part a e s.now }
{
    from(upto(s, e), a)
}

// Whether the last byte is a quote.
#[tactic(auto, using(crate::proofs::TagLaws::last_get))]
fn ends_in_quote(s: &[u8]) -> bool
    ensures { result ≡ eqb (last_byte s.now) 34 }
{
    matches!(s, [.., b'"'])
}

// Where a text lies once it is trimmed.
pub(crate) fn trim_span(s: &[u8]) -> Span
    ensures { (result ≡ trim_span s.now) × (result.start + result.len ≤ length s.now) }
{
    let n = lead_len(s);
    Span {
        start: n,
        len: kept_len(from(s, n)),
    }
}

// Where the part of a line from `a` up to `e` lies once it is trimmed.
#[tactic(auto, unfolding(crate::specs::Tag::trim_span, crate::specs::Tag::trim_part))]
fn trim_part(line: &[u8], a: usize, e: usize) -> Span
    ensures { (result ≡ trim_part a e line.now) × (result.len ≤ length line.now - result.start) }
{
    trim_span(part(line, a, e)).moved(a)
}

// The place behind the `[` that a line starts with, white space apart.
fn opening_bracket(line: &[u8]) -> Option<usize>
    ensures { (result ≡ bracket_of line.now) × IfSome result (λ a. a ≤ length line.now) }
{
    let n = lead_len(line);
    if byte_at(line, n) == b'[' {
        return Some(n + 1);
    }
    None
}

// Whether a text ends with a quote, the white space off its end.
#[tactic(auto, unfolding(crate::specs::Tag::ends_quoted))]
fn ends_quoted(s: &[u8]) -> bool
    ensures { result ≡ ends_quoted s.now }
{
    ends_in_quote(trim_end(s))
}

// The first `x` at `a` or after it.
fn find_from(line: &[u8], x: u8, a: usize) -> Option<usize>
    ensures { (result ≡ find_at x a (drop a line.now)) × IfSome result (λ k. k < length line.now) }
{
    let k = a + index_of(from(line, a), x);
    (k < line.len()).then_some(k)
}

// The first `]` of the body, which starts at `a`, with a quote before it, white space apart. A `for` over places would look at each byte
// alone, a quarter slower than `find_from` by index_of (see tables::text).
fn closing_bracket(line: &[u8], a: usize) -> Option<usize>
    ensures { (result ≡ close_at a [] (drop a line.now)) × IfSome result (λ k. k < length line.now) }
{
    let mut next = a;
    while let Some(i) = find_from(line, b']', next) {
        if ends_quoted(part(line, a, i)) {
            return Some(i);
        }
        next = i + 1;
    }
    None
}

// The length of the name that a body begins with: it ends before the first white byte.
#[tactic(auto, unfolding(crate::specs::Tag::name_of))]
fn name_len(body: &[u8]) -> Option<usize>
    ensures { (result ≡ name_of body.now) × IfSome result (λ n. n < length body.now) }
{
    let n = word_len(body);
    (n < body.len()).then_some(n)
}

// An opening and a closing quote, which are two bytes.
#[tactic(auto, using(crate::proofs::TagLaws::last_get), unfolding(crate::specs::Tag::is_quoted))]
fn is_quoted(s: &[u8]) -> bool
    ensures { result ≡ is_quoted s.now }
{
    matches!(s, [b'"', .., b'"'])
}

// The value in quotes between `a` and `e`, white space apart.
fn quoted_value(line: &[u8], a: usize, e: usize) -> Option<Span>
    ensures { (result ≡ value_of a e line.now) × IfSome result (λ p. SpanInside p (length line.now)) }
{
    let t = trim_part(line, a, e);
    if is_quoted(t.of(line)) {
        return Some(Span {
            start: t.start + 1,
            len: t.len - 2,
        });
    }
    None
}

// `;` and anything, or `{` closed on the line.
#[tactic(auto, using(crate::proofs::TagLaws::among_any), unfolding(crate::specs::Tag::is_comment))]
fn is_comment(s: &[u8]) -> bool
    ensures { result ≡ is_comment s.now }
{
    match s {
        [b'{', ..] => s.contains(&b'}'),
        [b';', ..] => true,
        _ => false,
    }
}

// The comment on the line from `a` on, if something stands there; nothing where that is no comment. The outer Option is for `?` in
// `parse_tag_line`, as of the other parts of a tag.
#[tactic(auto, unfolding(crate::specs::Tag::comment_of))]
fn trailing_comment(line: &[u8], a: usize) -> Option<Option<Span>>
    ensures { (result ≡ comment_of a line.now) × IfSome result (λ o. IfSome o (λ p. SpanInside p (length line.now))) }
{
    let t = trim_part(line, a, line.len());
    if t.len == 0 {
        return Some(None);
    }
    is_comment(t.of(line)).then_some(Some(t))
}

// A tag and the comment after it.
#[tactic(auto, unfolding(crate::specs::Tag::tag_line))]
pub(crate) fn parse_tag_line(line: &[u8]) -> Option<(Tag, Option<Span>)>
    ensures { (result ≡ tag_line line.now) × TagPlaced result (length line.now) }
{
    let a = opening_bracket(line)?;
    let e = closing_bracket(line, a)?;
    let n = name_len(part(line, a, e))?;
    let value = quoted_value(line, a + n, e)?;
    let comment = trailing_comment(line, e + 1)?;
    let name = Span { start: a, len: n };
    Some((Tag { name, value }, comment))
}

// The first `]` after the line's second quote.
#[tactic(auto, unfolding(crate::specs::Tag::data_bracket))]
fn data_bracket(line: &[u8]) -> Option<usize>
    ensures { (result ≡ data_bracket line.now) × IfSome result (λ k. k < length line.now) }
{
    let o = find_from(line, b'"', 0)?;
    let q = find_from(line, b'"', o + 1)?;
    find_from(line, b']', q + 1)
}

// The tag that stands before `e`, whether or not a comment follows it, and the data from there.
#[tactic(auto, unfolding(crate::specs::Tag::data_after))]
fn data_after(line: &[u8], e: usize) -> Option<(Tag, Span)>
    ensures { (result ≡ data_after e line.now) × SplitPlaced result (length line.now) }
{
    let (tag, _) = parse_tag_line(upto(line, e))?;
    let data = trim_part(line, e, line.len());
    if data.len == 0 {
        return None;
    }
    Some((tag, data))
}

// A tag with section data after its bracket, as `[Play "W"]SJ`.
#[tactic(auto, unfolding(crate::specs::Tag::split_of))]
pub(crate) fn split_tag_and_data(line: &[u8]) -> Option<(Tag, Span)>
    ensures { (result ≡ split_of line.now) × SplitPlaced result (length line.now) }
{
    let k = data_bracket(line)?;
    data_after(line, k + 1)
}
