// White space, trimming, fields and characters.
ghost use Rattle.std.specs.Prelude.{◌≡◌, ◌+◌, ◌≤◌, ◌<◌, length, get_or, take, drop};
ghost use Rattle.tables.specs.Text.{is_white, lead, trim_start, trim_end, trimmed, word, past_word, before, is_inside, characters, starts, first_character};

// The byte at `i`, and 0 past the end, as `get_or` of the specs: callers compare it with signs and letters, none of which is 0.
pub fn byte_at(s: &[u8], i: usize) -> u8
    ensures { result ≡ get_or s.now i 0 }
{
    s.get(i).copied().unwrap_or(0)
}

// All from `a`, and nothing where `a` is past the end.
pub fn from(s: &[u8], a: usize) -> &[u8]
    ensures { result.now ≡ drop a s.now }
{
    &s[a.min(s.len())..]
}

// The first `n` bytes, or all where there are fewer.
pub fn upto(s: &[u8], n: usize) -> &[u8]
    ensures { result.now ≡ take n s.now }
{
    &s[..n.min(s.len())]
}

#[tactic(auto, unfolding(crate::specs::Text::is_white))]
pub fn is_white(b: u8) -> bool
    ensures { result ≡ is_white b }
{
    matches!(b, b'\t'..=b'\r' | b' ')
}

// The number of white bytes that `s` begins with.
pub fn lead_len(s: &[u8]) -> usize
    ensures { (result ≡ length (lead s.now)) × (result ≤ length s.now) }
{
    s.iter().take_while(|b| is_white(**b)).count()
}

// The length of `s` without the white space at its end.
pub fn kept_len(s: &[u8]) -> usize
    ensures { (result ≡ length (trim_end s.now)) × (result ≤ length s.now) }
{
    s.len() - s.iter().rev().take_while(|b| is_white(**b)).count()
}

pub(crate) fn trim_start(s: &[u8]) -> &[u8]
    ensures { result.now ≡ trim_start s.now }
{
    &s[lead_len(s)..]
}

pub fn trim_end(s: &[u8]) -> &[u8]
    ensures { result.now ≡ trim_end s.now }
{
    &s[..kept_len(s)]
}

#[tactic(auto, unfolding(crate::specs::Text::trimmed))]
pub fn trim(s: &[u8]) -> &[u8]
    ensures { result.now ≡ trimmed s.now }
{
    trim_end(trim_start(s))
}

// The number of bytes before the first white one.
pub fn word_len(s: &[u8]) -> usize
    ensures { (result ≡ length (word s.now)) × (result ≤ length s.now) }
{
    s.iter().take_while(|b| !is_white(**b)).count()
}

// The first field of a text that begins with one.
pub(crate) fn first_word(s: &[u8]) -> &[u8]
    ensures { result.now ≡ word s.now }
{
    &s[..word_len(s)]
}

// What follows the first field, from the next field on.
pub fn next_words(s: &[u8]) -> &[u8]
    ensures { result.now ≡ trim_start (past_word s.now) }
{
    trim_start(&s[word_len(s)..])
}

// The number of bytes before the first `x`, one byte a turn.
fn bytes_before(s: &[u8], x: u8) -> usize
    ensures { (result ≡ length (before x s.now)) × (result ≤ length s.now) }
{
    s.iter().take_while(|b| **b != x).count()
}

// The number of bytes before the first `x`, all of them where there is none: a line, a field or a value is just these bytes
// (`upto(s, index_of(s, x))`), whether an `x` ends it or not, and an Option would have to be turned back there. Four bytes a turn: one a
// turn, as `position` takes, is a quarter slower (3.00 times the Rust is the bar of reading).
pub fn index_of(s: &[u8], x: u8) -> usize
    ensures { (result ≡ length (before x s.now)) × (result ≤ length s.now) }
{
    let mut i = 0;
    while i + 4 <= s.len() {
        if s[i] == x {
            return i;
        }
        if s[i + 1] == x {
            return i + 1;
        }
        if s[i + 2] == x {
            return i + 2;
        }
        if s[i + 3] == x {
            return i + 3;
        }
        i += 4;
    }
    i + bytes_before(&s[i..], x)
}

#[tactic(auto, unfolding(crate::specs::Text::is_inside))]
pub fn is_inside(b: u8) -> bool
    ensures { result ≡ is_inside b }
{
    matches!(b, 128..=191)
}

// The number of characters that start after the first byte.
fn count_starts(s: &[u8]) -> usize
    ensures { (result ≡ length (starts s.now)) × (result ≤ length s.now) }
{
    s.iter().filter(|b| !is_inside(**b)).count()
}

pub(crate) fn count_characters(s: &[u8]) -> usize
    ensures { result ≡ length (characters s.now) }
{
    match s {
        [] => 0,
        [_, rest @ ..] => count_starts(rest) + 1,
    }
}

// The first character, 0 where it has more than one byte or there is none: no letter and no digit, so that it is looked up as any other
// that is none of those sought. `characters` of specs/Text.antt has the same 0 inside a list.
pub fn first_character(s: &[u8]) -> u8
    ensures { result ≡ first_character s.now }
{
    match s {
        [] => 0,
        [_, next, ..] if is_inside(*next) => 0,
        [first, ..] => *first,
    }
}
