// Decimal numbers in a text. By `parse` of a &str a number is one line, `str::from_utf8(s).ok()?.parse::<u32>().ok().filter(..)`, but it
// would have to be shown beside it that bytes that are no UTF-8, and numbers above 32 bits, are none of `number_of`, for a loop of eight
// lines. A signed number would be read as an i64 and cut to the half, and its digits shown to be those of `signed_of`.
ghost use Rattle.std.specs.Prelude.{◌≡◌, ◌<◌, ◌≤◌};
ghost use Rattle.tables.specs.Numbers.{some_digits, number_of, signed_of};
ghost use Rattle.tables.specs.NumberSteps.{IsWithin};

// One or more digits.
fn some_digits(s: &[u8], limit: u32) -> Option<u32>
    ensures { (result ≡ some_digits limit s.now) × IsWithin result limit }
{
    if s.is_empty() {
        return None;
    }
    let mut v: u64 = 0;
    for b in s {
        if !b.is_ascii_digit() {
            return None;
        }
        v = v * 10 + u64::from(*b - b'0');
        if v > u64::from(limit) {
            return None;
        }
    }
    Some(v as u32)
}

// A number from 0 to `limit`.
pub fn parse_number(s: &[u8], limit: u32) -> Option<u32>
    ensures { (result ≡ number_of limit s.now) × IsWithin result limit }
{
    match s {
        [b'+', rest @ ..] => some_digits(rest, limit),
        _ => some_digits(s, limit),
    }
}

// A signed number from -half to half - 1, given as the number plus half.
pub fn parse_signed(s: &[u8], half: u32) -> Option<u32>
    requires { (0 < half) × (half ≤ 2147483648) }
    ensures { result ≡ signed_of half s.now }
{
    match s {
        [b'-', rest @ ..] => Some(half - some_digits(rest, half)?),
        _ => Some(half + parse_number(s, half - 1)?),
    }
}
