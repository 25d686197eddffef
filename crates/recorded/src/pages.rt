// What is lent, and what a lent page holds.
ghost use Rattle.std.specs.Prelude.{◌≡◌, ◌++◌, ◌-◌, ◌≤◌, ◌↔◌, IsTrue, length, replicate};

// A lent word is not zero before, so that one which should have become 0 is seen.
pub const FULL: u32 = 2863311530;

// Whether all bytes are zero.
fn is_zero(s: &[u8]) -> bool
    ensures { IsTrue result ↔ (s.now ≡ replicate (length s.now) 0) }
{
    s.iter().all(|b| *b == 0)
}

// Whether the page starts with these bytes and has zeros behind them.
pub fn holds(page: &[u8], bytes: &[u8]) -> bool
    ensures { IsTrue result ↔ (page.now ≡ bytes.now ++ replicate (length page.now - length bytes.now) 0) }
{
    match page.strip_prefix(bytes) {
        Some(rest) => is_zero(rest),
        None => false,
    }
}

// Whether a call that is lent a page of so many bytes answers as recorded, and leaves these bytes on it with zeros behind them. The page
// has no zeros before, so that a byte which should have become 0 is seen.
pub fn is_written<T: PartialEq + Copy, F: Fn(&mut [u8]) -> T>(
    page: usize,
    write: F,
    told: T,
    bytes: &[u8],
) -> bool
    requires { (page ≤ 16384) × F.IsAlwaysCallable write }
    ensures { IsTrue result → length bytes.now ≤ page }
{
    let mut lent = [170; 16384];
    let page = &mut lent[..page];
    let answered = write(page);
    (answered == told) & holds(page, bytes)
}
