// Words compared with their codes. main.rt says what a code is.
ghost use Rattle.std.specs.Prelude.{◌<◌, length, OnSome};

use recorded::bytes::Bytes;

// The word that a code stands for, and how often.
#[derive(Clone, Copy)]
struct Code {
    word: usize,
    times: usize,
}

impl Code {
    // The next code.
    fn take(codes: &mut Bytes) -> Option<Code>
        ensures { OnSome result (length codes.new.rest.now < length codes.old.rest.now) }
    {
        let first = codes.byte()?;
        Some(match first {
            // 0 zeros are read as one.
            253 => Code {
                word: 0,
                times: match codes.byte()? {
                    0 => 1,
                    n => n as usize,
                },
            },
            254 => Code {
                word: codes.two_bytes()?,
                times: 1,
            },
            255 => Code {
                word: codes.four_bytes()?,
                times: 1,
            },
            _ => Code {
                word: first as usize,
                times: 1,
            },
        })
    }
}

// Whether the codes give all words and no more.
pub(crate) fn is_coded(words: &[u32], codes: &[u8]) -> bool {
    let mut words = words;
    let mut codes = Bytes { rest: codes };
    while !codes.rest.is_empty() {
        let Some(code) = Code::take(&mut codes) else {
            return false;
        };
        let Some((front, rest)) = words.split_at_checked(code.times) else {
            return false;
        };
        if !front.iter().all(|w| *w as usize == code.word) {
            return false;
        }
        words = rest;
    }
    words.is_empty()
}
