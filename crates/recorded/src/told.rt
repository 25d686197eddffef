// What was recorded of a refusal.
ghost use Rattle.std.specs.Prelude.{◌≡◌, Ok, Err, Some, None, cond, eqb};

use tables::refused::Refused;

// A refusal's number, and the number that it carries: those of the recorded file (FORMAT.md, specs/Refusals.antt). What the product refuses
// is turned into them to be compared, and never back, so that `count` of each program reads numbers.
#[derive(Clone, Copy, PartialEq, Eq)]
pub struct Told {
    pub refusal: u64,
    pub carried: u64,
}

impl Told {
    pub fn of<F: Refused>(f: F) -> Told
        ensures { (result.refusal ≡ F.number_of f) × (result.carried ≡ F.carries f) }
    {
        Told {
            refusal: f.number(),
            carried: f.carried(),
        }
    }
}

// What was recorded: the value, or a refusal where its number is not 0.
pub fn answer<T: Copy>(value: T, refusal: u64, carried: u64) -> Result<T, Told>
    ensures { result ≡ cond (eqb refusal 0) (Ok value) (Err (record { refusal = refusal; carried = carried })) }
{
    if refusal == 0 {
        return Ok(value);
    }
    Err(Told { refusal, carried })
}

// The same where some function may answer so. None where a number is carried beside a value, or a value stands beside a refusal: `blank`
// says that none does.
pub fn whole_answer<T: Copy>(
    value: T,
    blank: bool,
    refusal: u64,
    carried: u64,
) -> Option<Result<T, Told>>
    ensures { result ≡ cond (eqb refusal 0) (cond (eqb carried 0) (Some (Ok value)) None) (cond blank (Some (Err (record { refusal = refusal; carried = carried }))) None) }
{
    match (refusal == 0, carried == 0, blank) {
        (true, true, _) | (false, _, true) => Some(answer(value, refusal, carried)),
        _ => None,
    }
}
