// What a refusal of any layer tells.
ghost use Rattle.std.specs.Prelude.{◌≡◌, ℕ};
ghost use Rattle.tables.specs.Refusals.{edition_number, edition_told};

// One of two editions.
#[derive(Clone, Copy, PartialEq, Eq, Debug)]
pub enum Edition {
    Old,
    New,
}

impl Edition {
    // 1 old, 2 new, C's numbers, of which 0 is neither: an arm each, as `edition_number` of the specs has them.
    pub fn number(self) -> u64
        ensures { result ≡ edition_number self }
    {
        match self {
            Edition::Old => 1,
            Edition::New => 2,
        }
    }
}

pub trait Refused: Copy {
    ghost number_of: { Self → ℕ };

    ghost edition_of: { Self → ℕ };

    ghost carries: { Self → ℕ };

    fn number(self) -> u64
        ensures { result ≡ number_of self };

    // The edition that it is about; none where it is about neither.
    fn edition(self) -> Option<Edition>
        ensures { edition_told result ≡ edition_of self };

    // A length, a count or an index, as the number says.
    fn carried(self) -> u64
        ensures { result ≡ carries self };
}
