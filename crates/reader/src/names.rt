// The tag names that a reader knows.
ghost use Rattle.std.specs.Prelude.{◌≡◌};
ghost use Rattle.reader.specs.Names.{number_of, tag_number};

#[derive(Clone, Copy)]
pub enum TagName {
    Board,
    Dealer,
    Vulnerable,
    Deal,
    Event,
    Site,
    Date,
    Declarer,
    Contract,
    Result,
    North,
    East,
    South,
    West,
    Auction,
    Play,
    Note,
    DoubleDummyTricks,
    OptimumResultTable,
    OptimumScore,
    ParContract,
}

// Each name beside its text. A `match` over the texts would say the names once, and was tried: it is read byte by byte, and none of its
// 144 ways to no name is proved without an answer.
const NAMES: [(&[u8], TagName); 21] = [
    (b"Board", TagName::Board),
    (b"Dealer", TagName::Dealer),
    (b"Vulnerable", TagName::Vulnerable),
    (b"Deal", TagName::Deal),
    (b"Event", TagName::Event),
    (b"Site", TagName::Site),
    (b"Date", TagName::Date),
    (b"Declarer", TagName::Declarer),
    (b"Contract", TagName::Contract),
    (b"Result", TagName::Result),
    (b"North", TagName::North),
    (b"East", TagName::East),
    (b"South", TagName::South),
    (b"West", TagName::West),
    (b"Auction", TagName::Auction),
    (b"Play", TagName::Play),
    (b"Note", TagName::Note),
    (b"DoubleDummyTricks", TagName::DoubleDummyTricks),
    (b"OptimumResultTable", TagName::OptimumResultTable),
    (b"OptimumScore", TagName::OptimumScore),
    (b"ParContract", TagName::ParContract),
];

// The tag name that a text is.
pub fn tag_name(text: &[u8]) -> Option<TagName>
    ensures { number_of result ≡ tag_number text.now }
{
    let (_, name) = NAMES.iter().find(|(word, _)| *word == text)?;
    Some(*name)
}
