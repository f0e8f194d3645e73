// Why a call is refused, and where: document 01's numbers by name, and the names are close to those of the header for C.
ghost use Rattle.std.specs.Prelude.{◌≡◌, ◌<◌, MatchResult};
ghost use Rattle.chain.specs.Refusal.{number_of};

#[derive(Clone, Copy, PartialEq, Eq)]
pub enum Fault {
    Length = 1,
    Room = 2,
    Start = 3,
    Goals = 4,
    Denominator = 5,
    EdgeState = 6,
    Weight = 7,
    EdgeGivenBefore = 8,
    RowSum = 9,
    Order = 10,
    Reward = 11,
    NoFit = 12,
    FileLength = 20,
    BlockCheck = 21,
    BlockNumber = 22,
    BlockKind = 23,
    BlockContent = 24,
    Copies = 30,
    PlanWeight = 31,
    Steps = 32,
    TableDenominator = 33,
    TableNumerator = 34,
    Limit = 35,
    Line = 40,
    TextLength = 41,
}

impl Fault {
    // Document 01's number.
    pub fn number(self) -> u32
        ensures { (result ≡ number_of self) × (0 < result) }
    {
        self as u32
    }
}

#[derive(Clone, Copy, PartialEq, Eq)]
pub struct Refusal {
    pub fault: Fault,
    pub place: usize,
}

impl Refusal {
    pub fn at(fault: Fault, place: usize) -> Self
        ensures { (result.fault ≡ fault) × (result.place ≡ place) }
    {
        Refusal { fault, place }
    }
}

impl From<Fault> for Refusal {
    ghost from_gives = { λ fault r. (r.fault ≡ fault) × (r.place ≡ 0) };

    // A fault of the whole has place 0.
    fn from(fault: Fault) -> Refusal {
        Refusal { fault, place: 0 }
    }
}

// A refusal where something is wrong at a place.
pub fn refuse(fault: Fault, place: Option<usize>) -> Result<(), Refusal>
    ensures { MatchResult result (λ _. place ≡ None) (λ r. (r.fault ≡ fault) × (place ≡ Some r.place)) }
{
    match place {
        Some(place) => Err(Refusal { fault, place }),
        None => Ok(()),
    }
}
