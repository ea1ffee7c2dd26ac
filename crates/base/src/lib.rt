// What every part uses: why something is refused and where, and document 01's limits.
#![tactic(auto)]

ghost use Rattle.std.specs.Prelude.{◌≡◌};
ghost use Rattle.base.specs.Refusals.{reason_number};

// Why something is refused. Document 01 has a number for each reason.
#[derive(Clone, Copy, Debug, PartialEq, Eq)]
pub enum Reason {
    TableTooShort = 1,
    FileTooLong = 2,
    NotCast = 3,
    OtherVersion = 4,
    NodeSize = 5,
    Misplaced = 6,
    TooManyNodes = 7,
    TooDeep = 8,
    TooManyProperties = 9,
    PropertyPastEnd = 10,
    PropertyForm = 11,
    BytesLeft = 12,
    Mistyped = 13,
    Missing = 14,
    BadValue = 15,
    LinkToNone = 16,
    LinkToMany = 17,
    NotAPlan = 20,
    WrongParent = 21,
    PlanBodyOutside = 22,
    PlanBodyInexact = 23,
    ChildCount = 24,
    NewFileTooLong = 25,
    OutputTooShort = 26,
    NoSuchNode = 30,
    KnownKind = 31,
    TrimOutputTooShort = 32,
    NoSuchRow = 40,
    BodyOutside = 41,
    BodyInexact = 42,
    NoSuchName = 43,
}

impl Reason {
    // Document 01's number.
    pub fn number(self) -> u32
        ensures { result ≡ reason_number self }
    {
        self as u32
    }

    // A refusal for this reason, at a place.
    pub fn at(self, place: usize) -> Refusal
        ensures { result ≡ record { reason = self; place = place } }
    {
        Refusal {
            reason: self,
            place,
        }
    }
}

// Why something is refused, and its place.
#[derive(Clone, Copy, Debug, PartialEq, Eq)]
pub struct Refusal {
    pub reason: Reason,
    pub place: usize,
}

// The largest file, in bytes.
pub const MOST_BYTES: usize = 16_777_216;

// The most nodes of a file, which are the most rows of a plan.
pub const MOST_ROWS: usize = 1024;

// The numbers of a table that has room for them.
pub const TABLE_NUMBERS: usize = 8192;

// The most properties of a known node.
pub const MOST_PROPERTIES: u32 = 64;
