// Why a call refuses, and where: the numbers of RULES.md, "Numbers returned", each by what it says.
#![tactic(auto)]

ghost use Rattle.std.specs.Prelude.{◌≡◌};
ghost use Rattle.refusal.specs.Said.{number};

// 1 to 13, and under a limit 22, mean damage.
#[derive(Clone, Copy, PartialEq, Eq)]
pub enum Refusal {
    TooShort = 1,
    LengthDiffers = 2,
    NoTerminator = 3,
    StepOutside = 4,
    NoZero = 5,
    NotUtf8 = 6,
    UnknownTag = 7,
    BadLength = 8,
    PastTheSlice = 9,
    NotEnded = 10,
    BadBoolean = 11,
    BadShape = 12,
    TooDeep = 13,
    NoRoom = 14,
    BadText = 15,
    Absent = 16,
    OtherType = 17,
    OutOfTurn = 18,
    BadArrayKey = 19,
    InputTooLong = 20,
    PathTooLong = 21,
    TooLong = 22,
}

// A refusal, and its place in the slice.
#[derive(Clone, Copy, PartialEq, Eq)]
pub struct Refused {
    pub why: Refusal,
    pub place: usize,
}

impl Refusal {
    // The number, as C and the check program are told it.
    pub fn number(self) -> u8
        ensures { result ≡ number self }
    {
        self as u8
    }

    // The refusal at a place.
    pub fn at(self, place: usize) -> Refused
        ensures { result ≡ record { why = self; place = place } }
    {
        Refused { why: self, place }
    }
}
