// The refusals by their numbers (01, "When we say no"; 02, L2, L5 and L6), and a refusal with its place.
ghost use Rattle.std.specs.Prelude.{◌≡◌};
ghost use Rattle.entries.specs.Refusals.{number_of};
ghost use Rattle.entries.specs.Said.{refusal, told};

// Why a call refuses.
#[derive(Clone, Copy, Debug, PartialEq, Eq)]
pub enum Reason {
    Unlisted = 1,
    CutShort = 2,
    PredicateTooHigh = 3,
    NotToBeNamed = 4,
    OutOfOrder = 5,
    TooManyRows = 6,
    TooManyQuestions = 7,
    NotThere = 8,
    StillNamed = 9,
    BadMask = 10,
    OutputTooShort = 11,
    UnknownWord = 12,
    Misspelt = 13,
    TooManyConstraints = 14,
    IdleSupplier = 15,
}

impl Reason {
    // 01's number for it.
    pub fn number(self) -> u8
        ensures { result ≡ number_of self }
    {
        self as u8
    }
}

// A refusal: its reason and its place.
#[derive(Clone, Copy, Debug, PartialEq, Eq)]
pub struct Refusal {
    pub reason: Reason,
    pub place: usize,
}

impl Refusal {
    // The refusal for a reason, at 0.
    pub fn of(reason: Reason) -> Self
        ensures { told result ≡ refusal (number_of reason) 0 }
    {
        Refusal { reason, place: 0 }
    }
}
