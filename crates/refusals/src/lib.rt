// Why something is refused, and where: the papers' numbers. 8 is never given, and 12, a report buffer that is too short, is told by a length of 0.
#![tactic(auto)]

ghost use Rattle.std.specs.Prelude.{◌≡◌};

#[derive(Clone, Copy, Debug, PartialEq, Eq)]
pub enum Refusal {
    BadHeader = 1,
    UnknownCommand = 2,
    CutShort = 3,
    OutOfRange = 4,
    WrongPhase = 5,
    HeldByX = 6,
    NoCopy = 7,
    AllTaken = 9,
    NotGranted = 10,
    NoEntry = 11,
    NotBegun = 13,
    Finished = 14,
    NoRoom = 15,
}

impl From<Refusal> for u8 {
    ghost use Rattle.refusals.specs.Numbers.{number_of};

    ghost from_gives = { λ r n. n ≡ number_of r };

    fn from(r: Refusal) -> u8 {
        r as u8
    }
}

// A refusal with its place: an offset in a session, a step's number in a list, or, of `NoRoom`, how many are needed.
#[derive(Clone, Copy, Debug, PartialEq, Eq)]
pub struct Refused {
    pub place: usize,
    pub why: Refusal,
}

impl Refusal {
    // The refusal at a place.
    pub fn at(self, place: usize) -> Refused
        ensures { result ≡ record { place = place; why = self } }
    {
        Refused { place, why: self }
    }
}
