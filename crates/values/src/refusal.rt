ghost use Rattle.std.specs.Prelude.{◌≡◌, Some, false};
ghost use Rattle.std.specs.Fmt.{digits};
ghost use Rattle.values.specs.Refusals.{numbered, cause_of, cause_number};
ghost use Rattle.values.specs.declared.refusal.Refusal.TheVariants.{BadTelegram};

use std::fmt;

/// Why a word is no telegram: the first of these that applies.
#[derive(Clone, Copy, PartialEq, Eq)]
pub enum Cause {
    TooWide = 1,
    StartBit = 2,
    EndBit = 3,
    Parity = 4,
    NoRequest = 5,
}

impl Cause {
    /// 1 to 5, in the order in which the causes are looked for.
    pub fn number(self) -> u8
        ensures { result ≡ cause_number self }
    {
        self as u8
    }
}

/// Every reason for which a call of this product refuses.
#[derive(Clone, Copy, PartialEq, Eq)]
pub enum Refusal {
    BadAddress,
    BadValue,
    WrongPhase,
    NotActive,
    QueueFull,
    AddressZeroDetected,
    NoAnswer,
    BadImage,
    BadTelegram(Cause),
}

impl Refusal {
    /// The number that the controller is given.
    pub fn number(self) -> u16
        ensures { result ≡ numbered self }
    {
        match self {
            Refusal::BadAddress => 0x8381,
            Refusal::BadValue => 0x8310,
            Refusal::WrongPhase => 0x8384,
            Refusal::NotActive => 0x8382,
            Refusal::QueueFull => 0x8311,
            Refusal::AddressZeroDetected => 0x8385,
            Refusal::NoAnswer => 0x8312,
            Refusal::BadImage => 0x8313,
            Refusal::BadTelegram(_) => 0x8314,
        }
    }

    /// The cause, where a telegram was refused.
    pub fn cause(self) -> Option<Cause>
        ensures { result ≡ cause_of self }
    {
        match self {
            Refusal::BadTelegram(cause) => Some(cause),
            _ => None,
        }
    }
}

impl From<Cause> for Refusal {
    ghost from_gives = { λ cause r. r ≡ BadTelegram cause };

    fn from(cause: Cause) -> Refusal {
        Refusal::BadTelegram(cause)
    }
}

/// The number, as it is printed everywhere: in hexadecimal, where each has four digits.
impl fmt::Display for Refusal {
    ghost output = { λ refusal. Some (digits 16 false (numbered refusal)) };

    fn fmt<W: fmt::Write>(&self, f: &mut fmt::Formatter<W>) -> fmt::Result {
        write!(f, "{:x}", self.number())
    }
}
