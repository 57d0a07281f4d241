// Why a call refuses, with the numbers of document 01, each once.
#![tactic(auto)]

ghost use Rattle.std.specs.Prelude.{◌≡◌, ◌++◌, Some, codes, decimal};
ghost use Rattle.refusal.specs.Refusals.{number_of};

use std::error::Error;
use std::fmt;

#[derive(Clone, Copy, Debug, PartialEq, Eq, Hash)]
pub enum Refusal {
    WrongLength,
    TooMany,
    WrongOffset,
    WrongMode,
    Outside,
    BadKeepout,
    NoSuchNode,
    NotAChild,
    NewSource,
    Full,
    NoRoom,
}

impl Refusal {
    // "A refusal gives its number."
    pub fn number(self) -> u8
        ensures { result ≡ number_of self }
    {
        match self {
            Refusal::WrongLength => 1,
            Refusal::TooMany => 2,
            Refusal::WrongOffset => 3,
            Refusal::WrongMode => 4,
            Refusal::Outside => 5,
            Refusal::BadKeepout => 6,
            Refusal::NoSuchNode => 7,
            Refusal::NotAChild => 8,
            Refusal::NewSource => 9,
            Refusal::Full => 10,
            Refusal::NoRoom => 11,
        }
    }
}

impl From<Refusal> for u8 {
    ghost from_gives = { λ r n. n ≡ number_of r };

    fn from(r: Refusal) -> u8 {
        r.number()
    }
}

// As the program writes it.
impl fmt::Display for Refusal {
    ghost output = { λ r. Some (codes "refused " ++ decimal (number_of r)) };

    fn fmt<W: fmt::Write>(&self, f: &mut fmt::Formatter<W>) -> fmt::Result {
        write!(f, "refused {}", self.number())
    }
}

impl Error for Refusal {}
