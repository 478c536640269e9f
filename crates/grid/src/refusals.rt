// Why a call refuses.
ghost use Rattle.std.specs.Prelude.{◌≡◌, Some};
ghost use Rattle.std.specs.Option.{option_map};
ghost use Rattle.grid.specs.Faults.{fault_numbers};
ghost use Rattle.grid.specs.Refusals.{refusal_numbers, refusal_text};
ghost use Rattle.grid.specs.declared.refusals.Refusal.TheVariants.{Faulty};

use crate::faults::Fault;
use std::fmt;

#[derive(Clone, Copy, PartialEq, Eq, Debug)]
pub enum Refusal {
    NotACell,
    NotAFrame,
    NoSuchNumber,
    LeavesTheWorld,
    EmptyList,
    NotThisList,
    NoPlaceUnused,
    DoesNotFit,
    Faulty(Fault),
    Degenerate,
    ClearSeed,
    NotFinished,
}

impl Refusal {
    // By a match, since a variant that carries a fault leaves no discriminants to read.
    pub fn number(self) -> u8
        ensures { result ≡ (refusal_numbers self).number }
    {
        match self {
            Refusal::NotACell => 1,
            Refusal::NotAFrame => 2,
            Refusal::NoSuchNumber => 3,
            Refusal::LeavesTheWorld => 4,
            Refusal::EmptyList => 5,
            Refusal::NotThisList => 6,
            Refusal::NoPlaceUnused => 7,
            Refusal::DoesNotFit => 8,
            Refusal::Faulty(_) => 9,
            Refusal::Degenerate => 10,
            Refusal::ClearSeed => 11,
            Refusal::NotFinished => 12,
        }
    }

    // The fault that number 9 carries.
    pub fn fault(self) -> Option<Fault>
        ensures { option_map fault_numbers result ≡ (refusal_numbers self).fault }
    {
        match self {
            Refusal::Faulty(fault) => Some(fault),
            _ => None,
        }
    }
}

// A fault goes up as refusal 9, unchanged.
impl From<Fault> for Refusal {
    ghost from_gives = { λ fault r. r ≡ Faulty fault };

    fn from(raised: Fault) -> Refusal {
        Refusal::Faulty(raised)
    }
}

// Written out: a derived text would not stand in the contract as `output`.
impl fmt::Display for Refusal {
    ghost output = { λ x. Some (refusal_text x) };

    fn fmt<W: fmt::Write>(&self, f: &mut fmt::Formatter<W>) -> fmt::Result {
        match self {
            Refusal::NotACell => write!(f, "not a cell"),
            Refusal::NotAFrame => write!(f, "not a frame"),
            Refusal::NoSuchNumber => write!(f, "no such facet, cofacet or pair"),
            Refusal::LeavesTheWorld => write!(f, "the answer leaves the world"),
            Refusal::EmptyList => write!(f, "the list has length 0"),
            Refusal::NotThisList => write!(f, "the list is not this trace's"),
            Refusal::NoPlaceUnused => write!(f, "no place unused"),
            Refusal::DoesNotFit => write!(f, "the cell does not fit the field"),
            Refusal::Faulty(fault) => write!(f, "a fault: {fault}"),
            Refusal::Degenerate => write!(f, "degenerate"),
            Refusal::ClearSeed => write!(f, "the seed is clear"),
            Refusal::NotFinished => write!(f, "seal before the end"),
        }
    }
}
