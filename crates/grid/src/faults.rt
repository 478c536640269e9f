// Why a field has no values at a vertex.
ghost use Rattle.std.specs.Prelude.{◌≡◌, Some};
ghost use Rattle.grid.specs.Faults.{cause_number, cause_text, fault_text};

use std::fmt;

#[derive(Clone, Copy, PartialEq, Eq, Debug)]
pub enum Cause {
    // The vertex is not in the field's box.
    Outside = 1,
    // The field has no number there.
    Blank = 2,
    // A number there leaves the range of values.
    OffScale = 3,
}

// The place is the vertex's number in the box of the field that raised the fault, and the height says how many layers
// stand below that field. Outside the box the place is 0, and no Option: all three numbers are answered and printed.
#[derive(Clone, Copy, PartialEq, Eq, Debug)]
pub struct Fault {
    pub cause: Cause,
    pub place: u64,
    pub height: u8,
}

impl Cause {
    pub fn number(self) -> u8
        ensures { result ≡ cause_number self }
    {
        self as u8
    }
}

// Written out: a derived text would not stand in the contract as `output`.
impl fmt::Display for Cause {
    ghost output = { λ x. Some (cause_text x) };

    fn fmt<W: fmt::Write>(&self, f: &mut fmt::Formatter<W>) -> fmt::Result {
        match self {
            Cause::Outside => write!(f, "outside"),
            Cause::Blank => write!(f, "blank"),
            Cause::OffScale => write!(f, "off scale"),
        }
    }
}

// Written out, like that of its cause.
impl fmt::Display for Fault {
    ghost output = { λ x. Some (fault_text x) };

    fn fmt<W: fmt::Write>(&self, f: &mut fmt::Formatter<W>) -> fmt::Result {
        let cause = self.cause;
        let place = self.place;
        let height = self.height;
        write!(f, "{cause} at place {place}, height {height}")
    }
}
