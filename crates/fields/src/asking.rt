// What a field is.
ghost use Rattle.std.specs.Prelude.{◌≡◌};
ghost use Rattle.grid.specs.Faults.{fault_numbers};
ghost use Rattle.grid.specs.Frames.{frame_numbers};
ghost use Rattle.grid.specs.Vertices.{coordinates_of};
ghost use Rattle.fields.specs.Fields.{answer, fault_of, Good, Meaning, told};

use crate::values::Values;
use grid::{Cause, Fault, Frame, Vertex};

// Anything that answers its frame, its height and its outcome at a vertex. An implementation says what it means, and shows that
// the numbers of its meaning are in their ranges.
pub trait Field {
    ghost meaning: { Self → Meaning };

    ghost good: { (x : Self) → Good (meaning x) };

    fn frame(&self) -> Frame
        ensures { frame_numbers result ≡ (meaning self.now).frame };

    fn height(&self) -> u8
        ensures { result ≡ (meaning self.now).height };

    // The outcome at a vertex of the box, and the fault outside at any other.
    fn at(&self, vertex: &Vertex) -> Result<Values, Fault>
        ensures { told result ≡ answer (meaning self.now) (coordinates_of vertex.now) };
}

// What a field of this height answers outside its box.
pub fn outside(height: u8) -> Fault
    ensures { fault_numbers result ≡ fault_of 1 0 height }
{
    Fault {
        cause: Cause::Outside,
        place: 0,
        height,
    }
}
