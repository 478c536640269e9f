// A field that is lent is a field, with the same meaning. It is no layer.
ghost use Rattle.std.specs.Prelude.{◌≡◌};

use crate::asking::Field;
use crate::values::Values;
use grid::{Fault, Frame, Vertex};

impl<'a, F: Field> Field for &'a F {
    ghost meaning = { λ x. F.Field.meaning x.now };

    ghost good = { λ x. F.Field.good x.now };

    fn frame(&self) -> Frame {
        (**self).frame()
    }

    fn height(&self) -> u8 {
        (**self).height()
    }

    fn at(&self, vertex: &Vertex) -> Result<Values, Fault> {
        (**self).at(vertex)
    }
}
