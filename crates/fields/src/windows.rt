// A layer that shows a part of a field in a box of its own.
ghost use Rattle.std.specs.Prelude.{◌≡◌, ◌<◌, pos, ◌+ℤ◌, if◌then◌else◌, Some, None, slice_index, slice_index_or};
ghost use Rattle.std.specs.Option.{option_map};
ghost use Rattle.grid.specs.Boxes.{in_box};
ghost use Rattle.grid.specs.Frames.{sides_of};
ghost use Rattle.grid.specs.Vertices.{coordinates_of, vertex_answer};
ghost use Rattle.fields.specs.Ranges.{window_good};
ghost use Rattle.fields.specs.Windows.{plus_corner, window_meaning};

use crate::asking::{Field, outside};
use crate::inside::Inside;
use crate::levels::height_over;
use crate::values::Values;
use grid::{Fault, Frame, Vertex};

// As many numbers of the corner as d can be, since the library has no heap.
#[derive(Drop)]
pub struct Window<F> {
    below: F,
    own: Frame,
    corner: [u16; 6],
}

impl<F: Field> Window<F> {
    // The sides are those of `own`, whose rows are not looked at; corner numbers beyond the axes are not either.
    pub fn new(below: F, own: Frame, corner: [u16; 6]) -> Window<F>
        ensures { window_meaning (F.Field.meaning result.below) (sides_of result.own) result.corner ≡ window_meaning (F.Field.meaning below) (sides_of own) corner }
    {
        Window { below, own, corner }
    }
}

impl<F: Field> Field for Window<F> {
    ghost meaning = { λ s. window_meaning (F.Field.meaning s.below) (sides_of s.own) s.corner };

    ghost good = { λ s. window_good (F.Field.meaning s.below) s.own s.corner (F.Field.good s.below) };

    fn frame(&self) -> Frame {
        self.below.frame().with_sides_of(&self.own)
    }

    fn height(&self) -> u8 {
        height_over(self.below.height())
    }

    fn at(&self, vertex: &Vertex) -> Result<Values, Fault> {
        let moved = moved(&self.frame(), vertex, &self.corner);
        let below = moved.ok_or_else(|| outside(self.height()))?;
        self.below.at(&below)
    }
}

// A vertex of the box plus the corner. Inlined, since a question to a window took nearly twice as many instructions without.
#[inline(always)]
fn moved(frame: &Frame, vertex: &Vertex, corner: &[u16; 6]) -> Option<Vertex>
    ensures { option_map coordinates_of result ≡ (if in_box (sides_of frame.now) (coordinates_of vertex.now) then Some (plus_corner (coordinates_of vertex.now) corner.now) else None) }
{
    if !frame.contains(vertex) {
        return None;
    }
    Inside::new(frame, vertex).plus(corner)
}

impl<'a> Inside<'a> {
    // The vertex plus the corner. All six sums are made, and as many are kept as the vertex has coordinates.
    fn plus(&self, corner: &[u16; 6]) -> Option<Vertex>
        ensures { option_map coordinates_of result ≡ vertex_answer (plus_corner self.now.at.now corner.now) }
    {
        let sums: [i32; 6] = std::array::from_fn(|j| self.sum(corner, j));
        Vertex::new(&sums[..self.at.len()])
    }

    // A coordinate, or 0 past the last, plus the corner's number.
    fn sum(&self, corner: &[u16; 6], axis: usize) -> i32
        requires { axis < 6 }
        ensures { result ≡ slice_index_or self.now.at.now axis (pos 0) +ℤ pos (slice_index corner.now axis) }
    {
        let x = self.at.get(axis).copied().unwrap_or(0);
        x + i32::from(corner[axis])
    }
}
