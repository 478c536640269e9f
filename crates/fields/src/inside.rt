// A vertex that lies in a box.
ghost use Rattle.std.specs.Prelude.{◌≡◌, ℕ, ◌<◌, ◌≤◌, true, length, pos, slice_index_or};
ghost use Rattle.grid.specs.Boxes.{in_box, on_axis};
ghost use Rattle.grid.specs.Frames.{sides_of};
ghost use Rattle.grid.specs.Vertices.{coordinates_of};

use grid::{Frame, Vertex};

// Its coordinates: up to six, each from 0 to 1,000.
#[derive(Clone, Copy)]
pub struct Inside<'a> {
    pub at: &'a [i32],
    ghost axes: { length at.now ≤ 6 },
    ghost on_axes: { (j : ℕ) → j < length at.now → on_axis 1000 (slice_index_or at.now j (pos 0)) ≡ true },
}

impl<'a> Inside<'a> {
    pub fn new(frame: &Frame, vertex: &'a Vertex) -> Inside<'a>
        requires { in_box (sides_of frame.now) (coordinates_of vertex.now) ≡ true }
        ensures { result.at.now ≡ coordinates_of vertex.now }
    {
        Inside {
            at: vertex.coordinates(),
        }
    }
}
