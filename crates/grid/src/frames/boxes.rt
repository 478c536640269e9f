// The box of a frame: axis j runs from 0 to side j, both ends in it.
ghost use Rattle.std.specs.Prelude.{◌≡◌, ℕ, ◌+◌, ◌-◌, ◌*◌, ◌^◌, ◌<◌, ◌≤◌, true, length, IfSome, slice_index, unsigned_abs};
ghost use Rattle.grid.specs.Below.{all_below};
ghost use Rattle.grid.specs.Boxes.{axis_has, in_box, on_axis, OnlyNumber, place_answer, place_number, vertex_count};
ghost use Rattle.grid.specs.Frames.{sides_of};
ghost use Rattle.grid.specs.Vertices.{coordinates_of};

use super::Frame;
use crate::vertices::Vertex;

impl Frame {
    // Whether the vertex is in the box. One with another d is not.
    pub fn contains(&self, vertex: &Vertex) -> bool
        ensures { result ≡ in_box (sides_of self.now) (coordinates_of vertex.now) }
    {
        let sides = self.sides();
        let at = vertex.coordinates();
        at.len() == sides.len() && are_on_axes(sides, at)
    }

    // The number of a vertex of the box, axis 1 fastest.
    pub fn number(&self, vertex: &Vertex) -> Option<u64>
        ensures answer { result ≡ place_answer (sides_of self.now) (coordinates_of vertex.now) }
        ensures below { IfSome result (λ n. n < vertex_count (sides_of self.now)) }
        ensures own { IfSome result (λ n. OnlyNumber (sides_of self.now) vertex.now n) }
    {
        if !self.contains(vertex) {
            return None;
        }
        Some(place_number(self.sides(), vertex.coordinates(), 0))
    }
}

fn is_on_axis(side: u16, x: i32) -> bool
    ensures { result ≡ on_axis side x }
{
    (0..=i32::from(side)).contains(&x)
}

fn are_on_axes(sides: &[u16], at: &[i32]) -> bool
    requires { length at.now ≡ length sides.now }
    ensures { result ≡ all_below (axis_has sides.now at.now) (length sides.now) }
{
    sides.iter().zip(at).all(|(side, x)| is_on_axis(*side, *x))
}

// The number of a vertex along the axes from one on, from its number along those after it.
fn stacked(side: u16, x: i32, after: u64) -> u64
    requires side_high { side ≤ 1000 }
    requires after_below { after < 1001 ^ 5 }
    ensures { result ≡ unsigned_abs x + (side + 1) * after }
{
    u64::from(x.unsigned_abs()) + (u64::from(side) + 1) * after
}

// The number of a vertex of the box, from the last axis to the first: `after` is the number along the axes after these.
fn place_number(sides: &[u16], at: &[i32], after: u64) -> u64
    requires within { in_box sides.now at.now ≡ true }
    requires short { (j : ℕ) → j < length sides.now → slice_index sides.now j ≤ 1000 }
    requires after_below { after < 1001 ^ (6 - length sides.now) }
    requires axes { length sides.now ≤ 6 }
    ensures { result ≡ place_number sides.now at.now + vertex_count sides.now * after }
{
    match (sides, at) {
        ([sides @ .., side], [at @ .., x]) => place_number(sides, at, stacked(*side, *x, after)),
        _ => after,
    }
}
