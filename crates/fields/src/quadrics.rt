// A field whose rows are quadrics of the coordinates.
ghost use Rattle.std.specs.Prelude.{◌≡◌, ◌^◌, ◌≤◌, true, ◌*ℤ◌, unsigned_abs};
ghost use Rattle.std.specs.Option.{option_map};
ghost use Rattle.grid.specs.Boxes.{in_box, on_axis};
ghost use Rattle.grid.specs.Frames.{frame_numbers, sides_of};
ghost use Rattle.grid.specs.Vertices.{coordinates_of};
ghost use Rattle.fields.specs.Quadrics.{axis_part, quadric_meaning, row_at, rows_at};
ghost use Rattle.fields.specs.Ranges.{quadric_good};
ghost use Rattle.fields.specs.Scale.{graded};
ghost use Rattle.fields.specs.Values.{rows_of};

use crate::asking::{Field, outside};
use crate::inside::Inside;
use crate::values::Values;
use grid::{Cause, Fault, Frame, Vertex};

// The coefficients of one row: its constant, and for each axis those of x and of x * x. There are as many as d can be, and as many
// rows as k can be, since the library has no heap.
#[derive(Clone, Copy)]
pub struct Row {
    pub constant: i16,
    pub linear: [i16; 6],
    pub square: [i16; 6],
}

#[derive(Drop)]
pub struct Quadric {
    frame: Frame,
    rows: [Row; 3],
}

impl Quadric {
    // Rows beyond k and coefficients beyond d are not looked at.
    pub fn new(frame: Frame, rows: [Row; 3]) -> Quadric
        ensures { quadric_meaning (frame_numbers result.frame) result.rows ≡ quadric_meaning (frame_numbers frame) rows }
    {
        Quadric { frame, rows }
    }

    // The k rows at a vertex of the box, if each is on the scale.
    fn evaluated(&self, vertex: &Vertex) -> Option<Values>
        requires { in_box (sides_of self.now.frame) (coordinates_of vertex.now) ≡ true }
        ensures { option_map rows_of result ≡ graded (rows_at self.now.frame.k self.now.rows (coordinates_of vertex.now)) }
    {
        let inside = Inside::new(&self.frame, vertex);
        Values::from_fn(self.frame.k(), |r| inside.row(&self.rows[r]))
    }
}

impl Field for Quadric {
    ghost meaning = { λ q. quadric_meaning (frame_numbers q.frame) q.rows };

    ghost good = { λ q. quadric_good q.frame q.rows };

    fn frame(&self) -> Frame {
        self.frame
    }

    fn height(&self) -> u8 {
        0
    }

    fn at(&self, vertex: &Vertex) -> Result<Values, Fault> {
        let place = self
            .frame
            .number(vertex)
            .ok_or_else(|| outside(self.height()))?;
        self.evaluated(vertex).ok_or_else(|| Fault {
            cause: Cause::OffScale,
            place,
            height: self.height(),
        })
    }
}

impl<'a> Inside<'a> {
    // A row's value there.
    fn row(&self, row: &Row) -> i64
        ensures { result ≡ row_at self.now.at.now row.now }
    {
        let mut sum = i64::from(row.constant);
        for ((x, a), b) in self.at.iter().zip(&row.linear).zip(&row.square) {
            sum += axis_part(*a, *b, *x);
        }
        sum
    }
}

// What one axis adds to a row.
fn axis_part(a: i16, b: i16, x: i32) -> i64
    requires { on_axis 1000 x ≡ true }
    ensures is { result ≡ axis_part a b x }
    ensures small { unsigned_abs result ≤ 2 ^ 35 }
{
    i64::from(a) * i64::from(x) + i64::from(b) * square(x)
}

fn square(x: i32) -> i64
    requires { on_axis 1000 x ≡ true }
    ensures { result ≡ x *ℤ x }
{
    let x = i64::from(x);
    x * x
}
