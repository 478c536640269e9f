// A layer that subtracts a level from each row.
ghost use Rattle.std.specs.Prelude.{◌≡◌, ◌-ℤ◌};
ghost use Rattle.std.specs.Option.{option_map};
ghost use Rattle.fields.specs.Levels.{height_over, less_levels, level_meaning};
ghost use Rattle.fields.specs.Ranges.{level_good};
ghost use Rattle.fields.specs.Scale.{graded};
ghost use Rattle.fields.specs.Values.{rows_of};

use crate::asking::{Field, outside};
use crate::values::Values;
use grid::{Cause, Fault, Frame, Vertex};

// As many levels as k can be, since the library has no heap.
#[derive(Drop)]
pub struct Level<F> {
    below: F,
    levels: [i16; 3],
}

impl<F: Field> Level<F> {
    // Level r is subtracted from row r; those beyond the rows are not looked at.
    pub fn new(below: F, levels: [i16; 3]) -> Level<F>
        ensures { level_meaning (F.Field.meaning result.below) result.levels ≡ level_meaning (F.Field.meaning below) levels }
    {
        Level { below, levels }
    }
}

impl<F: Field> Field for Level<F> {
    ghost meaning = { λ s. level_meaning (F.Field.meaning s.below) s.levels };

    ghost good = { λ s. level_good (F.Field.meaning s.below) s.levels (F.Field.good s.below) };

    fn frame(&self) -> Frame {
        self.below.frame()
    }

    fn height(&self) -> u8 {
        height_over(self.below.height())
    }

    fn at(&self, vertex: &Vertex) -> Result<Values, Fault> {
        let place = self
            .frame()
            .number(vertex)
            .ok_or_else(|| outside(self.height()))?;
        let below = self.below.at(vertex)?;
        minus_levels(&below, &self.levels).ok_or_else(|| Fault {
            cause: Cause::OffScale,
            place,
            height: self.height(),
        })
    }
}

// The height of a layer over a field.
pub fn height_over(height: u8) -> u8
    ensures { result ≡ height_over height }
{
    height.saturating_add(1)
}

// The values less the levels, if each stays on the scale.
fn minus_levels(values: &Values, levels: &[i16; 3]) -> Option<Values>
    ensures { option_map rows_of result ≡ graded (less_levels (rows_of values.now) levels.now) }
{
    let rows = values.rows();
    Values::from_fn(rows.len() as u8, |r| minus(rows[r], levels[r]))
}

// Two numbers of 16 bits have their difference in 64.
fn minus(x: i16, y: i16) -> i64
    ensures { result ≡ x -ℤ y }
{
    i64::from(x) - i64::from(y)
}
