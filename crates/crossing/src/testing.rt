// The test of a cell over a field.
ghost use Rattle.std.specs.Prelude.{◌≡◌, ◌≤◌, true, Some, None, IfErr, IfOk, OnErr, OnOk};
ghost use Rattle.grid.specs.Below.{table};
ghost use Rattle.grid.specs.Faults.{fault_numbers};
ghost use Rattle.grid.specs.Refusals.{answered};
ghost use Rattle.fields.specs.Fields.{fault as fault_with};
ghost use Rattle.fields.specs.Values.{rows_of};
ghost use Rattle.crossing.specs.Boxes.{fits_frame};
ghost use Rattle.crossing.specs.Crossing.{class_if_present, fault_among_vertices, matrix_over, outcome_at, raised, RowIn, test_answer};
ghost use Rattle.crossing.specs.Laws.{ClassLaws};
ghost use Rattle.crossing.specs.Weights.{Agree, entry};

use crate::boxes::fits;
use crate::classes::Class;
use crate::matrices::{VertexValues, row_of};
use cells::Cell;
use fields::{Field, Values};
use grid::{Fault, Refusal};

// The class of a cell by the field's values at its vertices: refused 8 if it does not fit, and 9 with the fault of the first vertex
// that has one.
pub fn class_over<F: Field>(field: &F, cell: &Cell) -> Result<Class, Refusal>
    ensures answer { answered (λ c. c) result ≡ test_answer (F.Field.meaning field.now) cell.now.plain }
    ensures laws { OnOk result (ClassLaws) }
{
    if !fits(&field.frame(), cell) {
        return Err(Refusal::DoesNotFit);
    }
    Ok(Fitted { field, cell }.class()?)
}

// A cell that fits a field.
#[derive(Drop)]
struct Fitted<'a, F: Field> {
    field: &'a F,
    cell: &'a Cell,
    ghost fits: { fits_frame (F.Field.meaning field.now).frame cell.now.plain ≡ true },
}

impl<'a, F: Field> Fitted<'a, F> {
    fn class(&self) -> Result<Class, Fault>
        ensures answer { raised result ≡ class_if_present (F.Field.meaning self.now.field.now) self.now.cell.now.plain }
        ensures laws { OnOk result (ClassLaws) }
    {
        Ok(self.values()?.class())
    }

    // The values at all vertices, asked in order up to the first fault.
    fn values(&self) -> Result<VertexValues, Fault>
        ensures rows { IfOk result (λ v. v.k ≡ self.now.cell.now.plain.l) }
        ensures values { IfOk result (λ v. Agree self.now.cell.now.plain.l v.at (matrix_over (F.Field.meaning self.now.field.now) self.now.cell.now.plain)) }
        ensures none { OnOk result (fault_among_vertices (F.Field.meaning self.now.field.now) self.now.cell.now.plain ≡ None) }
        ensures first { IfErr result (λ f. fault_among_vertices (F.Field.meaning self.now.field.now) self.now.cell.now.plain ≡ Some (fault_numbers f)) }
    {
        // Not by `try_from_fn`, which does not tell that the fault is the first one.
        let mut at = [[0; 3]; 4];
        for (i, row) in at.iter_mut().enumerate() {
            *row = self.row(i as u32)?;
        }
        Ok(VertexValues {
            k: self.cell.dimension(),
            at,
        })
    }

    // The values at vertex i, and zeros past the last vertex.
    fn row(&self, i: u32) -> Result<[i16; 3], Fault>
        ensures row { i ≤ self.now.cell.now.plain.l → IfOk result (RowIn self.now.cell.now.plain.l (outcome_at (F.Field.meaning self.now.field.now) self.now.cell.now.plain i)) }
        ensures fault { IfErr result (λ f. outcome_at (F.Field.meaning self.now.field.now) self.now.cell.now.plain i ≡ fault_with (fault_numbers f)) }
        ensures within { OnErr result (i ≤ self.now.cell.now.plain.l) }
    {
        let Some(vertex) = self.cell.vertex(i) else {
            return Ok([0; 3]);
        };
        Ok(all_rows(&self.field.at(&vertex)?))
    }
}

// The values of a field at one vertex, with 0 past the last row.
fn all_rows(values: &Values) -> [i16; 3]
    ensures { result ≡ table 3 (entry (rows_of values.now)) }
{
    row_of(values.rows())
}
