// Whether two fields are alike at a vertex.
ghost use Rattle.std.specs.Prelude.{◌≡◌, ◌↔◌, IsTrue};
ghost use Rattle.grid.specs.Vertices.{coordinates_of};
ghost use Rattle.fields.specs.Alike.{AlikeLaws, AlikeOutcomes};
ghost use Rattle.fields.specs.Fields.{answer, told};
ghost use Rattle.fields.specs.Values.{rows_of};

use crate::asking::Field;
use crate::values::Values;
use grid::{Fault, Vertex};

// Both have the same values there, or both a fault. Layers of one kind over fields that are alike are alike.
pub fn alike_at<F: Field, G: Field>(one: &F, other: &G, vertex: &Vertex) -> bool
    ensures answer { IsTrue result ↔ (AlikeOutcomes (answer (F.Field.meaning one.now) (coordinates_of vertex.now)) (answer (G.Field.meaning other.now) (coordinates_of vertex.now))) }
    ensures laws { AlikeLaws }
{
    are_alike(&one.at(vertex), &other.at(vertex))
}

fn are_alike(one: &Result<Values, Fault>, other: &Result<Values, Fault>) -> bool
    ensures { IsTrue result ↔ (AlikeOutcomes (told one.now) (told other.now)) }
{
    match (one, other) {
        (Ok(x), Ok(y)) => have_same_rows(x, y),
        (Err(_), Err(_)) => true,
        _ => false,
    }
}

fn have_same_rows(x: &Values, y: &Values) -> bool
    ensures { IsTrue result ↔ (rows_of x.now ≡ rows_of y.now) }
{
    x.rows() == y.rows()
}
