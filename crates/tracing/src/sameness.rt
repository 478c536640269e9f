// Cell records and vertices can tell sameness: by `==`, which is exact for both.
ghost use Rattle.grid.specs.Vertices.{vertex_eq};
ghost use Rattle.grid.proofs.Vertexes.{vertex_eq_exact};
ghost use Rattle.cells.specs.Records.{record_eq};
ghost use Rattle.cells.proofs.Recorded.{record_eq_exact};

use crate::lists::Same;
use cells::CellRecord;
use grid::Vertex;

impl Same for CellRecord {
    ghost same_as = { record_eq };

    ghost exact = { record_eq_exact };

    fn is_same(&self, other: &CellRecord) -> bool {
        self == other
    }
}

impl Same for Vertex {
    ghost same_as = { vertex_eq };

    ghost exact = { vertex_eq_exact };

    fn is_same(&self, other: &Vertex) -> bool {
        self == other
    }
}
