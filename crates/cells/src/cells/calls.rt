// Making a cell and asking for its vertices.
ghost use Rattle.std.specs.Prelude.{◌≡◌, ◌≤◌, true, pos, if◌then◌else◌, nat_lt, MatchResult};
ghost use Rattle.std.specs.Option.{option_map};
ghost use Rattle.grid.specs.Below.{table};
ghost use Rattle.grid.specs.Refusals.{answered};
ghost use Rattle.grid.specs.Vertices.{coordinates_of};
ghost use Rattle.cells.specs.Cells.{cell_answer, is_cell, IsCell};
ghost use Rattle.cells.specs.Closed.{closed_coordinate};
ghost use Rattle.cells.specs.Laws.{CellLaws};
ghost use Rattle.cells.specs.Records.{RecordEqExact};
ghost use Rattle.cells.specs.Vertices.{padded_coordinate, vertex_answer};

use super::Cell;
use crate::checks::coordinate;
use crate::records::CellRecord;
use grid::{Refusal, Vertex};

impl Cell {
    // The cell of exactly this record. Not a TryFrom, since `Cell::try_from(plain)` is no plainer for callers.
    #[tactic(auto, using(crate::proofs::Recorded::record_eq_exact))]
    pub fn new(plain: CellRecord) -> Result<Cell, Refusal>
        ensures answer { answered (λ c. c.plain) result ≡ cell_answer plain }
        ensures laws { MatchResult result (λ _. CellLaws plain) (λ _. IsCell plain → ⊥) }
        ensures equality { RecordEqExact }
    {
        if !plain.is_cell() {
            return Err(Refusal::NotACell);
        }
        Ok(made(plain))
    }

    // How many axes the grid has.
    pub fn d(&self) -> u8
        ensures value { result ≡ self.now.plain.d }
        ensures low { 2 ≤ result }
        ensures high { result ≤ 6 }
    {
        self.plain.d
    }

    pub fn dimension(&self) -> u8
        ensures value { result ≡ self.now.plain.l }
        ensures axes { result ≤ self.now.plain.d }
        ensures high { result ≤ 6 }
    {
        self.plain.l
    }

    // Vertex i, for i from 0 to the cell's dimension.
    pub fn vertex(&self, i: u32) -> Option<Vertex>
        ensures { option_map coordinates_of result ≡ vertex_answer self.now.plain i }
    {
        if i > u32::from(self.dimension()) {
            return None;
        }
        Vertex::new(&self.coordinates(i as u8)[..usize::from(self.plain.d)])
    }

    // The coordinates of vertex i, with 0 past the axes.
    pub(crate) fn coordinates(&self, i: u8) -> [i32; 6]
        requires { i ≤ self.now.plain.l }
        ensures { result ≡ table 6 (padded_coordinate self.now.plain i) }
    {
        std::array::from_fn(|a| self.coordinate_or_0(i, a))
    }

    #[tactic(auto, using(crate::proofs::Ascending::read_in_world))]
    fn coordinate_or_0(&self, i: u8, a: usize) -> i32
        ensures { result ≡ (if nat_lt a self.now.plain.d then closed_coordinate self.now.plain i a else pos 0) }
    {
        if a < usize::from(self.plain.d) {
            coordinate(self.plain.base[a], self.plain.labels[a], i)
        } else {
            0
        }
    }
}

// A record that is known to be a cell, as one.
pub(crate) fn made(plain: CellRecord) -> Cell
    requires { is_cell plain ≡ true }
    ensures same { result.plain ≡ plain }
    ensures laws { CellLaws plain }
{
    Cell { plain }
}
