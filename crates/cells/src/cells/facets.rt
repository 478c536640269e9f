// The facets of a cell.
ghost use Rattle.std.specs.Prelude.{◌≡◌, ◌≤◌, IfOk, if◌then◌else◌, nat_eq};
ghost use Rattle.grid.specs.Below.{table};
ghost use Rattle.grid.specs.Refusals.{answered};
ghost use Rattle.cells.specs.Faces.{FacetLaws};
ghost use Rattle.cells.specs.Facets.{facet_answer, facet_label, facet_of, facet_part};

use super::Cell;
use super::calls::made;
use crate::records::CellRecord;
use grid::Refusal;

impl Cell {
    // Facet i, for i from 0 to the cell's dimension: the cell without vertex i. A cell of dimension 0 has none.
    pub fn facet(&self, i: u32) -> Result<Cell, Refusal>
        ensures answer { answered (λ c. c.plain) result ≡ facet_answer self.now.plain i }
        ensures laws { IfOk result (λ s. FacetLaws self.now.plain i s.plain) }
    {
        if self.dimension() == 0 || i > u32::from(self.dimension()) {
            return Err(Refusal::NoSuchNumber);
        }
        Ok(self.without_vertex(i as u8))
    }

    fn without_vertex(&self, i: u8) -> Cell
        requires some { 1 ≤ self.now.plain.l }
        requires vertex { i ≤ self.now.plain.l }
        ensures same { result.plain ≡ facet_of self.now.plain i }
        ensures laws { FacetLaws self.now.plain i result.plain }
    {
        made(CellRecord {
            d: self.plain.d,
            l: self.plain.l - 1,
            base: self.coordinates(first_kept(i)),
            labels: self.facet_labels(i),
        })
    }

    fn facet_labels(&self, i: u8) -> [u8; 7]
        ensures { result ≡ table 7 (facet_label self.now.plain i) }
    {
        self.plain.labels.map(|x| facet_label(self.plain.l, i, x))
    }
}

// The first vertex that is kept.
fn first_kept(i: u8) -> u8
    ensures { result ≡ (if nat_eq i 0 then 1 else 0) }
{
    u8::from(i == 0)
}

// Where the numbers of part x are in facet i of a cell of dimension l.
fn facet_label(l: u8, i: u8, x: u8) -> u8
    ensures { result ≡ facet_part l i x }
{
    if i == 0 && x == 1 {
        l
    } else if x == 0 || x <= i {
        x
    } else {
        x - 1
    }
}
