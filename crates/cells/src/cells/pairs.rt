// The pairs of a cell: a cofacet with one of its vertices left out.
ghost use Rattle.std.specs.Prelude.{◌≡◌, ◌+◌, ◌/◌, ◌%◌, ◌<◌, ◌≤◌};
ghost use Rattle.grid.specs.Refusals.{answered};
ghost use Rattle.cells.specs.Pairs.{pair_answer, pair_count};

use super::Cell;
use grid::Refusal;

impl Cell {
    // How many pairs the cell has.
    pub fn pairs(&self) -> u32
        ensures { result ≡ pair_count self.now.plain }
    {
        self.cofacets() * self.cofacet_vertices()
    }

    // Pair n: the number of its cofacet, and the vertex of the cofacet that is left out.
    pub fn pair(&self, n: u32) -> Result<(u32, u32), Refusal>
        ensures { answered (λ x. x) result ≡ pair_answer self.now.plain n }
    {
        if n >= self.pairs() {
            return Err(Refusal::NoSuchNumber);
        }
        Ok(taken_apart(n, self.cofacet_vertices()))
    }

    // How many vertices a cofacet of the cell has.
    fn cofacet_vertices(&self) -> u32
        ensures value { result ≡ self.now.plain.l + 2 }
        ensures low { 0 < result }
        ensures high { result ≤ 8 }
    {
        u32::from(self.dimension()) + 2
    }
}

// A pair number as cofacet number and vertex, where cofacets have this many vertices.
fn taken_apart(n: u32, vertices: u32) -> (u32, u32)
    requires { 0 < vertices }
    ensures { result ≡ (n / vertices, n % vertices) }
{
    (n / vertices, n % vertices)
}
