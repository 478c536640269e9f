// A cell: a record that is one.
mod calls;
mod cofacets;
mod display;
mod facets;
mod pairs;
mod splits;

ghost use Rattle.std.specs.Prelude.{◌≡◌, ◌≤◌, true};
ghost use Rattle.cells.specs.Cells.{is_cell};

use crate::records::CellRecord;

#[derive(Clone, Copy, PartialEq, Eq, Debug)]
pub struct Cell {
    plain: CellRecord,
    ghost ok: { is_cell plain ≡ true },
    ghost d_low: { 2 ≤ plain.d },
    ghost d_high: { plain.d ≤ 6 },
    ghost l_high: { plain.l ≤ plain.d },
}

impl Cell {
    pub fn record(&self) -> CellRecord
        ensures { result ≡ self.now.plain }
    {
        self.plain
    }
}
