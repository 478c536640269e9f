// The level: a frame of two axes and one row, and the cell that its road is traced from.
ghost use Rattle.std.specs.Prelude.{◌≡◌, Ok};
ghost use Rattle.grid.specs.Refusals.{answered};
ghost use Rattle.first_level.specs.Level.{level_numbers, road_level};

use cells::{Cell, CellRecord};
use grid::{Frame, Refusal};

// The values at the vertices of its table, in order.
pub const SAMPLES: [i16; 6] = [-3, -1, 1, -1, 1, 3];

#[derive(Clone, Copy)]
pub struct Level {
    pub frame: Frame,
    pub seed: Cell,
}

// Neither call refuses: the tests of these numbers compute to true.
#[tactic(auto, unfolding(grid::specs::Below::all_below, grid::specs::Below::some_below, grid::specs::Sums::sum_below, cells::specs::Cells::is_cell))]
pub fn open() -> Result<Level, Refusal>
    ensures { answered level_numbers result ≡ Ok road_level }
{
    let frame = Frame::new(2, 1, &[2, 1])?;
    let seed = Cell::new(CellRecord {
        d: 2,
        l: 1,
        base: [0, 1, 0, 0, 0, 0],
        labels: [1, 2, 2, 0, 0, 0, 0],
    })?;
    Ok(Level { frame, seed })
}
