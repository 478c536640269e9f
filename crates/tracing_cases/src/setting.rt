// Cells, lists and answers for the cases.
use cells::{Cell, CellRecord};
use fields::Table;
use grid::{Frame, Refusal};
use tracing::{Ending, Report, Stepping};

// No cell, as what stands in an unused place. A program has its own, since neither crate can be imported.
pub const EMPTY: CellRecord = CellRecord {
    d: 0,
    l: 0,
    base: [0; 6],
    labels: [0; 7],
};

// The samples of the worked road, in a box of sides 2 and 1. Its seed has the vertices number 3 and 4, and the first cell that is
// tested for the list has number 0 and 4.
pub static WORKED: [i16; 6] = [-3, -1, 1, -1, 1, 3];

// A table over the box of the worked road.
pub fn table_of(samples: &[i16]) -> Result<Table<'_>, Refusal> {
    Ok(Table::new(Frame::new(2, 1, &[2, 1])?, samples))
}

pub fn worked_table() -> Result<Table<'static>, Refusal> {
    table_of(&WORKED)
}

pub fn edge_record(x: i32, y: i32, labels: [u8; 3]) -> CellRecord {
    let [first, second, third] = labels;
    CellRecord {
        d: 2,
        l: 1,
        base: [x, y, 0, 0, 0, 0],
        labels: [first, second, third, 0, 0, 0, 0],
    }
}

// The five cells of the worked road, in the order in which they are listed.
pub fn worked_road() -> [CellRecord; 5] {
    [
        edge_record(0, 1, [1, 2, 2]),
        edge_record(0, 0, [1, 1, 2]),
        edge_record(1, 0, [2, 1, 2]),
        edge_record(1, 0, [1, 1, 2]),
        edge_record(1, 0, [1, 2, 2]),
    ]
}

pub fn worked_seed() -> Result<Cell, Refusal> {
    Cell::new(worked_road()[0])
}

pub fn answer(taken: u32, ending: Result<Ending, Refusal>) -> Stepping {
    Stepping { taken, ending }
}

pub fn numbers(count: usize, next: usize, pair: u32, steps: u32) -> Report {
    Report {
        count,
        next,
        pair,
        steps,
    }
}
