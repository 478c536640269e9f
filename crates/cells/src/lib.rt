// Cells of the Freudenthal-Kuhn triangulation: a base vertex and an ordered partition of the axes' numbers.
#![tactic(auto)]

mod cells;
mod checks;
mod records;
mod splits;
mod world;

pub use cells::Cell;
pub use records::CellRecord;
pub use world::{WORLD_HIGH, WORLD_LOW};
