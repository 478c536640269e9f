// Fields: what a level is, and tables, quadrics and layers as fields.
#![tactic(auto)]

mod alike;
mod asking;
mod inside;
mod lent;
mod levels;
mod quadrics;
mod tables;
mod values;
mod windows;

pub use alike::alike_at;
pub use asking::Field;
pub use levels::Level;
pub use quadrics::{Quadric, Row};
pub use tables::Table;
pub use values::Values;
pub use windows::Window;
