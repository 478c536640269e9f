// Tracing: from one crossed cell, all cells of its road.
#![tactic(auto)]

mod lists;
mod sameness;
mod traces;

pub use lists::{Listed, Same};
pub use traces::{Ending, Report, Sealed, Stepping, Trace, Unsealed};
