// The grid that every layer stands on: vertices, frames and their boxes, and the refusals and faults that calls answer with.
#![tactic(auto)]

mod faults;
mod frames;
mod padding;
mod refusals;
mod vertices;

pub use faults::{Cause, Fault};
pub use frames::Frame;
pub use refusals::Refusal;
pub use vertices::Vertex;
