// The level that the programs hold.
#![tactic(auto)]

mod level;

pub use level::{Level, SAMPLES, open};
