// Crossing: which cells the road passes through, told by the weights of the values at their vertices.
#![tactic(auto)]

mod boxes;
mod classes;
mod deciding;
mod determinants;
mod matrices;
mod signs;
mod testing;

pub use boxes::{fits, lies_in};
pub use classes::Class;
pub use deciding::class_of;
pub use testing::class_over;
