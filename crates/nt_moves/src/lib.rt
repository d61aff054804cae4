//! The parts of a notice that tell of messages that move.
#![tactic(auto)]

mod moves;
mod told;

pub use moves::{Move, push_moves};
