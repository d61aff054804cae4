//! The commands that set and clear flags, and add and remove reactions: when they are refused, and
//! what they make.
#![tactic(auto)]

mod checks;
mod flagged;
mod reactions;
mod refusals;

pub use checks::{check, commit};
