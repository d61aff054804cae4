//! The commands that change the realm's own row and its users: when they are refused, and what they
//! make.
#![tactic(auto)]

mod checks;
mod refusals;

pub use checks::{check, commit};
