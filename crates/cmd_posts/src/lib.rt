//! The commands that send, edit, move and delete messages: when they are refused, and what they
//! make.
#![tactic(auto)]

mod checks;
mod moves;
mod receivers;
mod refusals;

pub use checks::{check, commit};
