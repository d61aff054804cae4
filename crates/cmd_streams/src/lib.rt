//! The commands that change streams and subscriptions: when they are refused, and what they make.
#![tactic(auto)]

mod checks;
mod refusals;

pub use checks::{check, commit};
