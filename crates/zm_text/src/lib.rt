//! The text of a script: what each line asks, what is printed for it, and what holds of every script.
#![tactic(auto)]

mod outcome;

pub use outcome::{Outcome, SALT};
