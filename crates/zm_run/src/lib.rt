//! Runs a script, from the bytes that a source gives to the bytes that a sink takes.
#![tactic(auto)]

mod input;
mod replay;
mod runner;
mod status;

pub use replay::{are_the_word, run};
pub use status::Status;
