//! A registration: what it needs next, and the sections that it was given, made into the state that
//! its finish answers.
#![tactic(auto)]

mod asked;
mod finished;
mod flow;
pub mod laws;
mod placed;

pub use asked::{first_missing, needed};
pub use finished::finished_state;
pub use flow::{Flow, Need, put_part};
pub use placed::{empty_state, with_section};
