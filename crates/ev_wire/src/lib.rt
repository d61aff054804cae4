//! The bodies that clients are answered, as JSON texts.
#![tactic(auto)]

mod events;
mod members;
mod rows;
mod sections;
mod values;
mod writing;

pub use writing::{write_events, write_register, write_state};
