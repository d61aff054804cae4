//! The bodies that clients are answered, read from their texts.
#![tactic(auto)]

mod fault;
mod keys;
pub mod laws;
mod reading;
mod sections;

pub use ev_read::WireItem;
pub use fault::{BodyFault, BodyKey};
pub use reading::{EventsBody, RegisterBody, read_events, read_register};
