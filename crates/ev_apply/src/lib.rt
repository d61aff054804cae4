//! Events applied to the sections that a client has.
#![tactic(auto)]

mod applying;
mod event_writes;
mod fields;
mod lasting;
mod message_field;
mod message_writes;
mod people_writes;
mod row_write;
mod rows;
mod section_writes;
mod sorted_writes;
mod walk;

pub use applying::{Prepared, apply_events, prepare};
