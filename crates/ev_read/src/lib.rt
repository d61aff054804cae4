//! The rows of sections and the events that JSON values are.
#![tactic(auto)]

mod events;
mod fault;
mod item;
mod lists;
mod message_events;
mod messages;
mod names;
mod rows;
mod values;

pub use fault::{RowsFault, Unread};
pub use item::WireItem;
pub use lists::{FromJson, rows_of};
pub use rows::realm_row;
