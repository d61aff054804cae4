//! The table of marks: how users reacted to messages.
#![tactic(auto)]

mod table;

pub use table::Marks;
