//! The notices of changes of messages, made from the change and the tables before it.
#![tactic(auto)]

mod posts;
mod rows;
mod sent;

pub use posts::notice;
