//! The notices of changes of people, made from the change and the tables before it.
#![tactic(auto)]

mod people;
mod rows;
mod sight;

pub use people::notice;
