//! The notices of changes of flags and reactions, made from the change and the tables before it.
#![tactic(auto)]

mod flags;
mod marks;

pub use marks::notice;
