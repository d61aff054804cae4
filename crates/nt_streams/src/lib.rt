//! The notices of changes of streams and subscriptions.
#![tactic(auto)]

mod changed;
mod own;
mod parts;
mod sight;
mod streams;
mod turn;

pub use streams::notice;
