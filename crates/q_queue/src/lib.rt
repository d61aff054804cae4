//! One queue of a shard: the items of an account that aren't pruned, and what a registration, a push
//! and a poll make of them.
#![tactic(auto)]

mod ids;
mod items;
mod queue;
mod staging;

pub use queue::{Pushed, Queue};
