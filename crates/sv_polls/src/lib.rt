//! Polls: a shard is brought up to date, and asked for the events of a queue until there are some.
#![tactic(auto)]

mod events;
mod poll;
mod polling;

pub use events::poll_events;
pub use poll::Poll;
