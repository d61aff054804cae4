//! The core of a shard: the queues of its users, and the notices that were pushed to them.
#![tactic(auto)]

mod heard;
mod held;
mod queues;
mod shard;
mod shard_core;
mod told;

pub use shard_core::ShardCore;
