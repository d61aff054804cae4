//! A world of one realm and its shards, and the laws of its histories.
#![tactic(auto)]

mod world;

pub use world::World;
pub use zw_laws::laws;
