//! What requests ask: from a method, a target and a body to a call, or to why there is none.
#![tactic(auto)]

mod actions;
mod alternatives;
mod call;
mod marks;
mod paths;
mod people;
mod posts;
mod queues;
mod routing;
mod streams;

pub use call::{Call, RouteFault};
pub use paths::{Path, Routes};
pub use routing::route;
