//! The calls of a server that bring a shard up to date: which shard serves a user, and rounds of
//! announcing, taking and pushing notices.
#![tactic(auto)]

mod catching;
mod places;
mod rounds;

pub use catching::catch_up;
pub use places::serving;
pub use rounds::push_next;
