//! Registrations: a queue is opened, the sections of its user's view are fetched, the shard is brought
//! up to date, and the queue is finished. A registration that is given up deletes its queue.
#![tactic(auto)]

mod fetching;
mod filling;
mod opening;
mod registration;

pub use opening::{Opened, Registration};
pub use registration::{Registered, register};
