//! The core of a realm: its tables, and the notices of its commits.
#![tactic(auto)]

mod checking;
mod noticing;
mod realm_core;

pub use realm_core::RealmCore;
