//! The definitions of what a user sees of a realm, and the laws on them.
#![tactic(auto)]

pub mod laws;
