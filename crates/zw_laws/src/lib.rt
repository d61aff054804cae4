//! The laws over all legal traces and histories, each the contract of a function that does nothing.
#![tactic(auto)]

pub mod laws;
