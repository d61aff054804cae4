//! What holds of every script: the laws over all that is played in a legal history.
#![tactic(auto)]

pub mod laws;
