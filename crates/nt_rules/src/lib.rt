//! What the notices of all commands are made by: parts with their audiences, and laws on the events
//! that tell what changed between two views.
#![tactic(auto)]

pub mod laws;
