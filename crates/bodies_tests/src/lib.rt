//! Tests of bodies that are read, and of the replica that they make.
#![tactic(auto)]

#[cfg(test)]
mod faults;
#[cfg(test)]
mod replicas;
