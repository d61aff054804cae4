//! Tests of the realm over the tables, of commands on it, and of what its users fetch.
#![tactic(auto)]

#[cfg(test)]
mod full_log;
#[cfg(test)]
mod sample_realm;
#[cfg(test)]
mod view;
