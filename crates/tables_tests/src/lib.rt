//! Tests of the four tables.
#![tactic(auto)]

#[cfg(test)]
mod marks;
#[cfg(test)]
mod people;
#[cfg(test)]
mod posts;
#[cfg(test)]
mod samples;
#[cfg(test)]
mod streams;
