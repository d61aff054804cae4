//! Tests of rows sorted by key, of ids and texts, of small lists, and of notices.
#![tactic(auto)]

#[cfg(test)]
mod ids;
#[cfg(test)]
mod lists;
#[cfg(test)]
mod rows;
#[cfg(test)]
mod same;
#[cfg(test)]
mod texts;
#[cfg(test)]
mod types;
