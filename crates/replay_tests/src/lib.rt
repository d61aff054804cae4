//! Tests of a replay: its ports, and the whole run.
#![tactic(auto)]

#[cfg(test)]
mod checks;
#[cfg(test)]
mod message_stories;
#[cfg(test)]
mod ports;
#[cfg(test)]
mod queue_stories;
#[cfg(test)]
mod registration_stories;
#[cfg(test)]
mod run;
#[cfg(test)]
mod stories;
