//! What requests are answered: successes and problems, as JSON bodies, and whole responses.
#![tactic(auto)]

mod answer;
mod bodies;
mod problem;
mod responses;

pub use answer::Answer;
pub use problem::Problem;
pub use responses::respond;
