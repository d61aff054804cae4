//! What a user's call is answered: each call becomes calls of the backend, and their replies an answer.
#![tactic(auto)]

mod answering;
mod commands;
mod replies;

pub use answering::answer_call;
