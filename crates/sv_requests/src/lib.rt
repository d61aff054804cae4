//! What a request is answered: its route and its credentials, who asks, and the answer to its call.
#![tactic(auto)]

mod asked;
mod requests;

pub use requests::answer_request;
