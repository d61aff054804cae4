//! Who sends a request: the credentials of its `Authorization` header.
#![tactic(auto)]

mod answer;
mod basic;

pub use answer::{AuthFault, Credentials};
pub use basic::credentials;
