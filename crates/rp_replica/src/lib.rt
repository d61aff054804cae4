//! What a client knows from the bodies that it is answered: the register body, and then the bodies of
//! its polls.
#![tactic(auto)]

mod fault;
pub mod laws;
mod news;
mod replica;

pub use fault::ReplicaFault;
pub use replica::Replica;
