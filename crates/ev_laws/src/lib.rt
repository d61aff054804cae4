//! The events that tell what differs between two views, and the laws on them.
#![tactic(auto)]

mod changing;
mod laws;

pub use changing::{changes, push_all_new, push_one_of, with_reactions};
pub use laws::{changes_lead_to_the_view, changes_settle};
