//! Events with their ids, and changes of flags that become one item.
#![tactic(auto)]

mod closing;
mod groups;
mod laws;

pub use closing::{closes_all, taking_place};
pub use groups::add_event;
pub use laws::grouped_events_do_the_same;
