//! Who is asked, and what a pass has seen: the calls by which a server asks a realm and its shards,
//! whether it is alone or shares them with others.
#![tactic(auto)]

mod alone;
mod backend;
pub mod laws;
mod lookup;

pub use alone::Alone;
pub use backend::{Backend, Shared, Who};
pub use lookup::user_with;
