//! The sections of a user's view of a realm.
#![tactic(auto)]

mod fault;
mod fetching;
mod sections;
mod shown;
mod sift;
mod subscribers;

pub use fault::FetchFault;
pub use fetching::{fetch, fetch_all, whole_view};
pub use shown::{shown_message, shown_stream, shown_user};
pub use sift::sifted;
