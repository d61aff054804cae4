//! The table of posts: the messages by their number, and the receipts of those who got them.
#![tactic(auto)]

mod table;

pub use table::Posts;
