//! The table of people: the realm's own row, and the users by their number.
#![tactic(auto)]

mod table;

pub use table::Users;
