//! The tables of a realm joined: who sees what, and what an accepted change makes of them.
#![tactic(auto)]

mod counts;
mod laws;
mod marks;
mod merged;
mod people;
mod posts;
mod realm;
mod rooms;
mod stored;
mod streams;
mod tables;
mod texts;
mod visibility;

pub use counts::Counts;
pub use laws::{effects_keep_tables_sound, tables_are_sorted, tables_are_sound};
pub use realm::Realm;
