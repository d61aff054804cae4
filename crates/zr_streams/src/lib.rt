//! The table of streams: the streams by their number, and who is subscribed to them.
#![tactic(auto)]

mod table;

pub use table::Streams;
