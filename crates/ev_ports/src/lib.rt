//! Where input comes from and where output goes, as traits: a source, a sink, and a link for both.
//!
//! Each counts its faults, and a call answers `Failed` only where the count rose in it. Contracts
//! know the bytes of what is in memory, and none of those over std's readers and writers.
#![tactic(auto)]

mod counts;
mod link;
mod memory;
mod memory_link;
mod reading;
mod standard;
mod writing;

pub use link::Link;
pub use memory::{MemSink, MemSource};
pub use memory_link::MemLink;
pub use reading::{Source, Took};
pub use standard::{StdSink, StdSource};
pub use writing::{Put, Sink, Written, write_all};
