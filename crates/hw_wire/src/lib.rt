//! HTTP on a link: the requests that its bytes spell, in pieces of any size, and the responses.
#![tactic(auto)]

mod bodies;
mod fields;
mod heads;
pub mod laws;
mod reader;
mod requests;
mod responses;

pub use reader::Reader;
pub use requests::{ReadEnd, Request, read_request};
pub use responses::{Response, write_response};
