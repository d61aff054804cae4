//! Requests, read whole.

ghost use Rattle.std.specs.Prelude.{◌≡◌, ◌≤◌};
ghost use Rattle.ev_ports.specs.Ports.{Rose};
ghost use Rattle.hw_wire.specs.Heads.{kept_of};
ghost use Rattle.hw_wire.specs.Requests.{ReadsRequest};
ghost use Rattle.hw_wire.specs.declared.requests.ReadEnd.{ReadEnd};

use crate::bodies::{BodyEnd, read_body};
use crate::fields::HeadFault;
use crate::heads::take_head;
use crate::reader::{HeadEnd, Reader};
use ev_ports::Link;
use http::Method;
use std::alloc::Global;

/// A request: its method, its target as it was written, the value of its `Authorization`, whether
/// the connection ends behind its response, and its body.
#[derive(Debug, Drop)]
pub struct Request {
    pub method: Method,
    pub target: Vec<u8>,
    pub authorization: Option<Vec<u8>>,
    pub close: bool,
    pub body: Vec<u8>,
}

/// What a reading of a request found.
#[derive(Debug, Drop)]
pub enum ReadEnd {
    Request(Request),

    /// No byte was left.
    End,

    /// Bytes were left, but the input ended before a whole request.
    Cut,

    /// No head that is in order begins the bytes.
    BadHead,

    /// The first 16,384 bytes begin a head, but hold none.
    HeadTooLong,

    /// The head has a field `Transfer-Encoding`.
    Chunked,

    /// The length of the body is above 1,048,576.
    BodyTooLong,

    /// The link had a fault.
    ReadFault,

    NoMemory,
}

/// Reads the next request of a link. Of several things that are wrong with a head the first in the
/// order of `ReadEnd` counts.
pub fn read_request<L: Link>(alloc: Global, reader: &mut Reader, link: &mut L) -> ReadEnd
    ensures reads { ReadsRequest result (L.left link.old) (L.left link.new)
        (kept_of reader.old) (kept_of reader.new) }
    ensures held { L.held link.new ≡ L.held link.old }
    ensures count { L.faults link.old ≤ L.faults link.new }
    ensures cause { result ≡ ReadEnd.ReadFault → Rose (L.faults link.old) (L.faults link.new) }
{
    let spans = match reader.read_head(link) {
        HeadEnd::Whole(spans) => spans,
        HeadEnd::End => return ReadEnd::End,
        HeadEnd::Cut => return ReadEnd::Cut,
        HeadEnd::BadHead => return ReadEnd::BadHead,
        HeadEnd::TooLong => return ReadEnd::HeadTooLong,
        HeadEnd::Fault => return ReadEnd::ReadFault,
    };
    let head = match take_head(alloc, reader, spans) {
        Ok(head) => head,
        Err(HeadFault::BadHead) => return ReadEnd::BadHead,
        Err(HeadFault::Chunked) => return ReadEnd::Chunked,
        Err(HeadFault::BodyTooLong) => return ReadEnd::BodyTooLong,
        Err(HeadFault::NoMemory) => return ReadEnd::NoMemory,
    };
    match read_body(alloc, reader, link, head.length as usize) {
        BodyEnd::Whole(body) => ReadEnd::Request(Request {
            method: head.method,
            target: head.target,
            authorization: head.authorization,
            close: head.close,
            body,
        }),
        BodyEnd::Cut => ReadEnd::Cut,
        BodyEnd::Fault => ReadEnd::ReadFault,
        BodyEnd::NoMemory => ReadEnd::NoMemory,
    }
}
