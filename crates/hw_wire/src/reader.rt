//! The bytes of a link, and the heads that they begin with.

ghost use Rattle.std.specs.Prelude.{◌≡◌, ◌≤◌, length};

use ev_ports::{Link, Took};
use httparse::spans::{EMPTY_HEADER_SPAN, HeaderSpan, RequestSpans, parse_request};
use httparse::{Error, Status};
use std::alloc::{AllocError, Global};

// No head has more bytes than these.
const MAX_HEAD_BYTES: usize = 16_384;

// Room for as many fields as a head of that size can have, at three bytes or more each.
const MAX_FIELDS: usize = 5_462;

/// What was read of a link and not yet used: from the beginning of a request on.
#[derive(Drop)]
pub struct Reader {
    buffer: Vec<u8>,
    kept: usize,
    spans: Vec<HeaderSpan>,
    ghost sized: { length buffer.items ≡ 16384 },
    ghost within: { kept ≤ 16384 },
    ghost room: { length spans.items ≡ 5462 },
}

/// How the reading of a head ended.
#[derive(Clone, Copy, Debug, PartialEq, Eq)]
pub enum HeadEnd {
    Whole(RequestSpans),
    /// No byte was left.
    End,
    /// The input ended inside a head.
    Cut,
    BadHead,
    TooLong,
    Fault,
}

// What the kept bytes begin with.
#[derive(Clone, Copy, Debug, PartialEq, Eq)]
enum Parsed {
    Whole(RequestSpans),
    Partial,
    Never,
}

impl Reader {
    ghost use Rattle.std.specs.Prelude.{◌<◌, [], IfOk, drop, take};
    ghost use Rattle.ev_ports.specs.Ports.{Rose};
    ghost use Rattle.hw_wire.specs.Heads.{Fills, ReadsHead, StandsAs, kept_of};
    ghost use Rattle.hw_wire.specs.declared.reader.HeadEnd.{HeadEnd};

    /// A reader that keeps nothing yet, for one connection.
    pub fn new(alloc: Global) -> Result<Reader, AllocError>
        ensures { IfOk result (λ reader. kept_of reader ≡ []) }
    {
        Ok(Reader {
            buffer: vec![in alloc; 0; MAX_HEAD_BYTES]?,
            kept: 0,
            spans: vec![in alloc; EMPTY_HEADER_SPAN; MAX_FIELDS]?,
        })
    }

    /// The kept bytes.
    pub fn pending(&self) -> &[u8]
        ensures { result.now ≡ kept_of self.now }
    {
        &self.buffer[..self.kept]
    }

    /// The first of the fields that were found in the kept bytes.
    pub fn fields(&self, count: usize) -> &[HeaderSpan]
        requires { count ≤ length self.now.spans.items }
        ensures { result.now ≡ take count self.now.spans.items }
    {
        &self.spans[..count]
    }

    /// Leaves out the first of the kept bytes.
    pub fn consume(&mut self, used: usize)
        requires { used ≤ length (kept_of self.old) }
        ensures kept { kept_of self.new ≡ drop used (kept_of self.old) }
    {
        self.buffer.copy_within(used..self.kept, 0);
        self.kept -= used;
    }

    /// Reads a piece behind the kept bytes.
    pub fn fill<L: Link>(&mut self, link: &mut L) -> Took
        requires room { self.old.kept < MAX_HEAD_BYTES }
        ensures filled { Fills result (L.left link.old) (L.left link.new) self.old self.new }
        ensures held { L.held link.new ≡ L.held link.old }
        ensures count { L.faults link.old ≤ L.faults link.new }
        ensures cause { result ≡ Took.Failed → Rose (L.faults link.old) (L.faults link.new) }
    {
        let took = link.read(&mut self.buffer[self.kept..]);
        if let Took::Bytes(count) = took {
            self.kept += count;
        }
        took
    }

    fn parse(&mut self) -> Parsed
        ensures kept { kept_of self.new ≡ kept_of self.old }
        ensures buffer { self.new.buffer ≡ self.old.buffer }
        ensures count { self.new.kept ≡ self.old.kept }
        ensures stands { StandsAs result (kept_of self.new) self.new.spans.items }
    {
        match parse_request(&self.buffer[..self.kept], &mut self.spans) {
            Ok(Status::Complete(spans)) => Parsed::Whole(spans),
            Ok(Status::Partial) => Parsed::Partial,
            // There is room for the fields of every head of this size.
            Err(Error::TooManyHeaders) => Parsed::Never,
            Err(_) => Parsed::Never,
        }
    }

    /// Reads on until the kept bytes begin with a head, or can't.
    pub fn read_head<L: Link>(&mut self, link: &mut L) -> HeadEnd
        ensures reads { ReadsHead result (L.left link.old) (L.left link.new) self.old self.new }
        ensures short { length (kept_of self.new) ≤ 16384 }
        ensures held { L.held link.new ≡ L.held link.old }
        ensures count { L.faults link.old ≤ L.faults link.new }
        ensures cause { result ≡ HeadEnd.Fault → Rose (L.faults link.old) (L.faults link.new) }
    {
        loop {
            match self.parse() {
                Parsed::Whole(spans) => return HeadEnd::Whole(spans),
                Parsed::Never => return HeadEnd::BadHead,
                Parsed::Partial => {}
            }
            if self.kept == MAX_HEAD_BYTES {
                return HeadEnd::TooLong;
            }
            match self.fill(link) {
                Took::Bytes(_) => {}
                Took::End => {
                    return if self.kept == 0 {
                        HeadEnd::End
                    } else {
                        HeadEnd::Cut
                    };
                }
                Took::Failed => return HeadEnd::Fault,
            }
        }
    }
}
