//! Heads that stand whole in a reader, and what is taken from them.

ghost use Rattle.std.specs.Prelude.{◌≡◌, ◌≤◌, IfOk, length};
ghost use Rattle.httparse.specs.Spans.{IsRequestOf, IsRequestWithin, span_bytes};
ghost use Rattle.hw_wire.specs.Heads.{kept_of};
ghost use Rattle.hw_wire.specs.Requests.{TakesHead};

use crate::fields::{HeadFault, any_closes, body_length, value_of};
use crate::reader::Reader;
use http::Method;
use httparse::spans::{RequestSpans, Span};
use std::alloc::{AllocError, Global};

/// What a head says of its request, with the length of the body.
#[derive(Debug, Drop)]
pub struct Head {
    pub method: Method,
    pub target: Vec<u8>,
    pub authorization: Option<Vec<u8>>,
    pub close: bool,
    pub length: u64,
}

/// Takes the head that the kept bytes begin with, if nothing is wrong with it.
pub fn take_head(alloc: Global, reader: &mut Reader, spans: RequestSpans) -> Result<Head, HeadFault>
    requires within { IsRequestWithin (kept_of reader.old) reader.old.spans.items spans }
    requires head { IsRequestOf (kept_of reader.old) reader.old.spans.items spans }
    requires short { length (kept_of reader.old) ≤ 16384 }
    ensures { TakesHead result (kept_of reader.old) (kept_of reader.new) }
{
    let bytes = reader.pending();
    let fields = reader.fields(spans.headers);
    let length = body_length(spans.version, bytes, fields)?;
    let close = spans.version == 0 || any_closes(bytes, fields);
    let authorization = value_of(alloc, bytes, fields, "authorization")?;
    let target = part(alloc, bytes, spans.path)?;
    let method = method_of(alloc, bytes, spans.method)?;
    reader.consume(spans.len);
    Ok(Head {
        method,
        target,
        authorization,
        close,
        length,
    })
}

fn part(alloc: Global, bytes: &[u8], span: Span) -> Result<Vec<u8>, AllocError>
    requires ordered { span.start ≤ span.end }
    requires within { span.end ≤ length bytes.now }
    ensures { IfOk result (λ part. part.items ≡ span_bytes bytes.now span) }
{
    Vec::from_slice(alloc, span.of(bytes))
}

// The method of a head that was parsed: only its memory can be missing.
fn method_of(alloc: Global, bytes: &[u8], span: Span) -> Result<Method, AllocError>
    requires ordered { span.start ≤ span.end }
    requires within { span.end ≤ length bytes.now }
    ensures { IfOk result (λ method. method ≡ span_bytes bytes.now span) }
{
    match Method::from_bytes(alloc, span.of(bytes)) {
        Ok(method) => Ok(method),
        Err(_) => Err(AllocError),
    }
}
