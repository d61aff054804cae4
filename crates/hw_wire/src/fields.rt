//! What the fields of a head ask for.

ghost use Rattle.std.specs.Prelude.{◌≡◌, ◌≤◌, All, IfOk, None, length, map, option_map};
ghost use Rattle.httparse.specs.Spans.{IsHeaderWithin, header_bytes};
ghost use Rattle.hw_wire.specs.Fields.{agreed, any_closes, body_length, count, digits_onto, has_close, is_close, is_named, lengths, number_of, trimmed, value_of, with_field};

use httparse::spans::HeaderSpan;
use std::alloc::{AllocError, Global};

/// Why a whole head isn't taken.
#[derive(Clone, Copy, Debug, PartialEq, Eq)]
pub enum HeadFault {
    BadHead,
    Chunked,
    BodyTooLong,
    NoMemory,
}

impl From<AllocError> for HeadFault {
    ghost use Rattle.std.specs.Prelude.{◌≡◌};
    ghost use Rattle.hw_wire.specs.declared.fields.HeadFault.TheVariants.{NoMemory};

    ghost from_gives = { λ _ fault. fault ≡ NoMemory };

    fn from(_: AllocError) -> Self {
        HeadFault::NoMemory
    }
}

// Whether the names are equal but for the case of their letters.
fn is_named(name: &[u8], wanted: &str) -> bool
    ensures { result ≡ is_named wanted.now name.now }
{
    name.eq_ignore_ascii_case(wanted.as_bytes())
}

// How many fields have the name.
fn count(buffer: &[u8], fields: &[HeaderSpan], name: &str) -> usize
    requires { All (IsHeaderWithin (length buffer.now)) fields.now }
    ensures value { result ≡ count name.now (map (header_bytes buffer.now) fields.now) }
    ensures few { result ≤ length fields.now }
{
    let mut found = 0;
    for field in fields {
        if is_named(field.name.of(buffer), name) {
            found += 1;
        }
    }
    found
}

/// The value of the first field that has the name.
pub fn value_of(
    alloc: Global,
    buffer: &[u8],
    fields: &[HeaderSpan],
    name: &str,
) -> Result<Option<Vec<u8>>, AllocError>
    requires { All (IsHeaderWithin (length buffer.now)) fields.now }
    ensures { IfOk result (λ value. option_map (λ value. value.items) value
        ≡ value_of name.now (map (header_bytes buffer.now) fields.now)) }
{
    for field in fields {
        if is_named(field.name.of(buffer), name) {
            let value = Vec::from_slice(alloc, field.value.of(buffer))?;
            return Ok(Some(value));
        }
    }
    Ok(None)
}

/// Whether a field `Connection` has the option `close`.
pub fn any_closes(buffer: &[u8], fields: &[HeaderSpan]) -> bool
    requires { All (IsHeaderWithin (length buffer.now)) fields.now }
    ensures { result ≡ any_closes (map (header_bytes buffer.now) fields.now) }
{
    for field in fields {
        if is_named(field.name.of(buffer), "connection") && has_close(field.value.of(buffer)) {
            return true;
        }
    }
    false
}

// Whether one of the parts between commas is `close`.
fn has_close(value: &[u8]) -> bool
    ensures { result ≡ has_close value.now }
{
    value.split(|byte| *byte == b',').any(is_close)
}

fn is_close(option: &[u8]) -> bool
    ensures { result ≡ is_close option.now }
{
    is_named(trimmed(option), "close")
}

// The bytes without the white space around them.
fn trimmed(bytes: &[u8]) -> &[u8]
    ensures { result.now ≡ trimmed bytes.now }
{
    bytes.trim_ascii()
}

// The number below 2^63 that the bytes spell in decimal digits, if they spell any.
fn number_of(bytes: &[u8]) -> Option<u64>
    ensures { result ≡ number_of bytes.now }
{
    if bytes.is_empty() {
        return None;
    }
    digits_of(bytes)
}

// The same, but no digits spell 0.
fn digits_of(digits: &[u8]) -> Option<u64>
    ensures { result ≡ digits_onto 0 digits.now }
{
    let mut number: u64 = 0;
    for digit in digits {
        if !digit.is_ascii_digit() {
            return None;
        }
        let next = u128::from(number) * 10 + u128::from(*digit - b'0');
        if next >= 1 << 63 {
            return None;
        }
        number = next as u64;
    }
    Some(number)
}

// The one number that the fields of the length spell: none where there is no such field.
fn length_in(buffer: &[u8], fields: &[HeaderSpan]) -> Result<Option<u64>, HeadFault>
    requires { All (IsHeaderWithin (length buffer.now)) fields.now }
    ensures { result ≡ lengths None (map (header_bytes buffer.now) fields.now) }
{
    let mut known: Option<u64> = None;
    for field in fields {
        known = with_field(known, field.name.of(buffer), field.value.of(buffer))?;
    }
    Ok(known)
}

// The length that is known behind one more field.
fn with_field(known: Option<u64>, name: &[u8], value: &[u8]) -> Result<Option<u64>, HeadFault>
    ensures { result ≡ with_field known name.now value.now }
{
    if is_named(name, "content-length") {
        let number = agreed(known, number_of(value))?;
        return Ok(Some(number));
    }
    Ok(known)
}

// The number of a field, where it is one, and no other than the number known before.
fn agreed(known: Option<u64>, number: Option<u64>) -> Result<u64, HeadFault>
    ensures { result ≡ agreed known number }
{
    match (known, number) {
        (_, None) => Err(HeadFault::BadHead),
        (None, Some(number)) => Ok(number),
        (Some(known), Some(number)) => {
            if known == number {
                Ok(number)
            } else {
                Err(HeadFault::BadHead)
            }
        }
    }
}

/// The length of the body that a head announces, or the first thing that is wrong with it.
#[tactic(auto, unfolding(crate::specs::Fields::body_length))]
pub fn body_length(minor: u8, buffer: &[u8], fields: &[HeaderSpan]) -> Result<u64, HeadFault>
    requires { All (IsHeaderWithin (length buffer.now)) fields.now }
    ensures { result ≡ body_length minor (map (header_bytes buffer.now) fields.now) }
{
    if minor == 1 && count(buffer, fields, "host") != 1 {
        return Err(HeadFault::BadHead);
    }
    let length = length_in(buffer, fields)?;
    if count(buffer, fields, "authorization") > 1 {
        return Err(HeadFault::BadHead);
    }
    if count(buffer, fields, "transfer-encoding") > 0 {
        return Err(HeadFault::Chunked);
    }
    let length = length.unwrap_or(0);
    if length > 1_048_576 {
        return Err(HeadFault::BodyTooLong);
    }
    Ok(length)
}
