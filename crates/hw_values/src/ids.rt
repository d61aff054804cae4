//! The numbers that texts spell: ids, and the ids of events.

ghost use Rattle.std.specs.Prelude.{◌≡◌, ◌<◌, IfSome};
ghost use Rattle.hw_values.specs.Numbers as spec;
ghost use Rattle.hw_values.specs.Numbers.{id_of, integer_of, is_negative, number_of};

use crate::fault::NoValue;
use crate::value::FormValue;
use ev_base::{MessageId, StreamId, UserId};
use std::alloc::Global;
use zs_words::read_moment as read_number;

/// The greatest id of an event that a client knows, or -1.
#[derive(Clone, Copy, Debug, PartialEq, Eq)]
pub struct LastEventId(pub i64);

impl FormValue for UserId {
    ghost spelled = { spec.user_of };

    fn read(_alloc: Global, text: &str) -> Result<UserId, NoValue> {
        match id_of(text.as_bytes()) {
            Some(id) => Ok(UserId(id)),
            None => Err(NoValue::NotOne),
        }
    }
}

impl FormValue for StreamId {
    ghost spelled = { spec.stream_of };

    fn read(_alloc: Global, text: &str) -> Result<StreamId, NoValue> {
        match id_of(text.as_bytes()) {
            Some(id) => Ok(StreamId(id)),
            None => Err(NoValue::NotOne),
        }
    }
}

impl FormValue for LastEventId {
    ghost spelled = { spec.last_event_id_of };

    fn read(_alloc: Global, text: &str) -> Result<LastEventId, NoValue> {
        match integer_of(text.as_bytes()) {
            Some(id) => Ok(LastEventId(id)),
            None => Err(NoValue::NotOne),
        }
    }
}

/// The id that one to ten digits spell.
pub fn id_of(text: &[u8]) -> Option<u32>
    ensures { result ≡ id_of text.now }
{
    let number = number_of(10, 1 << 32, text)?;
    Some(number as u32)
}

// The value of digits, at most so many, where it is below the limit.
fn number_of(most: usize, limit: u64, text: &[u8]) -> Option<u64>
    ensures value { result ≡ number_of most limit text.now }
    ensures below { IfSome result (λ number. number < limit) }
{
    if text.len() > most {
        return None;
    }
    let number = read_number(text)?;
    if number < limit { Some(number) } else { None }
}

// An integer that is at least -1.
fn integer_of(text: &[u8]) -> Option<i64>
    ensures { result ≡ integer_of text.now }
{
    if is_negative(text) {
        negated(number_of(19, 1 << 63, &text[1..])?)
    } else {
        Some(number_of(19, 1 << 63, text)? as i64)
    }
}

fn is_negative(text: &[u8]) -> bool
    ensures { result ≡ is_negative text.now }
{
    !text.is_empty() && text[0] == b'-'
}

// 0, and -1 for 1.
fn negated(number: u64) -> Option<i64>
    ensures { result ≡ spec.negated number }
{
    match number {
        0 => Some(0),
        1 => Some(-1),
        _ => None,
    }
}
