//! Lists of values whose keys rise.

ghost use Rattle.std.specs.Prelude.{◌≡◌, Bool, List, Option, [], map};
ghost use Rattle.serde_json.specs.Data.{Data};
ghost use Rattle.serde_json.specs.View.{view};
ghost use Rattle.ev_base.specs.Orders.{message_cmp, stream_cmp, user_cmp};
ghost use Rattle.ev_read.specs.Lists.{ReadsRows, below, follows, rows_onto};
ghost use Rattle.ev_read.specs.Lists as spec;
ghost use Rattle.ev_read.specs.Reading.{Reads};
ghost use Rattle.ev_read.specs.Values.{message_from, stream_from, user_from};

use crate::fault::{RowsFault, Unread};
use crate::values::id_from;
use ev_base::{Listed, MessageId, StreamId, UserId};
use ev_json::field_list;
use serde_json::Value;
use std::alloc::Global;

/// What is read from a JSON value, in a list whose keys rise.
pub trait FromJson: Drop {
    ghost reads: { Data → Option Self };

    ghost is_below: { Self → Self → Bool };

    /// What the value is.
    fn from_json(alloc: Global, value: &Value) -> Result<Self, Unread>
        ensures { Reads (λ row. row) result (reads (view value.now)) };

    /// Whether its key is below the other's.
    fn is_below(&self, other: &Self) -> bool
        ensures { result ≡ is_below self.now other.now };
}

// Whether the row may stand behind those.
fn follows<T: FromJson>(rows: &[T], row: &T) -> bool
    ensures { result ≡ follows T.is_below rows.now row.now }
{
    match rows.last() {
        Some(last) => last.is_below(row),
        None => true,
    }
}

/// The rows that the values of a list are.
pub fn rows_of<T: FromJson>(alloc: Global, list: &[Value]) -> Result<Vec<T>, RowsFault>
    ensures { ReadsRows (λ rows. rows.items) result
        (rows_onto T.reads T.is_below [] (map view list.now)) }
{
    let mut rows = Vec::new(alloc);
    for value in list {
        let row = match T::from_json(alloc, value) {
            Ok(row) => row,
            Err(Unread::NoMemory) => return Err(RowsFault::NoMemory),
            Err(Unread::Misfit) => return Err(RowsFault::Row(rows.len() as u64)),
        };
        if !follows(&rows, &row) {
            return Err(RowsFault::Row(rows.len() as u64));
        }
        rows.push(row)?;
    }
    Ok(rows)
}

/// The member that is a list.
#[tactic(auto, unfolding(crate::specs::Lists::list_field))]
pub fn list_field<T: FromJson>(
    alloc: Global,
    value: &Value,
    name: &str,
) -> Result<Listed<T>, Unread>
    ensures { Reads (λ list. list) result
        (spec.list_field T.reads T.is_below name.now (view value.now)) }
{
    let list = field_list(value, name)?;
    let rows = rows_of::<T>(alloc, list)?;
    Ok(Listed::from_vec(rows))
}

impl FromJson for UserId {
    ghost reads = { user_from };

    ghost is_below = { below user_cmp };

    #[tactic(auto, unfolding(crate::specs::Values::user_from))]
    fn from_json(_alloc: Global, value: &Value) -> Result<UserId, Unread> {
        let id = id_from(value)?;
        Ok(UserId(id))
    }

    fn is_below(&self, other: &UserId) -> bool {
        self.cmp(other).is_lt()
    }
}

impl FromJson for StreamId {
    ghost reads = { stream_from };

    ghost is_below = { below stream_cmp };

    #[tactic(auto, unfolding(crate::specs::Values::stream_from))]
    fn from_json(_alloc: Global, value: &Value) -> Result<StreamId, Unread> {
        let id = id_from(value)?;
        Ok(StreamId(id))
    }

    fn is_below(&self, other: &StreamId) -> bool {
        self.cmp(other).is_lt()
    }
}

impl FromJson for MessageId {
    ghost reads = { message_from };

    ghost is_below = { below message_cmp };

    #[tactic(auto, unfolding(crate::specs::Values::message_from))]
    fn from_json(_alloc: Global, value: &Value) -> Result<MessageId, Unread> {
        let id = id_from(value)?;
        Ok(MessageId(id))
    }

    fn is_below(&self, other: &MessageId) -> bool {
        self.cmp(other).is_lt()
    }
}
