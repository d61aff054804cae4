//! What has a JSON value in bodies: numbers, texts and lists.

ghost use Rattle.std.specs.Prelude.{◌≡◌, IfOk, map};
ghost use Rattle.serde_json.specs.Data.{Data, array, boolean, string};
ghost use Rattle.serde_json.specs.View.{items_of, view};
ghost use Rattle.ev_wire.specs.Values.{list_data, message_id_data, number_data, stream_id_data, user_id_data};

use ev_base::{Keyed, MessageId, StreamId, UserId};
use serde_json::Value;
use std::alloc::{AllocError, Global};

/// What has a JSON value in bodies.
pub trait ToJson {
    ghost json: { Self → Data };

    /// The JSON value of this.
    fn to_json(&self, alloc: Global) -> Result<Value, AllocError>
        ensures { IfOk result (λ value. view value ≡ json self.now) };
}

impl ToJson for UserId {
    ghost json = { user_id_data };

    fn to_json(&self, _alloc: Global) -> Result<Value, AllocError> {
        Ok(number_value(self.0 as u64))
    }
}

impl ToJson for StreamId {
    ghost json = { stream_id_data };

    fn to_json(&self, _alloc: Global) -> Result<Value, AllocError> {
        Ok(number_value(self.0 as u64))
    }
}

impl ToJson for MessageId {
    ghost json = { message_id_data };

    fn to_json(&self, _alloc: Global) -> Result<Value, AllocError> {
        Ok(number_value(self.0 as u64))
    }
}

/// The JSON list of all values, in order.
pub fn list_value<T: ToJson>(alloc: Global, all: &[T]) -> Result<Value, AllocError>
    ensures { IfOk result (λ value. view value ≡ list_data T.json all.now) }
{
    let mut values = Vec::with_capacity(alloc, all.len())?;
    for one in all {
        values.push(one.to_json(alloc)?)?;
    }
    Ok(Value::Array(values))
}

pub fn text_value(alloc: Global, text: &str) -> Result<Value, AllocError>
    ensures { IfOk result (λ value. view value ≡ string text.now) }
{
    Ok(Value::String(String::from_str(alloc, text)?))
}

pub fn number_value(number: u64) -> Value
    ensures { view result ≡ number_data number }
{
    Value::from(number)
}

pub fn truth_value(truth: bool) -> Value
    ensures { view result ≡ boolean truth }
{
    Value::Bool(truth)
}
