//! The readers of bodies.

ghost use Rattle.std.specs.Prelude.{◌≡◌, map};
ghost use Rattle.serde_json.specs.View.{view};
ghost use Rattle.ev_bodies.specs.Bodies as spec;
ghost use Rattle.ev_bodies.specs.Keys.{Gives};

use crate::fault::BodyFault;
use crate::keys::{events_keys, register_keys};
use crate::sections::state_in;
use ev_base::QueueId;
use ev_json::field_text;
use ev_read::{RowsFault, WireItem, rows_of};
use ev_types::State;
use serde_json::{Category, Value};
use std::alloc::Global;

/// What a register body tells.
#[derive(Debug, Drop)]
pub struct RegisterBody {
    pub queue: QueueId,
    /// The last id that is in the state already, -1 where none was applied.
    pub last_event_id: i64,
    pub state: State,
}

/// What the body of an answer to a poll tells.
#[derive(Debug, Drop)]
pub enum EventsBody {
    Items(Vec<WireItem>),
    /// The queue isn't there any more.
    QueueGone,
}

// The object that a text is.
#[tactic(auto, unfolding(crate::specs::Bodies::object_in))]
fn object_in(alloc: Global, text: &[u8]) -> Result<Value, BodyFault>
    ensures { Gives view result (spec.object_in text.now) }
{
    match Value::from_slice(alloc, text) {
        Ok(value) if value.is_object() => Ok(value),
        Ok(_) => Err(BodyFault::Json),
        Err(error) => match error.classify() {
            Category::Memory => Err(BodyFault::NoMemory),
            _ => Err(BodyFault::Json),
        },
    }
}

#[tactic(auto, unfolding(crate::specs::Bodies::register_of))]
fn register_of(alloc: Global, value: &Value) -> Result<RegisterBody, BodyFault>
    ensures { Gives spec.register_seen result (spec.register_of (view value.now)) }
{
    let head = register_keys(value)?;
    let state = state_in(alloc, value)?;
    Ok(RegisterBody {
        queue: head.queue,
        last_event_id: head.last_event_id,
        state,
    })
}

/// Reads a register body.
#[tactic(auto, unfolding(crate::specs::Bodies::register_in))]
pub fn read_register(alloc: Global, text: &[u8]) -> Result<RegisterBody, BodyFault>
    ensures { Gives spec.register_seen result (spec.register_in text.now) }
{
    let value = object_in(alloc, text)?;
    register_of(alloc, &value)
}

fn items_of(alloc: Global, list: &[Value]) -> Result<Vec<WireItem>, BodyFault>
    ensures { Gives (λ items. items.items) result (spec.items_of (map view list.now)) }
{
    match rows_of::<WireItem>(alloc, list) {
        Ok(items) => Ok(items),
        Err(RowsFault::NoMemory) => Err(BodyFault::NoMemory),
        Err(RowsFault::Row(index)) => Err(BodyFault::Entry { index }),
    }
}

// Whether it is the error that says that the queue isn't there.
fn says_gone(value: &Value) -> bool
    ensures { result ≡ spec.says_gone (view value.now) }
{
    match field_text(value, "code") {
        Ok(code) => code == "BAD_EVENT_QUEUE_ID",
        Err(_) => false,
    }
}

#[tactic(auto, unfolding(crate::specs::Bodies::events_of))]
fn events_of(alloc: Global, value: &Value) -> Result<EventsBody, BodyFault>
    ensures { Gives spec.events_seen result (spec.events_of (view value.now)) }
{
    if says_gone(value) {
        return Ok(EventsBody::QueueGone);
    }
    let list = events_keys(value)?;
    let items = items_of(alloc, list)?;
    Ok(EventsBody::Items(items))
}

/// Reads an events body, or the error that says that the queue isn't there.
#[tactic(auto, unfolding(crate::specs::Bodies::events_in))]
pub fn read_events(alloc: Global, text: &[u8]) -> Result<EventsBody, BodyFault>
    ensures { Gives spec.events_seen result (spec.events_in text.now) }
{
    let value = object_in(alloc, text)?;
    events_of(alloc, &value)
}
