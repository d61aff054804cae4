//! The members that every body has, by their kind.

ghost use Rattle.std.specs.Prelude.{◌≡◌, map, option_map};
ghost use Rattle.serde_json.specs.Find.{as_str};
ghost use Rattle.serde_json.specs.View.{view};
ghost use Rattle.ev_json.specs.Fields.{array_of, i64_of, u64_of};
ghost use Rattle.ev_bodies.specs.Keys as spec;
ghost use Rattle.ev_bodies.specs.Keys.{Gives, Unlike, key};

use crate::fault::{BodyFault, BodyKey};
use ev_base::QueueId;
use ev_json::{FieldFault, field_i64, field_list, field_object, field_text, field_u64};
use serde_json::Value;
use uuid::Uuid;

/// The member that is a signed number.
pub fn key_i64(value: &Value, name: &'static str) -> Result<i64, BodyFault>
    ensures { Gives (λ number. number) result (key i64_of name.now (view value.now)) }
{
    field_i64(value, name).map_err(|_| BodyFault::Key(BodyKey(name)))
}

/// The member that is a number.
pub fn key_u64(value: &Value, name: &'static str) -> Result<u64, BodyFault>
    ensures { Gives (λ number. number) result (key u64_of name.now (view value.now)) }
{
    field_u64(value, name).map_err(|_| BodyFault::Key(BodyKey(name)))
}

/// The member that is a text.
pub fn key_text<'a>(value: &'a Value, name: &'static str) -> Result<&'a str, BodyFault>
    ensures { Gives (λ text. text.now) result (key as_str name.now (view value.now)) }
{
    field_text(value, name).map_err(|_| BodyFault::Key(BodyKey(name)))
}

/// The member that is a list.
pub fn key_list<'a>(value: &'a Value, name: &'static str) -> Result<&'a [Value], BodyFault>
    ensures { Gives (λ list. map view list.now) result (key array_of name.now (view value.now)) }
{
    field_list(value, name).map_err(|_| BodyFault::Key(BodyKey(name)))
}

/// The member that is a list, where it is there.
pub fn list_if_there<'a>(
    value: &'a Value,
    name: &'static str,
) -> Result<Option<&'a [Value]>, BodyFault>
    ensures { Gives (λ list. option_map (λ items. map view items.now) list) result
        (spec.list_if_there name.now (view value.now)) }
{
    match field_list(value, name) {
        Ok(list) => Ok(Some(list)),
        Err(FieldFault::Absent) => Ok(None),
        Err(FieldFault::WrongKind) => Err(BodyFault::Key(BodyKey(name))),
    }
}

/// The member that is an object, where it is there.
pub fn object_if_there<'a>(
    value: &'a Value,
    name: &'static str,
) -> Result<Option<&'a Value>, BodyFault>
    ensures { Gives (λ object. option_map (λ one. view one.now) object) result
        (spec.object_if_there name.now (view value.now)) }
{
    match field_object(value, name) {
        Ok(object) => Ok(Some(object)),
        Err(FieldFault::Absent) => Ok(None),
        Err(FieldFault::WrongKind) => Err(BodyFault::Key(BodyKey(name))),
    }
}

/// The queue.
#[tactic(auto, unfolding(crate::specs::Keys::queue_in))]
pub fn key_queue(value: &Value) -> Result<QueueId, BodyFault>
    ensures { Gives (λ queue. queue) result (spec.queue_in (view value.now)) }
{
    let text = key_text(value, "queue_id")?;
    match Uuid::try_parse(text) {
        Ok(_) => Ok(QueueId::from_text(text)),
        Err(_) => Err(BodyFault::Key(BodyKey("queue_id"))),
    }
}

/// What a register body tells beside its sections.
#[derive(Clone, Copy)]
pub struct Head {
    pub queue: QueueId,
    pub last_event_id: i64,
}

// The members of a register body, in the order of their names.
#[tactic(auto, unfolding(crate::specs::Keys::head_in))]
fn head_in(value: &Value) -> Result<Head, BodyFault>
    ensures { Gives (λ head. head) result (spec.head_in (view value.now)) }
{
    let last_event_id = key_i64(value, "last_event_id")?;
    list_if_there(value, "messages")?;
    key_text(value, "msg")?;
    let queue = key_queue(value)?;
    Ok(Head {
        queue,
        last_event_id,
    })
}

#[tactic(auto, unfolding(crate::specs::Keys::has_middle))]
fn has_middle(value: &Value) -> Result<(), BodyFault>
    ensures { Gives (λ none. none) result (spec.has_middle (view value.now)) }
{
    list_if_there(value, "reactions")?;
    object_if_there(value, "realm")?;
    list_if_there(value, "realm_users")?;
    key_text(value, "result")?;
    Ok(())
}

#[tactic(auto, unfolding(crate::specs::Keys::has_tail))]
fn has_tail(value: &Value) -> Result<(), BodyFault>
    ensures { Gives (λ none. none) result (spec.has_tail (view value.now)) }
{
    list_if_there(value, "starred_messages")?;
    list_if_there(value, "streams")?;
    list_if_there(value, "subscribers")?;
    list_if_there(value, "subscriptions")?;
    list_if_there(value, "unread_msgs")?;
    key_u64(value, "zulip_feature_level")?;
    Ok(())
}

/// The members of a register body, each of its kind.
#[tactic(auto, unfolding(crate::specs::Keys::register_keys))]
pub fn register_keys(value: &Value) -> Result<Head, BodyFault>
    ensures { Gives (λ head. head) result (spec.register_keys (view value.now)) }
{
    let head = head_in(value)?;
    has_middle(value)?;
    has_tail(value)?;
    Ok(head)
}

/// The list of an events body, whose members are each of their kind.
#[tactic(auto, unfolding(crate::specs::Keys::events_keys))]
pub fn events_keys(value: &Value) -> Result<&[Value], BodyFault>
    ensures { Gives (λ list. map view list.now) result (spec.events_keys (view value.now)) }
{
    let events = key_list(value, "events")?;
    key_text(value, "msg")?;
    key_queue(value)?;
    key_text(value, "result")?;
    Ok(events)
}
