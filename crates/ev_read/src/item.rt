//! Events with their ids.

ghost use Rattle.std.specs.Prelude.{◌≡◌, true};
ghost use Rattle.serde_json.specs.View.{view};
ghost use Rattle.ev_read.specs.Events as spec;
ghost use Rattle.ev_read.specs.Reading.{Reads};

use crate::events::{realm_event, stream_event, sub_event, user_event};
use crate::fault::Unread;
use crate::lists::FromJson;
use crate::message_events::{
    flag_event, message_gone, message_new, messages_restored, reaction_event, update_event,
};
use crate::names::kind_named;
use ev_json::{field_i64, field_text};
use ev_types::{Event, EventKind};
use serde_json::Value;
use std::alloc::Global;

/// An event with its id in a queue, as it was told. An event whose type isn't known has none.
#[derive(Debug, Drop)]
pub struct WireItem {
    pub id: i64,
    pub event: Option<Event>,
}

// An event of this kind.
#[tactic(auto, unfolding(crate::specs::Events::event_by))]
fn event_by(alloc: Global, kind: EventKind, value: &Value) -> Result<Event, Unread>
    ensures { Reads (λ event. event) result (spec.event_by kind (view value.now)) }
{
    match kind {
        EventKind::Realm => realm_event(alloc, value),
        EventKind::RealmUser => user_event(alloc, value),
        EventKind::Stream => stream_event(alloc, value),
        EventKind::Subscription => sub_event(alloc, value),
        EventKind::Message => message_new(alloc, value),
        EventKind::MessagesRestored => messages_restored(alloc, value),
        EventKind::UpdateMessage => update_event(alloc, value),
        EventKind::UpdateMessageFlags => flag_event(alloc, value),
        EventKind::DeleteMessage => message_gone(alloc, value),
        EventKind::Reaction => reaction_event(alloc, value),
        EventKind::Heartbeat => Ok(Event::Heartbeat),
    }
}

#[tactic(auto, unfolding(crate::specs::Events::event_if))]
fn event_if(alloc: Global, kind: Option<EventKind>, value: &Value) -> Result<Option<Event>, Unread>
    ensures { Reads (λ event. event) result (spec.event_if kind (view value.now)) }
{
    match kind {
        Some(kind) => {
            let event = event_by(alloc, kind, value)?;
            Ok(Some(event))
        }
        None => Ok(None),
    }
}

/// Items may have any ids, one after the other.
impl FromJson for WireItem {
    ghost reads = { spec.wire_item };

    ghost is_below = { λ _ _. true };

    #[tactic(auto, unfolding(crate::specs::Events::wire_item))]
    fn from_json(alloc: Global, value: &Value) -> Result<WireItem, Unread> {
        let id = field_i64(value, "id")?;
        let name = field_text(value, "type")?;
        let event = event_if(alloc, kind_named(name), value)?;
        Ok(WireItem { id, event })
    }

    fn is_below(&self, _other: &WireItem) -> bool {
        true
    }
}
