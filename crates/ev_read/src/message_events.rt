//! Events of messages, of their flags and of reactions.

ghost use Rattle.std.specs.Prelude.{◌≡◌};
ghost use Rattle.serde_json.specs.View.{view};
ghost use Rattle.ev_wire.specs.Events.{tells_details};
ghost use Rattle.ev_read.specs.Events as spec;
ghost use Rattle.ev_read.specs.Reading.{Reads};

use crate::fault::Unread;
use crate::lists::{FromJson, list_field};
use crate::names::{AddOrRemove, add_or_remove, flag_named};
use crate::values::{id_field, text_field};
use ev_base::{Flag, Listed, MessageId, Place, StreamId, Text, UserId};
use ev_json::{field_object, field_text};
use ev_types::{Event, FlagChange, FullMessage};
use serde_json::Value;
use std::alloc::Global;

/// An event of a new message.
#[tactic(auto, unfolding(crate::specs::Events::message_new))]
pub fn message_new(alloc: Global, value: &Value) -> Result<Event, Unread>
    ensures { Reads (λ event. event) result (spec.message_new (view value.now)) }
{
    let message = field_object(value, "message")?;
    let full = FullMessage::from_json(alloc, message)?;
    Ok(Event::MessageNew(full))
}

/// An event of several messages.
#[tactic(auto, unfolding(crate::specs::Events::messages_restored))]
pub fn messages_restored(alloc: Global, value: &Value) -> Result<Event, Unread>
    ensures { Reads (λ event. event) result (spec.messages_restored (view value.now)) }
{
    let messages = list_field::<FullMessage>(alloc, value, "messages")?;
    Ok(Event::MessagesRestored(messages))
}

#[tactic(auto, unfolding(crate::specs::Events::messages_in))]
fn messages_in(alloc: Global, value: &Value, name: &str) -> Result<Listed<MessageId>, Unread>
    ensures { Reads (λ messages. messages) result (spec.messages_in name.now (view value.now)) }
{
    list_field::<MessageId>(alloc, value, name)
}

fn only_one(messages: &[MessageId]) -> Option<MessageId>
    ensures { result ≡ spec.only_one messages.now }
{
    match messages {
        [message] => Some(*message),
        _ => None,
    }
}

#[tactic(auto, unfolding(crate::specs::Events::message_edited))]
fn message_edited(alloc: Global, value: &Value) -> Result<Event, Unread>
    ensures { Reads (λ event. event) result (spec.message_edited (view value.now)) }
{
    let messages = messages_in(alloc, value, "message_ids")?;
    let message = only_one(messages.as_slice()).ok_or(Unread::Misfit)?;
    let content = text_field(alloc, value, "content")?;
    Ok(Event::MessageEdited { message, content })
}

#[tactic(auto, unfolding(crate::specs::Events::message_moved))]
fn message_moved(alloc: Global, value: &Value) -> Result<Event, Unread>
    ensures { Reads (λ event. event) result (spec.message_moved (view value.now)) }
{
    let messages = messages_in(alloc, value, "message_ids")?;
    let stream = id_field(value, "stream_id")?;
    let topic = text_field(alloc, value, "topic")?;
    Ok(Event::MessageMoved {
        messages,
        stream: StreamId(stream),
        topic,
    })
}

/// An event of messages that were edited, or else moved.
#[tactic(auto, unfolding(crate::specs::Events::update_event))]
pub fn update_event(alloc: Global, value: &Value) -> Result<Event, Unread>
    ensures { Reads (λ event. event) result (spec.update_event (view value.now)) }
{
    if value.get("content").is_some() {
        message_edited(alloc, value)
    } else {
        message_moved(alloc, value)
    }
}

fn is_add(operation: AddOrRemove) -> bool
    ensures { result ≡ spec.is_add operation }
{
    matches!(operation, AddOrRemove::Add)
}

fn tells_details(flag: Flag, add: bool) -> bool
    ensures { result ≡ tells_details flag add }
{
    matches!(flag, Flag::Read) && !add
}

// The places of messages that are no longer read.
#[tactic(auto, unfolding(crate::specs::Events::details_if))]
fn details_if(
    alloc: Global,
    told: bool,
    value: &Value,
) -> Result<Listed<(MessageId, Place)>, Unread>
    ensures { Reads (λ details. details) result (spec.details_if told (view value.now)) }
{
    if told {
        list_field::<(MessageId, Place)>(alloc, value, "message_details")
    } else {
        Ok(Listed::from_vec(Vec::new(alloc)))
    }
}

/// An event of a flag.
#[tactic(auto, unfolding(crate::specs::Events::flag_event))]
pub fn flag_event(alloc: Global, value: &Value) -> Result<Event, Unread>
    ensures { Reads (λ event. event) result (spec.flag_event (view value.now)) }
{
    let flag = flag_named(field_text(value, "flag")?).ok_or(Unread::Misfit)?;
    let messages = messages_in(alloc, value, "messages")?;
    let operation = add_or_remove(field_text(value, "op")?).ok_or(Unread::Misfit)?;
    let add = is_add(operation);
    let details = details_if(alloc, tells_details(flag, add), value)?;
    Ok(Event::Flags(FlagChange {
        flag,
        add,
        messages,
        details,
    }))
}

/// An event of messages that are gone.
#[tactic(auto, unfolding(crate::specs::Events::message_gone))]
pub fn message_gone(alloc: Global, value: &Value) -> Result<Event, Unread>
    ensures { Reads (λ event. event) result (spec.message_gone (view value.now)) }
{
    let messages = messages_in(alloc, value, "message_ids")?;
    Ok(Event::MessageGone(messages))
}

/// A reaction that an event tells of.
#[derive(Drop)]
pub struct Told {
    pub message: MessageId,
    pub user: UserId,
    pub emoji: Text,
}

#[tactic(auto, unfolding(crate::specs::Events::told_reaction))]
fn told_reaction(alloc: Global, value: &Value) -> Result<Told, Unread>
    ensures { Reads (λ told. told) result (spec.told_reaction (view value.now)) }
{
    let emoji = text_field(alloc, value, "emoji_name")?;
    let message = id_field(value, "message_id")?;
    let user = id_field(value, "user_id")?;
    Ok(Told {
        message: MessageId(message),
        user: UserId(user),
        emoji,
    })
}

fn reaction_by(operation: AddOrRemove, told: Told) -> Event
    ensures { result ≡ spec.reaction_by operation told }
{
    let Told {
        message,
        user,
        emoji,
    } = told;
    match operation {
        AddOrRemove::Add => Event::ReactionAdd {
            message,
            user,
            emoji,
        },
        AddOrRemove::Remove => Event::ReactionRemove {
            message,
            user,
            emoji,
        },
    }
}

/// An event of a reaction.
#[tactic(auto, unfolding(crate::specs::Events::reaction_event))]
pub fn reaction_event(alloc: Global, value: &Value) -> Result<Event, Unread>
    ensures { Reads (λ event. event) result (spec.reaction_event (view value.now)) }
{
    let operation = add_or_remove(field_text(value, "op")?).ok_or(Unread::Misfit)?;
    let told = told_reaction(alloc, value)?;
    Ok(reaction_by(operation, told))
}
