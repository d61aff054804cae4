//! The JSON values of events.

ghost use Rattle.std.specs.Prelude.{◌≡◌, IfOk, codes};
ghost use Rattle.serde_json.specs.Data.{put};
ghost use Rattle.serde_json.specs.View.{view};
ghost use Rattle.ev_wire.specs.Events as of_event;
ghost use Rattle.ev_wire.specs.Events.{flag_name, tells_details, with_details};
ghost use Rattle.ev_wire.specs.Values.{put_in};

use crate::members::Members;
use crate::rows::user_value;
use crate::values::{ToJson, list_value, number_value, text_value, truth_value};
use ev_base::{Flag, MessageId, StreamId, UserId};
use ev_types::{
    Event, FlagChange, Item, RealmField, ShownUser, StreamField, SubscriptionField, UserField,
};
use serde_json::Value;
use std::alloc::{AllocError, Global};

impl ToJson for Item {
    ghost json = { of_event.item_data };

    fn to_json(&self, alloc: Global) -> Result<Value, AllocError> {
        Ok(
            event_members(alloc, &self.event)?
                .with(alloc, "id", Value::from(self.id))?
                .with_text(alloc, "type", self.event.kind().name())?
                .into_value(),
        )
    }
}

// The members of an event beside its id and its type.
fn event_members(alloc: Global, event: &Event) -> Result<Members, AllocError>
    ensures { IfOk result (λ members. put_in members ≡ of_event.event_members event.now) }
{
    match event {
        Event::RealmUpdate(field) => realm_update(alloc, field),
        Event::UserAdd { user, row } => user_add(alloc, *user, row),
        Event::UserChange { user, field } => user_change(alloc, *user, field),
        Event::StreamCreate(rows) => with_list(alloc, "create", "streams", rows.as_slice()),
        Event::StreamChange { stream, field } => stream_update(alloc, *stream, field),
        Event::StreamDelete(streams) => of_streams(alloc, "delete", streams.as_slice()),
        Event::SubAdd(rows) => with_list(alloc, "add", "subscriptions", rows.as_slice()),
        Event::SubChange { stream, field } => subscription_update(alloc, *stream, field),
        Event::SubRemove(streams) => of_streams(alloc, "remove", streams.as_slice()),
        Event::PeerAdd { stream, users } => of_peers(alloc, "peer_add", *stream, users.as_slice()),
        Event::PeerRemove { stream, users } => {
            of_peers(alloc, "peer_remove", *stream, users.as_slice())
        }
        Event::MessageNew(full) => {
            Members::new(alloc).with(alloc, "message", full.to_json(alloc)?)
        }
        Event::MessagesRestored(messages) => {
            Members::new(alloc).with(alloc, "messages", list_value(alloc, messages.as_slice())?)
        }
        Event::MessageMoved {
            messages,
            stream,
            topic,
        } => of_messages(alloc, messages.as_slice())?
            .with(alloc, "stream_id", stream.to_json(alloc)?)?
            .with_text(alloc, "topic", topic.as_str()),
        Event::MessageEdited { message, content } => {
            of_messages(alloc, &[*message])?.with_text(alloc, "content", content.as_str())
        }
        Event::Flags(change) => flag_change(alloc, change),
        Event::MessageGone(messages) => of_messages(alloc, messages.as_slice()),
        Event::ReactionAdd {
            message,
            user,
            emoji,
        } => of_reaction(alloc, "add", *message, *user, emoji.as_str()),
        Event::ReactionRemove {
            message,
            user,
            emoji,
        } => of_reaction(alloc, "remove", *message, *user, emoji.as_str()),
        Event::Heartbeat => Ok(Members::new(alloc)),
    }
}

// An update of one field, by its name and its new value.
fn update(
    alloc: Global,
    members: Members,
    property: &str,
    value: Value,
) -> Result<Members, AllocError>
    ensures { IfOk result (λ all. put_in all ≡ of_event.update property.now (view value) (put_in members)) }
{
    members
        .with_text(alloc, "property", property)?
        .with(alloc, "value", value)?
        .with_text(alloc, "op", "update")
}

fn realm_update(alloc: Global, field: &RealmField) -> Result<Members, AllocError>
    ensures { IfOk result (λ members. put_in members ≡ of_event.realm_update field.now) }
{
    let members = Members::new(alloc);
    match field {
        RealmField::Name(name) => {
            update(alloc, members, "name", text_value(alloc, name.as_str())?)
        }
        RealmField::Description(description) => {
            let value = text_value(alloc, description.as_str())?;
            update(alloc, members, "description", value)
        }
    }
}

fn user_add(alloc: Global, user: UserId, row: &ShownUser) -> Result<Members, AllocError>
    ensures { IfOk result (λ members. put_in members ≡ of_event.event_members (Event.UserAdd user row.now)) }
{
    of_person(alloc, "add", user_value(alloc, user, row)?)
}

fn user_change(alloc: Global, user: UserId, field: &UserField) -> Result<Members, AllocError>
    ensures { IfOk result
        (λ members. put_in members ≡ of_event.event_members (Event.UserChange user field.now)) }
{
    let person = Members::new(alloc).with(alloc, "user_id", user.to_json(alloc)?)?;
    of_person(
        alloc,
        "update",
        with_field(alloc, person, field)?.into_value(),
    )
}

// The field of a user that changed.
fn with_field(alloc: Global, members: Members, field: &UserField) -> Result<Members, AllocError>
    ensures { IfOk result (λ all. put_in all ≡ of_event.with_field field.now (put_in members)) }
{
    match field {
        UserField::FullName(name) => members.with_text(alloc, "full_name", name.as_str()),
        UserField::Role(role) => members.with(alloc, "role", number_value(role.number())),
        UserField::IsActive(active) => members.with(alloc, "is_active", truth_value(*active)),
    }
}

fn of_person(alloc: Global, op: &str, person: Value) -> Result<Members, AllocError>
    ensures { IfOk result (λ members. put_in members ≡ of_event.of_person op.now (view person)) }
{
    Members::new(alloc)
        .with(alloc, "person", person)?
        .with_text(alloc, "op", op)
}

fn in_stream(alloc: Global, stream: StreamId) -> Result<Members, AllocError>
    ensures { IfOk result (λ members. put_in members ≡ of_event.in_stream stream) }
{
    Members::new(alloc).with(alloc, "stream_id", stream.to_json(alloc)?)
}

fn stream_update(
    alloc: Global,
    stream: StreamId,
    field: &StreamField,
) -> Result<Members, AllocError>
    ensures { IfOk result (λ members. put_in members ≡ of_event.stream_update stream field.now) }
{
    let members = in_stream(alloc, stream)?;
    match field {
        StreamField::Name(name) => {
            update(alloc, members, "name", text_value(alloc, name.as_str())?)
        }
        StreamField::Description(description) => {
            let value = text_value(alloc, description.as_str())?;
            update(alloc, members, "description", value)
        }
        StreamField::InviteOnly(invite_only) => {
            update(alloc, members, "invite_only", truth_value(*invite_only))
        }
        StreamField::HistoryPublicToSubscribers(is_public) => {
            let property = "history_public_to_subscribers";
            update(alloc, members, property, truth_value(*is_public))
        }
    }
}

fn subscription_update(
    alloc: Global,
    stream: StreamId,
    field: &SubscriptionField,
) -> Result<Members, AllocError>
    ensures { IfOk result (λ members. put_in members ≡ of_event.subscription_update stream field.now) }
{
    let members = in_stream(alloc, stream)?;
    match field {
        SubscriptionField::Color(color) => {
            update(alloc, members, "color", text_value(alloc, color.as_str())?)
        }
        SubscriptionField::IsMuted(is_muted) => {
            update(alloc, members, "is_muted", truth_value(*is_muted))
        }
        SubscriptionField::PinToTop(pin_to_top) => {
            update(alloc, members, "pin_to_top", truth_value(*pin_to_top))
        }
    }
}

// Rows that are new, by the name of their list.
fn with_list<T: ToJson>(
    alloc: Global,
    op: &str,
    name: &str,
    rows: &[T],
) -> Result<Members, AllocError>
    ensures { IfOk result (λ members. put_in members ≡ of_event.with_list op.now name.now T.json rows.now) }
{
    Members::new(alloc)
        .with(alloc, name, list_value(alloc, rows)?)?
        .with_text(alloc, "op", op)
}

fn of_streams(alloc: Global, op: &str, streams: &[StreamId]) -> Result<Members, AllocError>
    ensures { IfOk result (λ members. put_in members ≡ of_event.of_streams op.now streams.now) }
{
    with_list(alloc, op, "stream_ids", streams)
}

fn of_peers(
    alloc: Global,
    op: &str,
    stream: StreamId,
    users: &[UserId],
) -> Result<Members, AllocError>
    ensures { IfOk result (λ members. put_in members ≡ of_event.of_peers op.now stream users.now) }
{
    in_stream(alloc, stream)?
        .with(alloc, "user_ids", list_value(alloc, users)?)?
        .with_text(alloc, "op", op)
}

fn of_messages(alloc: Global, messages: &[MessageId]) -> Result<Members, AllocError>
    ensures { IfOk result (λ members. put_in members ≡ of_event.of_messages messages.now) }
{
    Members::new(alloc).with(alloc, "message_ids", list_value(alloc, messages)?)
}

fn flag_change(alloc: Global, change: &FlagChange) -> Result<Members, AllocError>
    ensures { IfOk result
        (λ members. put_in members ≡ with_details change.now (of_event.flag_members change.now)) }
{
    let messages = list_value(alloc, change.messages.as_slice())?;
    let members = Members::new(alloc)
        .with_text(alloc, "flag", flag_name(change.flag))?
        .with(alloc, "messages", messages)?
        .with_text(alloc, "op", if change.add { "add" } else { "remove" })?;
    with_details(alloc, members, change)
}

fn with_details(alloc: Global, members: Members, change: &FlagChange) -> Result<Members, AllocError>
    ensures { IfOk result (λ all. put_in all ≡ with_details change.now (put_in members)) }
{
    if !tells_details(change.flag, change.add) {
        return Ok(members);
    }
    let details = list_value(alloc, change.details.as_slice())?;
    members.with(alloc, "message_details", details)
}

fn tells_details(flag: Flag, add: bool) -> bool
    ensures { result ≡ tells_details flag add }
{
    matches!(flag, Flag::Read) && !add
}

fn flag_name(flag: Flag) -> &'static str
    ensures { result.now ≡ flag_name flag }
{
    match flag {
        Flag::Read => "read",
        Flag::Starred => "starred",
        Flag::Collapsed => "collapsed",
    }
}

fn of_reaction(
    alloc: Global,
    op: &str,
    message: MessageId,
    user: UserId,
    emoji: &str,
) -> Result<Members, AllocError>
    ensures { IfOk result
        (λ members. put_in members ≡ of_event.of_reaction op.now message user emoji.now) }
{
    Members::new(alloc)
        .with_text(alloc, "emoji_name", emoji)?
        .with(alloc, "message_id", message.to_json(alloc)?)?
        .with(alloc, "user_id", user.to_json(alloc)?)?
        .with_text(alloc, "op", op)
}
