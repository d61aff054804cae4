//! The JSON values of the rows of sections.

ghost use Rattle.std.specs.Prelude.{◌≡◌, IfOk, map};
ghost use Rattle.serde_json.specs.Data as of_json;
ghost use Rattle.serde_json.specs.Data.{string};
ghost use Rattle.serde_json.specs.View.{view};
ghost use Rattle.ev_wire.specs.Rows as of_row;
ghost use Rattle.ev_wire.specs.Rows.{flag_names, message_members, with_place};
ghost use Rattle.ev_wire.specs.Values.{put_in};

use crate::members::Members;
use crate::values::{ToJson, list_value, number_value, text_value, truth_value};
use ev_base::{MessageId, Place, StreamId, Text, UserId};
use ev_types::{
    FullMessage, MessageFlags, ShownMessage, ShownRealm, ShownStream, ShownSubscription, ShownUser,
};
use serde_json::Value;
use std::alloc::{AllocError, Global};

impl ToJson for ShownRealm {
    ghost json = { of_row.realm_data };

    fn to_json(&self, alloc: Global) -> Result<Value, AllocError> {
        Ok(
            Members::new(alloc)
                .with_text(alloc, "description", self.description.as_str())?
                .with_text(alloc, "name", self.name.as_str())?
                .into_value(),
        )
    }
}

impl ToJson for (UserId, ShownUser) {
    ghost json = { of_row.user_data };

    fn to_json(&self, alloc: Global) -> Result<Value, AllocError> {
        user_value(alloc, self.0, &self.1)
    }
}

/// A user, without the API key.
pub fn user_value(alloc: Global, user: UserId, row: &ShownUser) -> Result<Value, AllocError>
    ensures { IfOk result (λ value. view value ≡ of_row.user_data (user, row.now)) }
{
    Ok(
        Members::new(alloc)
            .with_text(alloc, "email", row.email.as_str())?
            .with_text(alloc, "full_name", row.full_name.as_str())?
            .with(alloc, "is_active", truth_value(row.is_active))?
            .with(alloc, "role", number_value(row.role.number()))?
            .with(alloc, "user_id", user.to_json(alloc)?)?
            .into_value(),
    )
}

impl ToJson for (StreamId, ShownStream) {
    ghost json = { of_row.stream_data };

    fn to_json(&self, alloc: Global) -> Result<Value, AllocError> {
        let row = &self.1;
        let is_public = truth_value(row.history_public_to_subscribers);
        Ok(
            Members::new(alloc)
                .with_text(alloc, "description", row.description.as_str())?
                .with(alloc, "history_public_to_subscribers", is_public)?
                .with(alloc, "invite_only", truth_value(row.invite_only))?
                .with_text(alloc, "name", row.name.as_str())?
                .with(alloc, "stream_id", self.0.to_json(alloc)?)?
                .into_value(),
        )
    }
}

impl ToJson for (StreamId, ShownSubscription) {
    ghost json = { of_row.subscription_data };

    fn to_json(&self, alloc: Global) -> Result<Value, AllocError> {
        let row = &self.1;
        Ok(
            Members::new(alloc)
                .with_text(alloc, "color", row.color.as_str())?
                .with(alloc, "is_muted", truth_value(row.is_muted))?
                .with(alloc, "pin_to_top", truth_value(row.pin_to_top))?
                .with(alloc, "stream_id", self.0.to_json(alloc)?)?
                .into_value(),
        )
    }
}

impl ToJson for ((StreamId, UserId), ()) {
    ghost json = { of_row.subscriber_data };

    fn to_json(&self, alloc: Global) -> Result<Value, AllocError> {
        let (stream, user) = &self.0;
        Ok(
            Members::new(alloc)
                .with(alloc, "stream_id", stream.to_json(alloc)?)?
                .with(alloc, "user_id", user.to_json(alloc)?)?
                .into_value(),
        )
    }
}

impl ToJson for (MessageId, ShownMessage) {
    ghost json = { of_row.message_data };

    fn to_json(&self, alloc: Global) -> Result<Value, AllocError> {
        Ok(message_members(alloc, self.0, &self.1)?.into_value())
    }
}

impl ToJson for FullMessage {
    ghost json = { of_row.full_message_data };

    fn to_json(&self, alloc: Global) -> Result<Value, AllocError> {
        let reactions = list_value(alloc, self.reactions.as_slice())?;
        Ok(
            message_members(alloc, self.message, &self.row)?
                .with(alloc, "reactions", reactions)?
                .into_value(),
        )
    }
}

impl ToJson for (UserId, Text) {
    ghost json = { of_row.own_reaction_data };

    fn to_json(&self, alloc: Global) -> Result<Value, AllocError> {
        Ok(
            Members::new(alloc)
                .with_text(alloc, "emoji_name", self.1.as_str())?
                .with(alloc, "user_id", self.0.to_json(alloc)?)?
                .into_value(),
        )
    }
}

impl ToJson for ((MessageId, UserId, Text), ()) {
    ghost json = { of_row.reaction_data };

    fn to_json(&self, alloc: Global) -> Result<Value, AllocError> {
        let (message, user, emoji) = &self.0;
        Ok(
            Members::new(alloc)
                .with_text(alloc, "emoji_name", emoji.as_str())?
                .with(alloc, "message_id", message.to_json(alloc)?)?
                .with(alloc, "user_id", user.to_json(alloc)?)?
                .into_value(),
        )
    }
}

impl ToJson for (MessageId, ()) {
    ghost json = { of_row.starred_data };

    fn to_json(&self, alloc: Global) -> Result<Value, AllocError> {
        self.0.to_json(alloc)
    }
}

impl ToJson for (MessageId, Place) {
    ghost json = { of_row.unread_data };

    fn to_json(&self, alloc: Global) -> Result<Value, AllocError> {
        let members = Members::new(alloc).with(alloc, "id", self.0.to_json(alloc)?)?;
        Ok(with_place(alloc, members, &self.1)?.into_value())
    }
}

// A message without its reactions.
fn message_members(
    alloc: Global,
    message: MessageId,
    row: &ShownMessage,
) -> Result<Members, AllocError>
    ensures { IfOk result (λ members. put_in members ≡ message_members message row.now) }
{
    let members = Members::new(alloc)
        .with_text(alloc, "content", row.content.as_str())?
        .with(alloc, "flags", flags_value(alloc, row.flags)?)?
        .with(alloc, "id", message.to_json(alloc)?)?
        .with(alloc, "sender_id", row.sender.to_json(alloc)?)?
        .with(alloc, "timestamp", number_value(row.timestamp))?;
    with_place(alloc, members, &row.place)
}

// The flags that are set, by name.
fn flags_value(alloc: Global, flags: MessageFlags) -> Result<Value, AllocError>
    ensures { IfOk result (λ value. view value ≡ of_json.array
        (Rattle.serde_json.specs.View.items_of (map (λ name. name) (flag_names flags)))) }
{
    let mut names = Vec::with_capacity(alloc, 3)?;
    if flags.collapsed {
        names.push(text_value(alloc, "collapsed")?)?;
    }
    if flags.read {
        names.push(text_value(alloc, "read")?)?;
    }
    if flags.starred {
        names.push(text_value(alloc, "starred")?)?;
    }
    Ok(Value::Array(names))
}

// The members that tell a place, beside others.
fn with_place(alloc: Global, members: Members, place: &Place) -> Result<Members, AllocError>
    ensures { IfOk result (λ all. put_in all ≡ with_place place.now (put_in members)) }
{
    match place {
        Place::Stream { stream, topic } => members
            .with(alloc, "stream_id", stream.to_json(alloc)?)?
            .with_text(alloc, "topic", topic.as_str())?
            .with_text(alloc, "type", "stream"),
        Place::Direct { recipients } => members
            .with(
                alloc,
                "recipients",
                list_value(alloc, recipients.as_slice())?,
            )?
            .with_text(alloc, "type", "private"),
    }
}
