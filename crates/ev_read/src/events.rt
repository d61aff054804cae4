//! Events of the realm, of users, streams and subscriptions.

ghost use Rattle.std.specs.Prelude.{◌≡◌};
ghost use Rattle.serde_json.specs.View.{view};
ghost use Rattle.ev_read.specs.Events as spec;
ghost use Rattle.ev_read.specs.Reading.{Reads};

use crate::fault::Unread;
use crate::lists::{FromJson, list_field};
use crate::names::{
    RealmProperty, StreamOperation, StreamProperty, SubOperation, SubProperty, UserOperation,
    realm_property, stream_operation, stream_property, sub_operation, sub_property, user_operation,
};
use crate::values::{bool_field, id_field, role_field, text_field};
use ev_base::{Listed, StreamId, UserId};
use ev_json::{field_object, field_text};
use ev_types::{
    Event, RealmField, ShownStream, ShownSubscription, ShownUser, StreamField, SubscriptionField,
    UserField,
};
use serde_json::Value;
use std::alloc::Global;

#[tactic(auto, unfolding(crate::specs::Events::realm_field_by))]
fn realm_field_by(
    alloc: Global,
    property: RealmProperty,
    value: &Value,
) -> Result<RealmField, Unread>
    ensures { Reads (λ field. field) result (spec.realm_field_by property (view value.now)) }
{
    match property {
        RealmProperty::Name => {
            let name = text_field(alloc, value, "value")?;
            Ok(RealmField::Name(name))
        }
        RealmProperty::Description => {
            let description = text_field(alloc, value, "value")?;
            Ok(RealmField::Description(description))
        }
    }
}

#[tactic(auto, unfolding(crate::specs::Events::realm_change))]
fn realm_change(alloc: Global, value: &Value) -> Result<Event, Unread>
    ensures { Reads (λ event. event) result (spec.realm_change (view value.now)) }
{
    let name = field_text(value, "property")?;
    let property = realm_property(name).ok_or(Unread::Misfit)?;
    let field = realm_field_by(alloc, property, value)?;
    Ok(Event::RealmUpdate(field))
}

/// An event of the realm.
#[tactic(auto, unfolding(crate::specs::Events::realm_event))]
pub fn realm_event(alloc: Global, value: &Value) -> Result<Event, Unread>
    ensures { Reads (λ event. event) result (spec.realm_event (view value.now)) }
{
    let operation = field_text(value, "op")?;
    if operation == "update" {
        realm_change(alloc, value)
    } else {
        Err(Unread::Misfit)
    }
}

/// Which field of a user a change has.
#[derive(Clone, Copy)]
pub enum UserChanged {
    FullName,
    Role,
    IsActive,
}

// The first of these that is there.
fn which_changed(person: &Value) -> UserChanged
    ensures { result ≡ spec.which_changed (view person.now) }
{
    if person.get("full_name").is_some() {
        UserChanged::FullName
    } else if person.get("role").is_some() {
        UserChanged::Role
    } else {
        UserChanged::IsActive
    }
}

#[tactic(auto, unfolding(crate::specs::Events::user_field_by))]
fn user_field_by(alloc: Global, changed: UserChanged, person: &Value) -> Result<UserField, Unread>
    ensures { Reads (λ field. field) result (spec.user_field_by changed (view person.now)) }
{
    match changed {
        UserChanged::FullName => {
            let name = text_field(alloc, person, "full_name")?;
            Ok(UserField::FullName(name))
        }
        UserChanged::Role => {
            let role = role_field(person, "role")?;
            Ok(UserField::Role(role))
        }
        UserChanged::IsActive => {
            let is_active = bool_field(person, "is_active")?;
            Ok(UserField::IsActive(is_active))
        }
    }
}

#[tactic(auto, unfolding(crate::specs::Events::user_by))]
fn user_by(alloc: Global, operation: UserOperation, person: &Value) -> Result<Event, Unread>
    ensures { Reads (λ event. event) result (spec.user_by operation (view person.now)) }
{
    match operation {
        UserOperation::Add => {
            let (user, row) = <(UserId, ShownUser)>::from_json(alloc, person)?;
            Ok(Event::UserAdd { user, row })
        }
        UserOperation::Update => {
            let user = id_field(person, "user_id")?;
            let field = user_field_by(alloc, which_changed(person), person)?;
            Ok(Event::UserChange {
                user: UserId(user),
                field,
            })
        }
    }
}

/// An event of a user.
#[tactic(auto, unfolding(crate::specs::Events::user_event))]
pub fn user_event(alloc: Global, value: &Value) -> Result<Event, Unread>
    ensures { Reads (λ event. event) result (spec.user_event (view value.now)) }
{
    let name = field_text(value, "op")?;
    let operation = user_operation(name).ok_or(Unread::Misfit)?;
    let person = field_object(value, "person")?;
    user_by(alloc, operation, person)
}

#[tactic(auto, unfolding(crate::specs::Events::stream_field_by))]
fn stream_field_by(
    alloc: Global,
    property: StreamProperty,
    value: &Value,
) -> Result<StreamField, Unread>
    ensures { Reads (λ field. field) result (spec.stream_field_by property (view value.now)) }
{
    match property {
        StreamProperty::Name => {
            let name = text_field(alloc, value, "value")?;
            Ok(StreamField::Name(name))
        }
        StreamProperty::Description => {
            let description = text_field(alloc, value, "value")?;
            Ok(StreamField::Description(description))
        }
        StreamProperty::InviteOnly => {
            let invite_only = bool_field(value, "value")?;
            Ok(StreamField::InviteOnly(invite_only))
        }
        StreamProperty::HistoryPublicToSubscribers => {
            let is_public = bool_field(value, "value")?;
            Ok(StreamField::HistoryPublicToSubscribers(is_public))
        }
    }
}

#[tactic(auto, unfolding(crate::specs::Events::stream_change))]
fn stream_change(alloc: Global, value: &Value) -> Result<Event, Unread>
    ensures { Reads (λ event. event) result (spec.stream_change (view value.now)) }
{
    let stream = id_field(value, "stream_id")?;
    let name = field_text(value, "property")?;
    let property = stream_property(name).ok_or(Unread::Misfit)?;
    let field = stream_field_by(alloc, property, value)?;
    Ok(Event::StreamChange {
        stream: StreamId(stream),
        field,
    })
}

#[tactic(auto, unfolding(crate::specs::Events::streams_in))]
fn streams_in(alloc: Global, value: &Value) -> Result<Listed<StreamId>, Unread>
    ensures { Reads (λ streams. streams) result (spec.streams_in (view value.now)) }
{
    list_field::<StreamId>(alloc, value, "stream_ids")
}

#[tactic(auto, unfolding(crate::specs::Events::stream_by))]
fn stream_by(alloc: Global, operation: StreamOperation, value: &Value) -> Result<Event, Unread>
    ensures { Reads (λ event. event) result (spec.stream_by operation (view value.now)) }
{
    match operation {
        StreamOperation::Create => {
            let rows = list_field::<(StreamId, ShownStream)>(alloc, value, "streams")?;
            Ok(Event::StreamCreate(rows))
        }
        StreamOperation::Update => stream_change(alloc, value),
        StreamOperation::Delete => {
            let streams = streams_in(alloc, value)?;
            Ok(Event::StreamDelete(streams))
        }
    }
}

/// An event of streams.
#[tactic(auto, unfolding(crate::specs::Events::stream_event))]
pub fn stream_event(alloc: Global, value: &Value) -> Result<Event, Unread>
    ensures { Reads (λ event. event) result (spec.stream_event (view value.now)) }
{
    let name = field_text(value, "op")?;
    let operation = stream_operation(name).ok_or(Unread::Misfit)?;
    stream_by(alloc, operation, value)
}

#[tactic(auto, unfolding(crate::specs::Events::sub_field_by))]
fn sub_field_by(
    alloc: Global,
    property: SubProperty,
    value: &Value,
) -> Result<SubscriptionField, Unread>
    ensures { Reads (λ field. field) result (spec.sub_field_by property (view value.now)) }
{
    match property {
        SubProperty::Color => {
            let color = text_field(alloc, value, "value")?;
            Ok(SubscriptionField::Color(color))
        }
        SubProperty::IsMuted => {
            let is_muted = bool_field(value, "value")?;
            Ok(SubscriptionField::IsMuted(is_muted))
        }
        SubProperty::PinToTop => {
            let pin_to_top = bool_field(value, "value")?;
            Ok(SubscriptionField::PinToTop(pin_to_top))
        }
    }
}

#[tactic(auto, unfolding(crate::specs::Events::sub_change))]
fn sub_change(alloc: Global, value: &Value) -> Result<Event, Unread>
    ensures { Reads (λ event. event) result (spec.sub_change (view value.now)) }
{
    let stream = id_field(value, "stream_id")?;
    let name = field_text(value, "property")?;
    let property = sub_property(name).ok_or(Unread::Misfit)?;
    let field = sub_field_by(alloc, property, value)?;
    Ok(Event::SubChange {
        stream: StreamId(stream),
        field,
    })
}

// The subscribers of a stream that an event names.
#[tactic(auto, unfolding(crate::specs::Events::peers_in))]
fn peers_in(alloc: Global, value: &Value) -> Result<(StreamId, Listed<UserId>), Unread>
    ensures { Reads (λ peers. peers) result (spec.peers_in (view value.now)) }
{
    let stream = id_field(value, "stream_id")?;
    let users = list_field::<UserId>(alloc, value, "user_ids")?;
    Ok((StreamId(stream), users))
}

#[tactic(auto, unfolding(crate::specs::Events::sub_by))]
fn sub_by(alloc: Global, operation: SubOperation, value: &Value) -> Result<Event, Unread>
    ensures { Reads (λ event. event) result (spec.sub_by operation (view value.now)) }
{
    match operation {
        SubOperation::Add => {
            let rows = list_field::<(StreamId, ShownSubscription)>(alloc, value, "subscriptions")?;
            Ok(Event::SubAdd(rows))
        }
        SubOperation::Update => sub_change(alloc, value),
        SubOperation::Remove => {
            let streams = streams_in(alloc, value)?;
            Ok(Event::SubRemove(streams))
        }
        SubOperation::PeerAdd => {
            let (stream, users) = peers_in(alloc, value)?;
            Ok(Event::PeerAdd { stream, users })
        }
        SubOperation::PeerRemove => {
            let (stream, users) = peers_in(alloc, value)?;
            Ok(Event::PeerRemove { stream, users })
        }
    }
}

/// An event of subscriptions.
#[tactic(auto, unfolding(crate::specs::Events::sub_event))]
pub fn sub_event(alloc: Global, value: &Value) -> Result<Event, Unread>
    ensures { Reads (λ event. event) result (spec.sub_event (view value.now)) }
{
    let name = field_text(value, "op")?;
    let operation = sub_operation(name).ok_or(Unread::Misfit)?;
    sub_by(alloc, operation, value)
}
