//! The streams and messages that come and go with a user's role.

ghost use Rattle.std.specs.Prelude.{◌≡◌, ◌++◌, IfOk};
ghost use Rattle.nt_people.specs.PeopleParts.{arrived, message_sight, opened, opens, opens_place, stream_sight};
ghost use Rattle.nt_people.specs.Shown.{arrived_in, opened_in};

use ev_base::{Keyed, MessageId, NoMemory, Place, Role, StreamId, UserId};
use ev_laws::push_one_of;
use ev_types::{Event, ShownMessage, ShownStream};
use nt_parts::{keys, push_arrived, push_subscribers, sees_by};
use std::alloc::Global;
use zr_realm::Realm;
use zr_types::{Message, Stream};
use zr_view::{shown_message, shown_stream, sifted};

/// Adds what a user is told of the streams that come and go with a role, and of their subscribers.
/// Without a role the user isn't there.
pub fn push_stream_sight(
    realm: &Realm,
    user: UserId,
    old: Option<Role>,
    new: Option<Role>,
    events: &mut Vec<Event>,
) -> Result<(), NoMemory>
    ensures { IfOk result (λ _. events.new.items
        ≡ events.old.items ++ stream_sight realm.now.state.tables user old new) }
{
    let alloc = *events.allocator();
    let created = opened(alloc, realm, user, old, new)?;
    let streams = keys(alloc, &created)?;
    push_one_of(events, created.into_vec(), |rows| Event::StreamCreate(rows))?;
    let deleted = opened(alloc, realm, user, new, old)?;
    let deleted = keys(alloc, &deleted)?;
    push_one_of(events, deleted, |streams| Event::StreamDelete(streams))?;
    push_subscribers(realm, &streams, events)
}

// The streams that the user sees in the new role and not in the old one.
fn opened(
    alloc: Global,
    realm: &Realm,
    user: UserId,
    old: Option<Role>,
    new: Option<Role>,
) -> Result<Keyed<StreamId, ShownStream>, NoMemory>
    ensures { IfOk result (λ shown. shown.rows ≡ opened realm.now.state.tables user old new) }
{
    let rows = realm.streams().streams_rows();
    sifted(alloc, rows, |row| opened_in(realm, user, old, new, row))
}

fn opened_in(
    realm: &Realm,
    user: UserId,
    old: Option<Role>,
    new: Option<Role>,
    row: &(StreamId, Stream),
) -> Result<Option<ShownStream>, NoMemory>
    ensures { IfOk result
        (λ shown. shown ≡ opened_in realm.now.state.tables user old new row.now) }
{
    if !opens(realm, user, old, new, row.0) {
        return Ok(None);
    }
    Ok(Some(shown_stream(&row.1)?))
}

fn opens(
    realm: &Realm,
    user: UserId,
    old: Option<Role>,
    new: Option<Role>,
    stream: StreamId,
) -> bool
    ensures { result ≡ opens realm.now.state.tables user old new stream }
{
    let row = realm.stream(stream);
    let is_subscribed = realm.is_subscribed(user, stream);
    sees_by(new, row, is_subscribed) && !sees_by(old, row, is_subscribed)
}

/// Adds what a user is told of the messages that come and go with a role.
pub fn push_message_sight(
    realm: &Realm,
    user: UserId,
    old: Option<Role>,
    new: Option<Role>,
    events: &mut Vec<Event>,
) -> Result<(), NoMemory>
    ensures { IfOk result (λ _. events.new.items
        ≡ events.old.items ++ message_sight realm.now.state.tables user old new) }
{
    let alloc = *events.allocator();
    let shown = arrived(alloc, realm, user, old, new)?;
    push_arrived(realm, shown.into_vec(), events)?;
    let gone = arrived(alloc, realm, user, new, old)?;
    let gone = keys(alloc, &gone)?;
    push_one_of(events, gone, |messages| Event::MessageGone(messages))
}

// The messages with a receipt in the streams that the user sees in the new role and not in the old
// one.
fn arrived(
    alloc: Global,
    realm: &Realm,
    user: UserId,
    old: Option<Role>,
    new: Option<Role>,
) -> Result<Keyed<MessageId, ShownMessage>, NoMemory>
    ensures { IfOk result (λ shown. shown.rows ≡ arrived realm.now.state.tables user old new) }
{
    let rows = realm.posts().messages_rows();
    sifted(alloc, rows, |row| arrived_in(realm, user, old, new, row))
}

fn arrived_in(
    realm: &Realm,
    user: UserId,
    old: Option<Role>,
    new: Option<Role>,
    row: &(MessageId, Message),
) -> Result<Option<ShownMessage>, NoMemory>
    ensures { IfOk result
        (λ shown. shown ≡ arrived_in realm.now.state.tables user old new row.now) }
{
    if !opens_place(realm, user, old, new, &row.1.place) {
        return Ok(None);
    }
    match realm.receipt(user, row.0) {
        Some(receipt) => Ok(Some(shown_message(&row.1, receipt)?)),
        None => Ok(None),
    }
}

fn opens_place(
    realm: &Realm,
    user: UserId,
    old: Option<Role>,
    new: Option<Role>,
    place: &Place,
) -> bool
    ensures { result ≡ opens_place realm.now.state.tables user old new place.now }
{
    match place {
        Place::Stream { stream, .. } => opens(realm, user, old, new, *stream),
        Place::Direct { .. } => false,
    }
}
