//! What each user who finds or loses a stream is told of its own.

ghost use Rattle.std.specs.Prelude.{◌≡◌, ◌++◌, flat_map, IfOk};
ghost use Rattle.zw_views.specs.Views.{shown_subscription};
ghost use Rattle.nt_streams.specs.StreamParts.{found_messages, found_subscription, is_in, messages_in};
ghost use Rattle.nt_streams.specs.Sights.{gone, message_in, own_events, own_part};

use crate::sight::subscription_after;
use crate::turn::Turn;
use ev_base::{Keyed, Listed, MessageId, NoMemory, Place, StreamId, UserId};
use ev_laws::push_one_of;
use ev_types::{Event, Part, ShownMessage, ShownSubscription};
use nt_parts::{keys, push_arrived, push_to_one};
use std::alloc::Global;
use zr_realm::Realm;
use zr_types::{Message, Subscription};
use zr_view::{shown_message, sifted};

/// What is a user's own of a stream that it finds or loses.
#[derive(Clone, Copy, Debug)]
pub enum Own {
    /// The subscription to a stream that is found.
    Subscription,
    /// The messages there.
    Messages,
    /// The messages of a stream that is lost.
    Gone,
}

/// Tells each of these users of its own.
pub fn push_each_own(
    realm: &Realm,
    turn: &Turn,
    own: Own,
    users: &[UserId],
    parts: &mut Vec<Part>,
) -> Result<(), NoMemory>
    ensures { IfOk result (λ _. parts.new.items ≡ parts.old.items
        ++ flat_map (own_part realm.now.state.tables turn.now own) users.now) }
{
    for user in users {
        push_own(realm, turn, own, *user, parts)?;
    }
    Ok(())
}

fn push_own(
    realm: &Realm,
    turn: &Turn,
    own: Own,
    user: UserId,
    parts: &mut Vec<Part>,
) -> Result<(), NoMemory>
    ensures { IfOk result (λ _. parts.new.items
        ≡ parts.old.items ++ own_part realm.now.state.tables turn.now own user) }
{
    let events = own_events(*parts.allocator(), realm, turn, own, user)?;
    push_to_one(parts, user, events)
}

fn own_events(
    alloc: Global,
    realm: &Realm,
    turn: &Turn,
    own: Own,
    user: UserId,
) -> Result<Vec<Event>, NoMemory>
    ensures { IfOk result
        (λ events. events.items ≡ own_events realm.now.state.tables turn.now own user) }
{
    match own {
        Own::Subscription => found_subscription(alloc, realm, turn, user),
        Own::Messages => found_messages(alloc, realm, turn, user),
        Own::Gone => gone(alloc, realm, turn, user),
    }
}

fn found_subscription(
    alloc: Global,
    realm: &Realm,
    turn: &Turn,
    user: UserId,
) -> Result<Vec<Event>, NoMemory>
    ensures { IfOk result
        (λ events. events.items ≡ found_subscription realm.now.state.tables turn.now user) }
{
    match subscription_after(realm, turn, user) {
        Some(own) => {
            let rows = vec![in alloc; (turn.stream, shown_subscription(own)?)]?;
            Ok(vec![in alloc; Event::SubAdd(Listed::from_vec(rows))]?)
        }
        None => Ok(Vec::new(alloc)),
    }
}

fn found_messages(
    alloc: Global,
    realm: &Realm,
    turn: &Turn,
    user: UserId,
) -> Result<Vec<Event>, NoMemory>
    ensures { IfOk result
        (λ events. events.items ≡ found_messages realm.now.state.tables turn.now user) }
{
    let mut events = Vec::new(alloc);
    let shown = messages_in(alloc, realm, turn.stream, user)?;
    push_arrived(realm, shown.into_vec(), &mut events)?;
    Ok(events)
}

fn gone(alloc: Global, realm: &Realm, turn: &Turn, user: UserId) -> Result<Vec<Event>, NoMemory>
    ensures { IfOk result
        (λ events. events.items ≡ gone realm.now.state.tables turn.now user) }
{
    let mut events = Vec::new(alloc);
    let shown = messages_in(alloc, realm, turn.stream, user)?;
    let gone = keys(alloc, &shown)?;
    push_one_of(&mut events, gone, |messages| Event::MessageGone(messages))?;
    Ok(events)
}

// The messages in a stream that a user has a receipt for.
fn messages_in(
    alloc: Global,
    realm: &Realm,
    stream: StreamId,
    user: UserId,
) -> Result<Keyed<MessageId, ShownMessage>, NoMemory>
    ensures { IfOk result (λ shown. shown.rows ≡ messages_in realm.now.state.tables stream user) }
{
    let rows = realm.posts().messages_rows();
    sifted(alloc, rows, |row| message_in(realm, stream, user, row))
}

fn message_in(
    realm: &Realm,
    stream: StreamId,
    user: UserId,
    row: &(MessageId, Message),
) -> Result<Option<ShownMessage>, NoMemory>
    ensures { IfOk result
        (λ shown. shown ≡ message_in realm.now.state.tables stream user row.now) }
{
    if !is_in(stream, &row.1.place) {
        return Ok(None);
    }
    match realm.receipt(user, row.0) {
        Some(receipt) => Ok(Some(shown_message(&row.1, receipt)?)),
        None => Ok(None),
    }
}

fn is_in(stream: StreamId, place: &Place) -> bool
    ensures { result ≡ is_in stream place.now }
{
    match place {
        Place::Stream { stream: other, .. } => stream == *other,
        Place::Direct { .. } => false,
    }
}

/// A subscription as it is shown.
pub fn shown_subscription(row: &Subscription) -> Result<ShownSubscription, NoMemory>
    ensures { IfOk result (λ shown. shown ≡ shown_subscription row.now) }
{
    Ok(ShownSubscription {
        color: row.color.clone()?,
        is_muted: row.is_muted,
        pin_to_top: row.pin_to_top,
    })
}
