//! What a move tells one user.

ghost use Rattle.std.specs.Prelude.{◌≡◌, ◌++◌, filter, IfOk};
ghost use Rattle.std.specs.List.{filter_map};
ghost use Rattle.ev_rows.specs.Rows.{one_of};
ghost use Rattle.ev_types.specs.declared.event.Event.{Event};
ghost use Rattle.nt_moves.specs.MoveParts.{has_receipt, move_told, shown_in};

use crate::moves::Move;
use ev_base::{MessageId, NoMemory, Place, UserId};
use ev_laws::push_one_of;
use ev_types::{Event, ShownMessage};
use nt_parts::push_arrived;
use std::alloc::Global;
use zr_realm::Realm;
use zr_view::shown_message;

/// Adds what a user is told of a move, by whether the user sees the stream before, the one
/// afterwards, both or neither.
pub fn push_told(
    realm: &Realm,
    moves: &Move<'_>,
    user: UserId,
    events: &mut Vec<Event>,
) -> Result<(), NoMemory>
    ensures { IfOk result (λ _. events.new.items ≡ events.old.items
        ++ move_told realm.now.state.tables moves.now.from moves.now.into moves.now.topic.now
        moves.now.moved.now user) }
{
    let alloc = *events.allocator();
    let saw = realm.sees_stream(user, moves.from);
    let sees = realm.sees_stream(user, moves.into);
    match (saw, sees) {
        (true, true) => push_moved(realm, moves, user, events),
        (false, true) => push_arrived(realm, shown(alloc, realm, moves, user)?, events),
        (true, false) => push_gone(realm, moves.moved, user, events),
        (false, false) => Ok(()),
    }
}

fn push_moved(
    realm: &Realm,
    moves: &Move<'_>,
    user: UserId,
    events: &mut Vec<Event>,
) -> Result<(), NoMemory>
    ensures { IfOk result (λ _. events.new.items ≡ events.old.items
        ++ one_of (λ messages. Event.MessageMoved messages moves.now.into moves.now.topic.now)
        (filter (has_receipt realm.now.state.tables user) moves.now.moved.now)) }
{
    let messages = received(*events.allocator(), realm, moves.moved, user)?;
    let stream = moves.into;
    let topic = moves.topic.clone()?;
    push_one_of(
        events,
        messages,
        |messages| Event::MessageMoved {
            messages,
            stream,
            topic,
        },
    )
}

fn push_gone(
    realm: &Realm,
    moved: &[MessageId],
    user: UserId,
    events: &mut Vec<Event>,
) -> Result<(), NoMemory>
    ensures { IfOk result (λ _. events.new.items ≡ events.old.items
        ++ one_of Event.MessageGone (filter (has_receipt realm.now.state.tables user) moved.now)) }
{
    let messages = received(*events.allocator(), realm, moved, user)?;
    push_one_of(events, messages, |messages| Event::MessageGone(messages))
}

// Those of the messages that the user has a receipt for.
fn received(
    alloc: Global,
    realm: &Realm,
    moved: &[MessageId],
    user: UserId,
) -> Result<Vec<MessageId>, NoMemory>
    ensures { IfOk result (λ messages. messages.items
        ≡ filter (has_receipt realm.now.state.tables user) moved.now) }
{
    let messages = moved.iter().copied();
    let own = messages.filter(|message| realm.has_receipt(user, *message));
    Ok(own.collect(alloc)?)
}

// They as the user sees them at their new place.
fn shown(
    alloc: Global,
    realm: &Realm,
    moves: &Move<'_>,
    user: UserId,
) -> Result<Vec<(MessageId, ShownMessage)>, NoMemory>
    ensures { IfOk result (λ rows. rows.items ≡ filter_map
        (shown_in realm.now.state.tables user moves.now.into moves.now.topic.now) moves.now.moved.now) }
{
    let mut rows = Vec::new(alloc);
    for message in moves.moved {
        if let Some(row) = shown_in(realm, moves, user, *message)? {
            rows.push(row)?;
        }
    }
    Ok(rows)
}

fn shown_in(
    realm: &Realm,
    moves: &Move<'_>,
    user: UserId,
    message: MessageId,
) -> Result<Option<(MessageId, ShownMessage)>, NoMemory>
    ensures { IfOk result (λ shown. shown
        ≡ shown_in realm.now.state.tables user moves.now.into moves.now.topic.now message) }
{
    let Some(row) = realm.message(message) else {
        return Ok(None);
    };
    let Some(receipt) = realm.receipt(user, message) else {
        return Ok(None);
    };
    let mut shown = shown_message(row, receipt)?;
    shown.place = Place::Stream {
        stream: moves.into,
        topic: moves.topic.clone()?,
    };
    Ok(Some((message, shown)))
}
