//! What a turn changes in a stream, in the user's subscription to it, and among its subscribers.

ghost use Rattle.std.specs.Prelude.{◌≡◌, ◌++◌, IfOk, option_copied};
ghost use Rattle.ev_types.specs.Changes.{stream_changes, subscription_changes, unless};
ghost use Rattle.nt_streams.specs.StreamParts.{changed, found, own_change, peer_change};
ghost use Rattle.nt_streams.specs.Sights.{text_changes};

use crate::own::shown_subscription;
use crate::turn::Turn;
use ev_base::{Listed, NoMemory, StreamId};
use ev_types::{Event, ShownStream, ShownSubscription, StreamField, SubscriptionField};
use std::alloc::Global;
use zr_realm::Realm;
use zr_types::Subscription;
use zr_view::shown_stream;

/// The stream, as those are told who find it.
pub fn found(alloc: Global, turn: &Turn) -> Result<Vec<Event>, NoMemory>
    ensures { IfOk result (λ events. events.items ≡ found turn.now) }
{
    match &turn.row {
        Some(row) => {
            let rows = vec![in alloc; (turn.stream, shown_stream(row)?)]?;
            Ok(vec![in alloc; Event::StreamCreate(Listed::from_vec(rows))]?)
        }
        None => Ok(Vec::new(alloc)),
    }
}

/// What changed in the stream's row.
pub fn changed(alloc: Global, realm: &Realm, turn: &Turn) -> Result<Vec<Event>, NoMemory>
    ensures { IfOk result
        (λ events. events.items ≡ changed realm.now.state.tables turn.now) }
{
    let Some(old) = realm.stream(turn.stream) else {
        return Ok(Vec::new(alloc));
    };
    let Some(new) = &turn.row else {
        return Ok(Vec::new(alloc));
    };
    let old = shown_stream(old)?;
    let new = shown_stream(new)?;
    stream_changes(alloc, turn.stream, &old, &new)
}

fn stream_changes(
    alloc: Global,
    stream: StreamId,
    old: &ShownStream,
    new: &ShownStream,
) -> Result<Vec<Event>, NoMemory>
    ensures { IfOk result
        (λ events. events.items ≡ stream_changes (stream, (old.now, new.now))) }
{
    let mut events = Vec::new(alloc);
    push_texts(stream, old, new, &mut events)?;
    let field = StreamField::InviteOnly(new.invite_only);
    let event = Event::StreamChange { stream, field };
    push_unless(old.invite_only == new.invite_only, event, &mut events)?;
    let is_same = old.history_public_to_subscribers == new.history_public_to_subscribers;
    let field = StreamField::HistoryPublicToSubscribers(new.history_public_to_subscribers);
    push_unless(is_same, Event::StreamChange { stream, field }, &mut events)?;
    Ok(events)
}

// Adds what changed in a stream's name and description.
fn push_texts(
    stream: StreamId,
    old: &ShownStream,
    new: &ShownStream,
    events: &mut Vec<Event>,
) -> Result<(), NoMemory>
    ensures { IfOk result (λ _. events.new.items ≡ events.old.items
        ++ text_changes stream old.now new.now) }
{
    let field = StreamField::Name(new.name.clone()?);
    let event = Event::StreamChange { stream, field };
    push_unless(old.name == new.name, event, events)?;
    let field = StreamField::Description(new.description.clone()?);
    let event = Event::StreamChange { stream, field };
    push_unless(old.description == new.description, event, events)
}

fn push_unless(is_same: bool, event: Event, events: &mut Vec<Event>) -> Result<(), NoMemory>
    ensures { IfOk result
        (λ _. events.new.items ≡ events.old.items ++ unless is_same event) }
{
    if is_same {
        return Ok(());
    }
    Ok(events.push(event)?)
}

/// What changed in the user's subscription, for the user who keeps the stream.
pub fn own_change(
    alloc: Global,
    turn: &Turn,
    old: Option<&Subscription>,
    new: Option<&Subscription>,
) -> Result<Vec<Event>, NoMemory>
    ensures { IfOk result (λ events. events.items
        ≡ own_change turn.now (option_copied old.entry) (option_copied new.entry)) }
{
    match (old, new) {
        (None, None) => Ok(Vec::new(alloc)),
        (None, Some(new)) => {
            let rows = vec![in alloc; (turn.stream, shown_subscription(new)?)]?;
            Ok(vec![in alloc; Event::SubAdd(Listed::from_vec(rows))]?)
        }
        (Some(_), None) => {
            let streams = vec![in alloc; turn.stream]?;
            Ok(vec![in alloc; Event::SubRemove(Listed::from_vec(streams))]?)
        }
        (Some(old), Some(new)) => {
            let old = shown_subscription(old)?;
            let new = shown_subscription(new)?;
            subscription_changes(alloc, turn.stream, &old, &new)
        }
    }
}

fn subscription_changes(
    alloc: Global,
    stream: StreamId,
    old: &ShownSubscription,
    new: &ShownSubscription,
) -> Result<Vec<Event>, NoMemory>
    ensures { IfOk result
        (λ events. events.items ≡ subscription_changes (stream, (old.now, new.now))) }
{
    let mut events = Vec::new(alloc);
    let field = SubscriptionField::Color(new.color.clone()?);
    let event = Event::SubChange { stream, field };
    push_unless(old.color == new.color, event, &mut events)?;
    let field = SubscriptionField::IsMuted(new.is_muted);
    let event = Event::SubChange { stream, field };
    push_unless(old.is_muted == new.is_muted, event, &mut events)?;
    let field = SubscriptionField::PinToTop(new.pin_to_top);
    let event = Event::SubChange { stream, field };
    push_unless(old.pin_to_top == new.pin_to_top, event, &mut events)?;
    Ok(events)
}

/// That the user joined or left the subscribers.
pub fn peer_change(
    alloc: Global,
    turn: &Turn,
    old: Option<&Subscription>,
    new: Option<&Subscription>,
) -> Result<Vec<Event>, NoMemory>
    ensures { IfOk result (λ events. events.items
        ≡ peer_change turn.now (option_copied old.entry) (option_copied new.entry)) }
{
    if old.is_some() == new.is_some() {
        return Ok(Vec::new(alloc));
    }
    let stream = turn.stream;
    let users = Listed::from_vec(vec![in alloc; turn.user]?);
    let event = if new.is_some() {
        Event::PeerAdd { stream, users }
    } else {
        Event::PeerRemove { stream, users }
    };
    Ok(vec![in alloc; event]?)
}
