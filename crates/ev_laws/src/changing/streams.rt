//! What changed in the streams, and in the reader's subscriptions.

ghost use Rattle.std.specs.Prelude.{◌≡◌, ◌++◌, IfOk};
ghost use Rattle.ev_types.specs.Changes.{stream_changes, stream_events, subscription_changes, subscription_events};

use super::differences::{Changing, gained_keys, gained_rows, push_change, push_kept, push_one_of};
use ev_base::{Keyed, NoMemory, StreamId};
use ev_types::{Event, ShownStream, ShownSubscription, StreamField, SubscriptionField};

/// Adds all new streams at once, then what changed in the others, and then all lost streams at once.
pub fn push_streams(
    before: &Keyed<StreamId, ShownStream>,
    after: &Keyed<StreamId, ShownStream>,
    events: &mut Vec<Event>,
) -> Result<(), NoMemory>
    ensures { IfOk result (λ _. events.new.items
        ≡ events.old.items ++ stream_events before.now.rows after.now.rows) }
{
    let alloc = *events.allocator();
    let created = gained_rows(alloc, before, after)?;
    push_one_of(events, created, |rows| Event::StreamCreate(rows))?;
    push_kept(before, after, events)?;
    let deleted = gained_keys(alloc, after, before)?;
    push_one_of(events, deleted, |streams| Event::StreamDelete(streams))
}

/// Adds all new subscriptions at once, then what changed in the others, and then all lost ones at once.
pub fn push_subscriptions(
    before: &Keyed<StreamId, ShownSubscription>,
    after: &Keyed<StreamId, ShownSubscription>,
    events: &mut Vec<Event>,
) -> Result<(), NoMemory>
    ensures { IfOk result (λ _. events.new.items
        ≡ events.old.items ++ subscription_events before.now.rows after.now.rows) }
{
    let alloc = *events.allocator();
    let added = gained_rows(alloc, before, after)?;
    push_one_of(events, added, |rows| Event::SubAdd(rows))?;
    push_kept(before, after, events)?;
    let removed = gained_keys(alloc, after, before)?;
    push_one_of(events, removed, |streams| Event::SubRemove(streams))
}

impl Changing<StreamId> for ShownStream {
    ghost changes = { stream_changes };

    fn push_changes(
        stream: StreamId,
        before: &ShownStream,
        after: &ShownStream,
        events: &mut Vec<Event>,
    ) -> Result<(), NoMemory> {
        push_change(events, &before.name, &after.name, |name| {
            Event::StreamChange {
                stream,
                field: StreamField::Name(name),
            }
        })?;
        push_change(events, &before.description, &after.description, |text| {
            Event::StreamChange {
                stream,
                field: StreamField::Description(text),
            }
        })?;
        push_change(events, &before.invite_only, &after.invite_only, |value| {
            Event::StreamChange {
                stream,
                field: StreamField::InviteOnly(value),
            }
        })?;
        push_change(
            events,
            &before.history_public_to_subscribers,
            &after.history_public_to_subscribers,
            |value| Event::StreamChange {
                stream,
                field: StreamField::HistoryPublicToSubscribers(value),
            },
        )
    }
}

impl Changing<StreamId> for ShownSubscription {
    ghost changes = { subscription_changes };

    fn push_changes(
        stream: StreamId,
        before: &ShownSubscription,
        after: &ShownSubscription,
        events: &mut Vec<Event>,
    ) -> Result<(), NoMemory> {
        push_change(events, &before.color, &after.color, |color| {
            Event::SubChange {
                stream,
                field: SubscriptionField::Color(color),
            }
        })?;
        push_change(events, &before.is_muted, &after.is_muted, |value| {
            Event::SubChange {
                stream,
                field: SubscriptionField::IsMuted(value),
            }
        })?;
        push_change(events, &before.pin_to_top, &after.pin_to_top, |value| {
            Event::SubChange {
                stream,
                field: SubscriptionField::PinToTop(value),
            }
        })
    }
}
