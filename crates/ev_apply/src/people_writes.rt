//! What events write in the sections of users, streams, subscriptions and subscribers.

ghost use Rattle.std.specs.Prelude.{◌≡◌, ◌++◌, map, IfOk};
ghost use Rattle.ev_types.specs.Writes.{drop_row, put};

use crate::event_writes::{MadeOf, push_drops, push_drops_under, push_each, push_puts};
use crate::row_write::{NoField, RowWrite};
use crate::sorted_writes::SortedWrites;
use ev_base::{NoMemory, StreamId, UserId};
use ev_types::{
    Event, ShownStream, ShownSubscription, ShownUser, StreamField, SubscriptionField, UserField,
};

pub type UserWrite = RowWrite<UserId, ShownUser, UserField, NoField>;

pub type SortedUserWrites = SortedWrites<UserId, ShownUser, UserField, NoField>;

impl MadeOf<Event> for UserWrite {
    ghost use Rattle.ev_types.specs.EventWrites.{user_writes};

    ghost made_of = { user_writes };

    fn push_writes(event: &Event, writes: &mut Vec<UserWrite>) -> Result<(), NoMemory> {
        match event {
            Event::UserAdd { user, row } => Ok(writes.push(RowWrite::put(*user, row.clone()?))?),
            Event::UserChange { user, field } => Ok(writes.push(RowWrite::patch(
                *user,
                field.clone()?,
            ))?),
            _ => Ok(()),
        }
    }
}

pub type StreamWrite = RowWrite<StreamId, ShownStream, StreamField, NoField>;

pub type SortedStreamWrites = SortedWrites<StreamId, ShownStream, StreamField, NoField>;

impl MadeOf<Event> for StreamWrite {
    ghost use Rattle.ev_types.specs.EventWrites.{stream_writes};

    ghost made_of = { stream_writes };

    fn push_writes(event: &Event, writes: &mut Vec<StreamWrite>) -> Result<(), NoMemory> {
        match event {
            Event::StreamCreate(rows) => push_puts(rows.as_slice(), writes),
            Event::StreamChange { stream, field } => Ok(writes.push(RowWrite::patch(
                *stream,
                field.clone()?,
            ))?),
            Event::StreamDelete(streams) => push_drops(streams.as_slice(), writes),
            _ => Ok(()),
        }
    }
}

pub type SubscriptionWrite = RowWrite<StreamId, ShownSubscription, SubscriptionField, NoField>;

pub type SortedSubscriptionWrites = SortedWrites<
    StreamId,
    ShownSubscription,
    SubscriptionField,
    NoField,
>;

impl MadeOf<Event> for SubscriptionWrite {
    ghost use Rattle.ev_types.specs.EventWrites.{subscription_writes};

    ghost made_of = { subscription_writes };

    fn push_writes(event: &Event, writes: &mut Vec<SubscriptionWrite>) -> Result<(), NoMemory> {
        match event {
            Event::SubAdd(rows) => push_puts(rows.as_slice(), writes),
            Event::SubChange { stream, field } => Ok(writes.push(RowWrite::patch(
                *stream,
                field.clone()?,
            ))?),
            Event::SubRemove(streams) => push_drops(streams.as_slice(), writes),
            _ => Ok(()),
        }
    }
}

pub type SubscriberWrite = RowWrite<(StreamId, UserId), (), NoField, StreamId>;

pub type SortedSubscriberWrites = SortedWrites<(StreamId, UserId), (), NoField, StreamId>;

impl MadeOf<Event> for SubscriberWrite {
    ghost use Rattle.ev_types.specs.EventWrites.{subscriber_writes};

    ghost made_of = { subscriber_writes };

    fn push_writes(event: &Event, writes: &mut Vec<SubscriberWrite>) -> Result<(), NoMemory> {
        match event {
            Event::StreamDelete(streams) => push_drops_under(streams.as_slice(), writes),
            Event::PeerAdd { stream, users } => push_peers(*stream, users.as_slice(), writes),
            Event::PeerRemove { stream, users } => push_lost_peers(
                *stream,
                users.as_slice(),
                writes,
            ),
            _ => Ok(()),
        }
    }
}

fn push_peers(
    stream: StreamId,
    users: &[UserId],
    writes: &mut Vec<SubscriberWrite>,
) -> Result<(), NoMemory>
    ensures { IfOk result (λ _. writes.new.items
        ≡ writes.old.items ++ map (λ user. put (stream, user) tt) users.now) }
{
    push_each(users, |user| Ok(RowWrite::put((stream, *user), ())), writes)
}

fn push_lost_peers(
    stream: StreamId,
    users: &[UserId],
    writes: &mut Vec<SubscriberWrite>,
) -> Result<(), NoMemory>
    ensures { IfOk result (λ _. writes.new.items
        ≡ writes.old.items ++ map (λ user. drop_row (stream, user)) users.now) }
{
    push_each(
        users,
        |user| Ok(RowWrite::drop_row((stream, *user))),
        writes,
    )
}
