//! Who became a subscriber of a stream, and who no longer is.

ghost use Rattle.std.specs.Prelude.{◌≡◌, List, ◌++◌, flat_map, filter, is_none, Some, option_to_list, IfOk};
ghost use Rattle.std.specs.BTreeMap.{is_at};
ghost use Rattle.ev_rows.specs.Rows.{gained, keys_of, one_of, only_if, row_at};
ghost use Rattle.ev_base.specs.Orders.{stream_cmp, stream_user_cmp, user_cmp};
ghost use Rattle.ev_types.specs.declared.event.Event.{Event};
ghost use Rattle.ev_types.specs.Changes.{peers_added, peers_of, peers_removed};

use super::differences::push_one_of;
use super::ranges::rows_under;
use ev_base::{Keyed, Listed, NoMemory, StreamId, UserId};
use ev_types::{Event, ShownStream};
use std::alloc::Global;

/// The subscribers of streams.
type Subscribers = Keyed<(StreamId, UserId), ()>;

/// Adds, by stream, who became subscribers of each of these streams, and then by stream who no longer
/// are.
pub fn push_peers(
    streams: &Keyed<StreamId, ShownStream>,
    before: &Subscribers,
    after: &Subscribers,
    events: &mut Vec<Event>,
) -> Result<(), NoMemory>
    ensures { IfOk result (λ _. events.new.items ≡ events.old.items
        ++ (flat_map (peers_added before.now.rows after.now.rows) (keys_of streams.now.rows)
        ++ flat_map (peers_removed before.now.rows after.now.rows) (keys_of streams.now.rows))) }
{
    push_gained_peers(streams, before, after, events, |(stream, users)| {
        Event::PeerAdd { stream, users }
    })?;
    push_gained_peers(streams, after, before, events, |(stream, users)| {
        Event::PeerRemove { stream, users }
    })
}

// Adds, by stream, an event made of the subscribers afterwards that weren't before, where there are any.
fn push_gained_peers<F: Fn((StreamId, Listed<UserId>)) -> Event>(
    streams: &Keyed<StreamId, ShownStream>,
    before: &Subscribers,
    after: &Subscribers,
    events: &mut Vec<Event>,
    make: F,
) -> Result<(), NoMemory>
    requires { F.IsAlwaysCallable make }
    ensures { (event : StreamId → List UserId → Event)
        → ((peers : StreamId × List UserId) (made : Event) → F.post make peers made → made ≡ event peers.0 peers.1)
        → IfOk result (λ _. events.new.items ≡ events.old.items
        ++ flat_map (λ stream. one_of (event stream)
        (keys_of (gained user_cmp (peers_of stream before.now.rows) (peers_of stream after.now.rows))))
        (keys_of streams.now.rows)) }
{
    for (stream, _) in streams.rows() {
        let stream = *stream;
        let users = new_peers(*events.allocator(), before, after, stream)?;
        push_one_of(events, users, |users| make((stream, users)))?;
    }
    Ok(())
}

// The subscribers of the stream afterwards that weren't before.
fn new_peers(
    alloc: Global,
    before: &Subscribers,
    after: &Subscribers,
    stream: StreamId,
) -> Result<Vec<UserId>, NoMemory>
    ensures { IfOk result (λ users. users.items
        ≡ keys_of (gained user_cmp (peers_of stream before.now.rows) (peers_of stream after.now.rows))) }
{
    let mut users = Vec::new(alloc);
    for row in subscribers_of(after, stream) {
        push_if_new(before, row.0, &mut users)?;
    }
    Ok(users)
}

fn push_if_new(
    before: &Subscribers,
    key: (StreamId, UserId),
    users: &mut Vec<UserId>,
) -> Result<(), NoMemory>
    ensures { IfOk result (λ _. users.new.items ≡ users.old.items
        ++ option_to_list (only_if (is_none (row_at stream_user_cmp before.now.rows key)) (Some key.1))) }
{
    match before.get(&key) {
        Some(_) => Ok(()),
        None => Ok(users.push(key.1)?),
    }
}

// The rows of one stream.
fn subscribers_of(subscribers: &Subscribers, stream: StreamId) -> &[((StreamId, UserId), ())]
    ensures { result.now ≡ filter (λ row. is_at (stream_cmp stream) row.0.0) subscribers.now.rows }
{
    rows_under(subscribers.rows(), stream.0)
}
