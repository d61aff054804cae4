//! What a user is told of streams and messages that come.

ghost use Rattle.std.specs.Prelude.{◌≡◌, ◌++◌, flat_map, map, option_copied, IfOk};
ghost use Rattle.ev_rows.specs.Rows.{keys_of, one_of};
ghost use Rattle.ev_types.specs.declared.event.Event.{Event};
ghost use Rattle.ev_types.specs.Changes.{arrivals, full_message};
ghost use Rattle.zr_types.specs.Visibility.{sees_by};
ghost use Rattle.zw_views.specs.Views.{peers};

use crate::audiences::peers;
use ev_base::{MessageId, NoMemory, Privacy, Role, StreamId};
use ev_laws::{push_all_new, push_one_of, with_reactions};
use ev_types::{Event, ShownMessage};
use zr_realm::Realm;
use zr_types::Stream;

/// Adds the subscribers of each of these streams.
pub fn push_subscribers(
    realm: &Realm,
    streams: &[StreamId],
    events: &mut Vec<Event>,
) -> Result<(), NoMemory>
    ensures { IfOk result (λ _. events.new.items ≡ events.old.items
        ++ flat_map (λ stream. one_of (Event.PeerAdd stream)
        (keys_of (peers realm.now.state.tables stream))) streams.now) }
{
    for stream in streams {
        push_subscribers_of(realm, *stream, events)?;
    }
    Ok(())
}

/// Adds the subscribers of a stream.
pub fn push_subscribers_of(
    realm: &Realm,
    stream: StreamId,
    events: &mut Vec<Event>,
) -> Result<(), NoMemory>
    ensures { IfOk result (λ _. events.new.items ≡ events.old.items
        ++ one_of (Event.PeerAdd stream) (keys_of (peers realm.now.state.tables stream))) }
{
    let users = peers(*events.allocator(), realm, stream)?;
    push_one_of(events, users, |users| Event::PeerAdd { stream, users })
}

/// Whether a user of this role sees a stream. Without a role the user isn't there.
pub fn sees_by(role: Option<Role>, stream: Option<&Stream>, is_subscribed: bool) -> bool
    ensures { result ≡ sees_by role (option_copied stream.entry) is_subscribed }
{
    let Some(role) = role else {
        return false;
    };
    let Some(row) = stream else {
        return false;
    };
    let is_open = matches!(row.privacy, Privacy::Public) && !matches!(role, Role::Guest);
    !row.archived && (is_subscribed || is_open)
}

/// Adds messages with their reactions.
pub fn push_arrived(
    realm: &Realm,
    shown: Vec<(MessageId, ShownMessage)>,
    events: &mut Vec<Event>,
) -> Result<(), NoMemory>
    ensures { IfOk result (λ _. events.new.items ≡ events.old.items
        ++ arrivals (map (full_message realm.now.state.tables.reactions) shown.items)) }
{
    let alloc = *events.allocator();
    let reactions = realm.marks().reactions_rows();
    let mut messages = Vec::new(alloc);
    for (message, row) in shown {
        messages.push(with_reactions(alloc, reactions, message, row)?)?;
    }
    push_all_new(events, messages)
}
