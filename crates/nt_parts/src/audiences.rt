//! Parts with their audiences, and the users who see a stream or subscribe to it.

ghost use Rattle.std.specs.Prelude.{◌≡◌, [], ◌∷◌, ◌++◌, IfOk, IfSome};
ghost use Rattle.std.proofs.Common.{rules};
ghost use Rattle.ev_rows.specs.Rows.{keys_of, only_if};
ghost use Rattle.ev_types.specs.declared.notice.Audience.{Audience};
ghost use Rattle.nt_rules.specs.Parts.{to, viewers};
ghost use Rattle.zr_types.specs.Visibility.{is_subscribed, sees_stream};
ghost use Rattle.zw_views.specs.Views.{peers};
ghost use Rattle.nt_parts.specs.UserCells.{peer_in, viewer_in};

use ev_base::{Keyed, Listed, NoMemory, StreamId, UserId};
use ev_types::{Audience, Event, Part};
use std::alloc::Global;
use zr_realm::Realm;
use zr_types::User;
use zr_view::sifted;

/// Adds a part that every user number hears.
pub fn push_to_everyone(parts: &mut Vec<Part>, event: Event) -> Result<(), NoMemory>
    ensures { IfOk result
        (λ _. parts.new.items ≡ parts.old.items ++ to Audience.Everyone (event ∷ [])) }
{
    let audience = Audience::Everyone;
    Ok(parts.push(Part { audience, event })?)
}

/// Adds a part for each event, which one user alone hears.
pub fn push_to_one(parts: &mut Vec<Part>, user: UserId, events: Vec<Event>) -> Result<(), NoMemory>
    ensures { IfOk result (λ _. parts.new.items
        ≡ parts.old.items ++ to (Audience.Only (user ∷ [])) events.items) }
{
    let alloc = *parts.allocator();
    for event in events {
        let audience = Audience::Only(Listed::from_vec(vec![in alloc; user]?));
        parts.push(Part { audience, event })?;
    }
    Ok(())
}

/// Adds a part that these users alone hear.
pub fn push_to_users(
    parts: &mut Vec<Part>,
    users: Vec<UserId>,
    event: Event,
) -> Result<(), NoMemory>
    ensures { IfOk result (λ _. parts.new.items
        ≡ parts.old.items ++ to (Audience.Only users.items) (event ∷ [])) }
{
    let audience = Audience::Only(Listed::from_vec(users));
    Ok(parts.push(Part { audience, event })?)
}

/// Adds a part that those hear who see a stream.
pub fn push_to_viewers(
    realm: &Realm,
    stream: StreamId,
    event: Event,
    parts: &mut Vec<Part>,
) -> Result<(), NoMemory>
    ensures { IfOk result (λ _. parts.new.items ≡ parts.old.items
        ++ to (Audience.Only (keys_of (viewers realm.now.state.tables stream))) (event ∷ [])) }
{
    let users = viewers(*parts.allocator(), realm, stream)?;
    push_to_users(parts, users, event)
}

/// The users who see a stream.
pub fn viewers(alloc: Global, realm: &Realm, stream: StreamId) -> Result<Vec<UserId>, NoMemory>
    ensures { IfOk result
        (λ users. users.items ≡ keys_of (viewers realm.now.state.tables stream)) }
{
    let rows = realm.people().users_rows();
    let users = sifted(alloc, rows, |row| Ok(viewer_in(realm, stream, row)))?;
    keys(alloc, &users)
}

fn viewer_in(realm: &Realm, stream: StreamId, row: &(UserId, User)) -> Option<()>
    ensures { result ≡ viewer_in realm.now.state.tables stream row.now }
{
    if realm.sees_stream(row.0, stream) {
        Some(())
    } else {
        None
    }
}

/// The active subscribers of a stream.
pub fn peers(alloc: Global, realm: &Realm, stream: StreamId) -> Result<Vec<UserId>, NoMemory>
    ensures { IfOk result
        (λ users. users.items ≡ keys_of (peers realm.now.state.tables stream)) }
{
    let rows = realm.people().users_rows();
    let users = sifted(alloc, rows, |row| Ok(peer_in(realm, stream, row)))?;
    keys(alloc, &users)
}

fn peer_in(realm: &Realm, stream: StreamId, row: &(UserId, User)) -> Option<()>
    ensures { result ≡ peer_in realm.now.state.tables stream row.now }
{
    if row.1.is_active && realm.is_subscribed(row.0, stream) {
        Some(())
    } else {
        None
    }
}

/// The keys of rows.
pub fn keys<K: Ord + Copy, V>(alloc: Global, rows: &Keyed<K, V>) -> Result<Vec<K>, NoMemory>
    ensures { IfOk result (λ keys. keys.items ≡ keys_of rows.now.rows) }
{
    let mut keys = Vec::new(alloc);
    for row in rows.rows() {
        keys.push(row.0)?;
    }
    Ok(keys)
}
