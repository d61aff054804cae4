//! Who finds, keeps and loses the stream of a turn.

ghost use Rattle.std.specs.Prelude.{◌≡◌, ◌&&◌, [], ◌∷◌, if◌then◌else◌, IfOk, is_some, not, option_copied, true, ◌≢◌};
ghost use Rattle.ev_rows.specs.Rows.{SortedByKey, keys_of};
ghost use Rattle.ev_base.specs.Orders.{user_cmp};
ghost use Rattle.zr_types.specs.Visibility.{role_of};
ghost use Rattle.nt_streams.specs.StreamParts.{those};
ghost use Rattle.nt_streams.specs.Turned.{peers_after, sees, subscription_after};
ghost use Rattle.nt_streams.specs.Sights.{IsAsOpen, has_sight, peer_in, user_in};

use crate::turn::Turn;
use ev_base::{NoMemory, Role, UserId};
use nt_parts::{keys, sees_by};
use std::alloc::Global;
use zr_realm::Realm;
use zr_types::{Stream, Subscription, User};
use zr_view::sifted;

/// How a turn changes a user's sight of its stream.
#[derive(Clone, Copy, Debug)]
pub enum Sight {
    Found,
    Kept,
    Lost,
    /// Lost by a subscriber.
    Left,
}

/// The users who have this sight.
pub fn those(
    alloc: Global,
    realm: &Realm,
    turn: &Turn,
    sight: Sight,
) -> Result<Vec<UserId>, NoMemory>
    ensures { IfOk result (λ users. users.items
        ≡ those realm.now.state.tables (has_sight realm.now.state.tables turn.now sight)) }
{
    let rows = realm.people().users_rows();
    match sight {
        Sight::Kept => all_those(alloc, realm, turn, sight, rows),
        _ => movers(alloc, realm, turn, sight, rows),
    }
}

// The users who find or lose the stream. Where its row stays as open as it was, that is the turn's user
// at most.
fn movers(
    alloc: Global,
    realm: &Realm,
    turn: &Turn,
    sight: Sight,
    rows: &[(UserId, User)],
) -> Result<Vec<UserId>, NoMemory>
    requires users { rows.now ≡ realm.now.state.tables.users }
    requires rise { SortedByKey user_cmp rows.now }
    requires moves { sight ≢ Sight.Kept }
    ensures { IfOk result (λ users. users.items
        ≡ those realm.now.state.tables (has_sight realm.now.state.tables turn.now sight)) }
{
    if !stays_as_open(realm.stream(turn.stream), turn.row.as_ref()) {
        return all_those(alloc, realm, turn, sight, rows);
    }
    only(alloc, turn.user, has_sight(realm, turn, sight, turn.user))
}

// The user, or nobody.
fn only(alloc: Global, user: UserId, is_there: bool) -> Result<Vec<UserId>, NoMemory>
    ensures { IfOk result (λ users. users.items ≡ if is_there then user ∷ [] else []) }
{
    if is_there {
        return Ok(vec![in alloc; user]?);
    }
    Ok(Vec::new(alloc))
}

// Whether the same users see the stream by both rows.
fn stays_as_open(old: Option<&Stream>, new: Option<&Stream>) -> bool
    ensures { result ≡ true → IsAsOpen (option_copied old.entry) (option_copied new.entry) }
{
    match (old, new) {
        (None, None) => true,
        (Some(old), Some(new)) => old.archived == new.archived && old.privacy == new.privacy,
        _ => false,
    }
}

fn all_those(
    alloc: Global,
    realm: &Realm,
    turn: &Turn,
    sight: Sight,
    rows: &[(UserId, User)],
) -> Result<Vec<UserId>, NoMemory>
    requires users { rows.now ≡ realm.now.state.tables.users }
    requires rise { SortedByKey user_cmp rows.now }
    ensures { IfOk result (λ users. users.items
        ≡ those realm.now.state.tables (has_sight realm.now.state.tables turn.now sight)) }
{
    let users = sifted(alloc, rows, |row| Ok(user_in(realm, turn, sight, row)))?;
    keys(alloc, &users)
}

fn user_in(realm: &Realm, turn: &Turn, sight: Sight, row: &(UserId, User)) -> Option<()>
    ensures { result ≡ user_in realm.now.state.tables turn.now sight row.now }
{
    if has_sight(realm, turn, sight, row.0) {
        Some(())
    } else {
        None
    }
}

pub fn has_sight(realm: &Realm, turn: &Turn, sight: Sight, user: UserId) -> bool
    ensures { result ≡ has_sight realm.now.state.tables turn.now sight user }
{
    let saw = realm.sees_stream(user, turn.stream);
    let sees = sees(realm, turn, user);
    match sight {
        Sight::Found => sees && !saw,
        Sight::Kept => sees && saw,
        Sight::Lost => saw && !sees,
        Sight::Left => saw && !sees && realm.is_subscribed(user, turn.stream),
    }
}

fn sees(realm: &Realm, turn: &Turn, user: UserId) -> bool
    ensures { result ≡ sees realm.now.state.tables turn.now user }
{
    let is_subscribed = subscription_after(realm, turn, user).is_some();
    sees_by(role_of(realm, user), turn.row.as_ref(), is_subscribed)
}

fn role_of(realm: &Realm, user: UserId) -> Option<Role>
    ensures { result ≡ role_of realm.now.state.tables user }
{
    match realm.user(user) {
        Some(row) => Some(row.role),
        None => None,
    }
}

/// A user's subscription to the stream afterwards.
pub fn subscription_after<'a>(
    realm: &'a Realm,
    turn: &'a Turn,
    user: UserId,
) -> Option<&'a Subscription>
    ensures { option_copied result
        ≡ subscription_after realm.now.state.tables turn.now user }
{
    if turn.user == user {
        turn.subscription.as_ref()
    } else {
        realm.subscription(user, turn.stream)
    }
}

/// The active subscribers of the stream afterwards.
pub fn peers_after(alloc: Global, realm: &Realm, turn: &Turn) -> Result<Vec<UserId>, NoMemory>
    ensures { IfOk result
        (λ users. users.items ≡ keys_of (peers_after realm.now.state.tables turn.now)) }
{
    let rows = realm.people().users_rows();
    let users = sifted(alloc, rows, |row| Ok(peer_in(realm, turn, row)))?;
    keys(alloc, &users)
}

fn peer_in(realm: &Realm, turn: &Turn, row: &(UserId, User)) -> Option<()>
    ensures { result ≡ peer_in realm.now.state.tables turn.now row.now }
{
    if row.1.is_active && subscription_after(realm, turn, row.0).is_some() {
        Some(())
    } else {
        None
    }
}
