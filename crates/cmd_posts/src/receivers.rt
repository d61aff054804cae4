//! Who receives a message, and whether there is room for it.

ghost use Rattle.std.specs.Prelude.{◌≡◌, ◌≤◌, ◌+◌, ◌||◌, ◌&&◌, ◌==◌, IfOk, length, map, nat_lt};
ghost use Rattle.std.specs.List.Sorted.{IsStrictlySortedBy};
ghost use Rattle.ev_base.specs.Orders.{user_cmp};
ghost use Rattle.zr_types.specs.Commands.{direct_receivers, stream_receivers};
ghost use Rattle.zr_types.specs.Refusals.{max_messages, max_receipts, max_recipients};
ghost use Rattle.zr_types.specs.Visibility.{is_subscribed};

use cmd_rules::is_past;
use ev_base::{Listed, NoMemory, StreamId, UserId};
use std::alloc::Global;
use zr_realm::Realm;
use zr_types::User;

// How many messages there may ever be.
const MAX_MESSAGES: usize = 200_000;

// How many receipts there may be.
const MAX_RECEIPTS: usize = 4_000_000;

// How many users a direct message may name.
const MAX_RECIPIENTS: usize = 100;

// Whether the user receives a message to the stream.
fn receives(realm: &Realm, sender: UserId, stream: StreamId, user: &(UserId, User)) -> bool
    ensures { result ≡ ((user.now.1.is_active
        && is_subscribed realm.now.state.tables user.now.0 stream) || user.now.0.0 == sender.0) }
{
    (user.1.is_active && realm.is_subscribed(user.0, stream)) || user.0.0 == sender.0
}

/// The numbers of the users who receive a message to the stream, rising.
pub fn stream_receivers(
    alloc: Global,
    realm: &Realm,
    sender: UserId,
    stream: StreamId,
) -> Result<Listed<u32>, NoMemory>
    ensures { IfOk result (λ ids. ids
        ≡ map (λ user. user.0) (stream_receivers realm.now.state.tables sender stream)) }
{
    let ids = realm
        .people()
        .users_rows()
        .iter()
        .filter(|user| receives(realm, sender, stream, user))
        .map(|user| user.0.0)
        .collect(alloc)?;
    Ok(Listed::from_vec(ids))
}

fn count_stream_receivers(realm: &Realm, sender: UserId, stream: StreamId) -> usize
    ensures { result ≡ length (stream_receivers realm.now.state.tables sender stream) }
{
    let users = realm.people().users_rows();
    users
        .iter()
        .filter(|user| receives(realm, sender, stream, user))
        .count()
}

// Whether one more message, with these receipts, is more than there may be.
fn is_past_messages(realm: &Realm, receipts: usize) -> bool
    ensures { result ≡ (nat_lt max_messages (realm.now.state.sent + 1)
        || nat_lt max_receipts (length realm.now.state.tables.receipts + receipts)) }
{
    is_past(MAX_MESSAGES, realm.sent() as usize, 1)
        || is_past(MAX_RECEIPTS, realm.posts().receipts_rows().len(), receipts)
}

/// Whether a message to the stream is more than there may be. Its receivers are counted only where
/// there might not be room for them.
pub fn is_past_stream(realm: &Realm, sender: UserId, stream: StreamId) -> bool
    ensures { result ≡ (nat_lt max_messages (realm.now.state.sent + 1)
        || nat_lt max_receipts (length realm.now.state.tables.receipts
        + length (stream_receivers realm.now.state.tables sender stream))) }
{
    let users = realm.people().users_rows().len();
    is_past_messages(realm, users)
        && is_past_messages(realm, count_stream_receivers(realm, sender, stream))
}

/// Whether a direct message to these users is more than there may be, or they are too many.
pub fn is_past_direct(realm: &Realm, sender: UserId, users: &[UserId]) -> bool
    requires { IsStrictlySortedBy user_cmp users.now }
    ensures { result ≡ (nat_lt max_recipients (length users.now)
        || (nat_lt max_messages (realm.now.state.sent + 1)
        || nat_lt max_receipts (length realm.now.state.tables.receipts
        + length (direct_receivers sender users.now)))) }
{
    if MAX_RECIPIENTS < users.len() {
        return true;
    }
    is_past_messages(realm, count_with_sender(users, sender))
}

fn count_with_sender(users: &[UserId], sender: UserId) -> usize
    requires rise { IsStrictlySortedBy user_cmp users.now }
    requires few { length users.now ≤ max_recipients }
    ensures { result ≡ length (direct_receivers sender users.now) }
{
    match users.binary_search(&sender) {
        Ok(_) => users.len(),
        Err(_) => users.len() + 1,
    }
}

/// The sender put among the users of a direct message.
pub fn with_sender(mut users: Vec<UserId>, sender: UserId) -> Result<Vec<UserId>, NoMemory>
    requires { IsStrictlySortedBy user_cmp users.items }
    ensures { IfOk result (λ all. all.items ≡ direct_receivers sender users.items) }
{
    match users.binary_search(&sender) {
        Ok(_) => Ok(users),
        Err(place) => {
            users.insert(place, sender)?;
            Ok(users)
        }
    }
}

pub fn numbers(alloc: Global, users: &[UserId]) -> Result<Listed<u32>, NoMemory>
    ensures { IfOk result (λ ids. ids ≡ map (λ user. user.0) users.now) }
{
    let ids = users.iter().map(|user| user.0).collect(alloc)?;
    Ok(Listed::from_vec(ids))
}
