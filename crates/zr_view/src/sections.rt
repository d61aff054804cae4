//! The sections that are made of one table, row by row.

ghost use Rattle.std.specs.Prelude.{◌≡◌, IfOk, option_copied};
ghost use Rattle.zw_views.specs.RowViews.{message_in, reaction_in, receipt_in, starred_in, stream_in, subscription_in, unread_in};
ghost use Rattle.zw_views.specs.Views as view;

use crate::shown::{shown_message, shown_stream, shown_subscription, shown_user};
use crate::sift::sifted;
use ev_base::{Keyed, MessageId, NoMemory, Place, StreamId, Text, UserId};
use ev_types::{ShownMessage, ShownStream, ShownSubscription, ShownUser};
use std::alloc::Global;
use zr_realm::Realm;
use zr_types::{Message, Receipt, Stream};

pub fn realm_users(alloc: Global, realm: &Realm) -> Result<Keyed<UserId, ShownUser>, NoMemory>
    ensures { IfOk result (λ shown. shown.rows ≡ view.realm_users realm.now.state.tables) }
{
    let rows = realm.people().users_rows();
    sifted(alloc, rows, |row| Ok(Some(shown_user(&row.1)?)))
}

pub fn streams(
    alloc: Global,
    realm: &Realm,
    user: UserId,
) -> Result<Keyed<StreamId, ShownStream>, NoMemory>
    ensures { IfOk result (λ shown. shown.rows ≡ view.streams realm.now.state.tables user) }
{
    let rows = realm.streams().streams_rows();
    sifted(alloc, rows, |row| stream_in(realm, user, row))
}

fn stream_in(
    realm: &Realm,
    user: UserId,
    row: &(StreamId, Stream),
) -> Result<Option<ShownStream>, NoMemory>
    ensures { IfOk result (λ shown. shown ≡ stream_in realm.now.state.tables user row.now) }
{
    if !realm.sees_stream(user, row.0) {
        return Ok(None);
    }
    Ok(Some(shown_stream(&row.1)?))
}

pub fn subscriptions(
    alloc: Global,
    realm: &Realm,
    user: UserId,
) -> Result<Keyed<StreamId, ShownSubscription>, NoMemory>
    ensures { IfOk result (λ shown. shown.rows ≡ view.subscriptions realm.now.state.tables user) }
{
    let rows = realm.streams().streams_rows();
    sifted(alloc, rows, |row| subscription_in(realm, user, row))
}

fn subscription_in(
    realm: &Realm,
    user: UserId,
    row: &(StreamId, Stream),
) -> Result<Option<ShownSubscription>, NoMemory>
    ensures { IfOk result (λ shown. shown ≡ subscription_in realm.now.state.tables user row.now) }
{
    if !realm.sees_stream(user, row.0) {
        return Ok(None);
    }
    match realm.subscription(user, row.0) {
        Some(subscription) => Ok(Some(shown_subscription(subscription)?)),
        None => Ok(None),
    }
}

pub fn messages(
    alloc: Global,
    realm: &Realm,
    user: UserId,
) -> Result<Keyed<MessageId, ShownMessage>, NoMemory>
    ensures { IfOk result (λ shown. shown.rows ≡ view.messages realm.now.state.tables user) }
{
    let rows = realm.posts().messages_rows();
    sifted(alloc, rows, |row| message_in(realm, user, row))
}

fn message_in(
    realm: &Realm,
    user: UserId,
    row: &(MessageId, Message),
) -> Result<Option<ShownMessage>, NoMemory>
    ensures { IfOk result (λ shown. shown ≡ message_in realm.now.state.tables user row.now) }
{
    match receipt_in(realm, user, row.0) {
        Some(receipt) => Ok(Some(shown_message(&row.1, &receipt)?)),
        None => Ok(None),
    }
}

// The user's receipt of a message that the user sees.
fn receipt_in(realm: &Realm, user: UserId, message: MessageId) -> Option<Receipt>
    ensures { result ≡ receipt_in realm.now.state.tables user message }
{
    let receipt = *realm.receipt(user, message)?;
    if realm.sees_message(user, message) {
        Some(receipt)
    } else {
        None
    }
}

pub fn reactions(
    alloc: Global,
    realm: &Realm,
    user: UserId,
) -> Result<Keyed<(MessageId, UserId, Text), ()>, NoMemory>
    ensures { IfOk result (λ shown. shown.rows ≡ view.reactions realm.now.state.tables user) }
{
    let rows = realm.marks().reactions_rows();
    sifted(alloc, rows, |row| Ok(reaction_in(realm, user, row)))
}

fn reaction_in(realm: &Realm, user: UserId, row: &((MessageId, UserId, Text), ())) -> Option<()>
    ensures { result ≡ reaction_in realm.now.state.tables user row.now }
{
    receipt_in(realm, user, row.0.0).map(|_| ())
}

pub fn starred_messages(
    alloc: Global,
    realm: &Realm,
    user: UserId,
) -> Result<Keyed<MessageId, ()>, NoMemory>
    ensures { IfOk result (λ shown. shown.rows ≡ view.starred_messages realm.now.state.tables user) }
{
    let rows = realm.posts().messages_rows();
    sifted(alloc, rows, |row| Ok(starred_in(realm, user, row)))
}

fn starred_in(realm: &Realm, user: UserId, row: &(MessageId, Message)) -> Option<()>
    ensures { result ≡ starred_in realm.now.state.tables user row.now }
{
    let receipt = receipt_in(realm, user, row.0)?;
    if receipt.starred { Some(()) } else { None }
}

pub fn unread_messages(
    alloc: Global,
    realm: &Realm,
    user: UserId,
) -> Result<Keyed<MessageId, Place>, NoMemory>
    ensures { IfOk result (λ shown. shown.rows ≡ view.unread_messages realm.now.state.tables user) }
{
    let rows = realm.posts().messages_rows();
    sifted(alloc, rows, |row| unread_in(realm, user, row))
}

fn unread_in(
    realm: &Realm,
    user: UserId,
    row: &(MessageId, Message),
) -> Result<Option<Place>, NoMemory>
    ensures { IfOk result (λ shown. shown ≡ unread_in realm.now.state.tables user row.now) }
{
    match receipt_in(realm, user, row.0) {
        Some(receipt) if !receipt.read => Ok(Some(row.1.place.clone()?)),
        _ => Ok(None),
    }
}
