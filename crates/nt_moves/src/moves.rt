//! The parts of a move.

ghost use Rattle.std.specs.Prelude.{◌≡◌, ◌++◌, flat_map, IfOk};
ghost use Rattle.std.specs.List.{list_all};
ghost use Rattle.ev_rows.specs.Rows.{keys_of};
ghost use Rattle.nt_moves.specs.MoveParts.{all_movers, has_all, has_receipt, move_parts, mover_in, own_parts, shared_parts};

use crate::told::push_told;
use ev_base::{Listed, MessageId, NoMemory, StreamId, Text, UserId};
use ev_types::{Event, Part};
use nt_parts::{keys, push_to_one, push_to_users};
use std::alloc::Global;
use zr_realm::Realm;
use zr_types::User;
use zr_view::sifted;

/// Messages of one stream that move to a topic of a stream, which may be the same.
#[derive(Drop)]
pub struct Move<'a> {
    pub from: StreamId,
    pub into: StreamId,
    pub topic: &'a Text,
    pub moved: &'a [MessageId],
}

/// Adds what a move tells: one part to those who see both streams and have all the messages, and to
/// each other user what changes for that user.
pub fn push_moves(realm: &Realm, moves: &Move<'_>, parts: &mut Vec<Part>) -> Result<(), NoMemory>
    ensures { IfOk result (λ _. parts.new.items ≡ parts.old.items
        ++ move_parts realm.now.state.tables moves.now.from moves.now.into moves.now.topic.now moves.now.moved.now) }
{
    push_shared(realm, moves, parts)?;
    push_each_own(realm, moves, parts)
}

fn push_shared(realm: &Realm, moves: &Move<'_>, parts: &mut Vec<Part>) -> Result<(), NoMemory>
    ensures { IfOk result (λ _. parts.new.items ≡ parts.old.items
        ++ shared_parts realm.now.state.tables moves.now.from moves.now.into moves.now.topic.now moves.now.moved.now) }
{
    if moves.moved.is_empty() {
        return Ok(());
    }
    let alloc = *parts.allocator();
    let users = all_movers(alloc, realm, moves)?;
    let event = Event::MessageMoved {
        messages: Listed::from_vec(moves.moved.to_vec(alloc)?),
        stream: moves.into,
        topic: moves.topic.clone()?,
    };
    push_to_users(parts, users, event)
}

// The users who see both streams and have all the messages.
fn all_movers(alloc: Global, realm: &Realm, moves: &Move<'_>) -> Result<Vec<UserId>, NoMemory>
    ensures { IfOk result (λ users. users.items ≡ keys_of
        (all_movers realm.now.state.tables moves.now.from moves.now.into moves.now.topic.now moves.now.moved.now)) }
{
    let rows = realm.people().users_rows();
    let users = sifted(alloc, rows, |row| Ok(mover_in(realm, moves, row)))?;
    keys(alloc, &users)
}

fn mover_in(realm: &Realm, moves: &Move<'_>, row: &(UserId, User)) -> Option<()>
    ensures { result ≡ mover_in realm.now.state.tables moves.now.from moves.now.into moves.now.topic.now
        moves.now.moved.now row.now }
{
    if has_all(realm, moves, row.0) {
        Some(())
    } else {
        None
    }
}

fn has_all(realm: &Realm, moves: &Move<'_>, user: UserId) -> bool
    ensures { result ≡ has_all realm.now.state.tables moves.now.from moves.now.into moves.now.topic.now
        moves.now.moved.now user }
{
    realm.sees_stream(user, moves.from)
        && realm.sees_stream(user, moves.into)
        && has_receipts(realm, moves.moved, user)
}

fn has_receipts(realm: &Realm, messages: &[MessageId], user: UserId) -> bool
    ensures { result ≡ list_all (has_receipt realm.now.state.tables user) messages.now }
{
    messages
        .iter()
        .all(|message| realm.has_receipt(user, *message))
}

fn push_each_own(realm: &Realm, moves: &Move<'_>, parts: &mut Vec<Part>) -> Result<(), NoMemory>
    ensures { IfOk result (λ _. parts.new.items ≡ parts.old.items ++ flat_map
        (own_parts realm.now.state.tables moves.now.from moves.now.into moves.now.topic.now moves.now.moved.now)
        realm.now.state.tables.users) }
{
    for row in realm.people().users_rows() {
        push_own(realm, moves, row, parts)?;
    }
    Ok(())
}

fn push_own(
    realm: &Realm,
    moves: &Move<'_>,
    row: &(UserId, User),
    parts: &mut Vec<Part>,
) -> Result<(), NoMemory>
    ensures { IfOk result (λ _. parts.new.items ≡ parts.old.items
        ++ own_parts realm.now.state.tables moves.now.from moves.now.into moves.now.topic.now
        moves.now.moved.now row.now) }
{
    if has_all(realm, moves, row.0) {
        return Ok(());
    }
    let mut events = Vec::new(*parts.allocator());
    push_told(realm, moves, row.0, &mut events)?;
    push_to_one(parts, row.0, events)
}
