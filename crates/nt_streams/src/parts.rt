//! The parts of the notice of a turn.

ghost use Rattle.std.specs.Prelude.{◌≡◌, ◌++◌, [], ◌∷◌, if◌then◌else◌, IfOk, option_copied};
ghost use Rattle.ev_rows.specs.Rows.{keys_of, one_of};
ghost use Rattle.ev_types.specs.declared.event.Event.{Event};
ghost use Rattle.ev_types.specs.declared.notice.Audience.{Audience};
ghost use Rattle.nt_rules.specs.Parts.{to};
ghost use Rattle.nt_streams.specs.StreamParts.{finder_parts, keeper_parts, loser_parts, those, told, turn_parts};
ghost use Rattle.nt_streams.specs.Sights.{has_sight, own_change_part, peer_change_part};
ghost use Rattle.nt_streams.specs.Turned.{peers_after};

use crate::changed::{changed, found, own_change, peer_change};
use crate::own::{Own, push_each_own};
use crate::sight::{Sight, has_sight, peers_after, those};
use crate::turn::Turn;
use ev_base::{Listed, NoMemory, UserId};
use ev_laws::push_one_of;
use ev_types::{Audience, Event, Part};
use nt_parts::push_to_one;
use std::alloc::Global;
use zr_realm::Realm;

/// The parts of the notice of a turn.
pub fn turn_parts(alloc: Global, realm: &Realm, turn: &Turn) -> Result<Vec<Part>, NoMemory>
    ensures { IfOk result
        (λ parts. parts.items ≡ turn_parts realm.now.state.tables turn.now) }
{
    let mut parts = Vec::new(alloc);
    push_finder_parts(realm, turn, &mut parts)?;
    push_keeper_parts(realm, turn, &mut parts)?;
    push_loser_parts(realm, turn, &mut parts)?;
    Ok(parts)
}

fn push_finder_parts(realm: &Realm, turn: &Turn, parts: &mut Vec<Part>) -> Result<(), NoMemory>
    ensures { IfOk result (λ _. parts.new.items
        ≡ parts.old.items ++ finder_parts realm.now.state.tables turn.now) }
{
    let alloc = *parts.allocator();
    let users = those(alloc, realm, turn, Sight::Found)?;
    if users.is_empty() {
        return Ok(());
    }
    push_told(&users, found(alloc, turn)?, parts)?;
    push_each_own(realm, turn, Own::Subscription, &users, parts)?;
    push_told(&users, found_peers(alloc, realm, turn)?, parts)?;
    push_each_own(realm, turn, Own::Messages, &users, parts)
}

// The subscribers of a stream that is found.
fn found_peers(alloc: Global, realm: &Realm, turn: &Turn) -> Result<Vec<Event>, NoMemory>
    ensures { IfOk result (λ events. events.items ≡ one_of (Event.PeerAdd turn.now.stream)
        (keys_of (peers_after realm.now.state.tables turn.now))) }
{
    let mut events = Vec::new(alloc);
    let users = peers_after(alloc, realm, turn)?;
    let stream = turn.stream;
    push_one_of(&mut events, users, |users| Event::PeerAdd { stream, users })?;
    Ok(events)
}

fn push_keeper_parts(realm: &Realm, turn: &Turn, parts: &mut Vec<Part>) -> Result<(), NoMemory>
    ensures { IfOk result (λ _. parts.new.items
        ≡ parts.old.items ++ keeper_parts realm.now.state.tables turn.now) }
{
    let alloc = *parts.allocator();
    let users = those(alloc, realm, turn, Sight::Kept)?;
    push_told(&users, changed(alloc, realm, turn)?, parts)?;
    push_own_change(realm, turn, parts)?;
    push_peer_change(realm, turn, &users, parts)
}

fn push_own_change(realm: &Realm, turn: &Turn, parts: &mut Vec<Part>) -> Result<(), NoMemory>
    ensures { IfOk result (λ _. parts.new.items
        ≡ parts.old.items ++ own_change_part realm.now.state.tables turn.now) }
{
    if !has_sight(realm, turn, Sight::Kept, turn.user) {
        return Ok(());
    }
    let old = realm.subscription(turn.user, turn.stream);
    let events = own_change(*parts.allocator(), turn, old, turn.subscription.as_ref())?;
    push_to_one(parts, turn.user, events)
}

fn push_peer_change(
    realm: &Realm,
    turn: &Turn,
    users: &[UserId],
    parts: &mut Vec<Part>,
) -> Result<(), NoMemory>
    ensures { IfOk result (λ _. parts.new.items
        ≡ parts.old.items ++ peer_change_part realm.now.state.tables turn.now users.now) }
{
    if !realm.is_active_user(turn.user) {
        return Ok(());
    }
    let old = realm.subscription(turn.user, turn.stream);
    let events = peer_change(*parts.allocator(), turn, old, turn.subscription.as_ref())?;
    push_told(users, events, parts)
}

fn push_loser_parts(realm: &Realm, turn: &Turn, parts: &mut Vec<Part>) -> Result<(), NoMemory>
    ensures { IfOk result (λ _. parts.new.items
        ≡ parts.old.items ++ loser_parts realm.now.state.tables turn.now) }
{
    let alloc = *parts.allocator();
    let losers = those(alloc, realm, turn, Sight::Lost)?;
    push_told(&losers, deleted(alloc, turn)?, parts)?;
    let users = those(alloc, realm, turn, Sight::Left)?;
    push_told(&users, left(alloc, turn)?, parts)?;
    push_each_own(realm, turn, Own::Gone, &losers, parts)
}

fn deleted(alloc: Global, turn: &Turn) -> Result<Vec<Event>, NoMemory>
    ensures { IfOk result
        (λ events. events.items ≡ Event.StreamDelete (turn.now.stream ∷ []) ∷ []) }
{
    let streams = vec![in alloc; turn.stream]?;
    Ok(vec![in alloc; Event::StreamDelete(Listed::from_vec(streams))]?)
}

fn left(alloc: Global, turn: &Turn) -> Result<Vec<Event>, NoMemory>
    ensures { IfOk result
        (λ events. events.items ≡ Event.SubRemove (turn.now.stream ∷ []) ∷ []) }
{
    let streams = vec![in alloc; turn.stream]?;
    Ok(vec![in alloc; Event::SubRemove(Listed::from_vec(streams))]?)
}

// Adds a part for each event, which these users hear, and none where there is nobody.
fn push_told(users: &[UserId], events: Vec<Event>, parts: &mut Vec<Part>) -> Result<(), NoMemory>
    ensures { IfOk result
        (λ _. parts.new.items ≡ parts.old.items ++ told users.now events.items) }
{
    if users.is_empty() {
        return Ok(());
    }
    push_to(users, events, parts)
}

fn push_to(users: &[UserId], events: Vec<Event>, parts: &mut Vec<Part>) -> Result<(), NoMemory>
    ensures { IfOk result (λ _. parts.new.items
        ≡ parts.old.items ++ to (Audience.Only users.now) events.items) }
{
    let alloc = *parts.allocator();
    for event in events {
        let audience = Audience::Only(Listed::from_vec(users.to_vec(alloc)?));
        parts.push(Part { audience, event })?;
    }
    Ok(())
}
