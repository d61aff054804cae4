//! What notices tell the users who have a queue: a walk over each audience, and not over each
//! queue's user.

ghost use Rattle.std.specs.Prelude.{◌≡◌, ◌++◌, ◌∷◌, IfOk, flat_map, map, true, Some, [], None};
ghost use Rattle.std.specs.Option.{option_map};
ghost use Rattle.std.specs.Map.{lookup};
ghost use Rattle.ev_base.specs.declared.ids.UserId.{UserId};
ghost use Rattle.ev_types.specs.declared.notice.Audience.TheVariants as audience;
ghost use Rattle.ev_types.specs.OneSection.{received};
ghost use Rattle.zw_traces.specs.Account.{same_user};
ghost use Rattle.q_shard.specs.Hearing.{HeardAll, events_heard, has_queue, heard_events, with_part_for};

use crate::heard::Heard;
use ev_base::{NoMemory, QueueId, UserId};
use ev_types::{Audience, Event, Notice, Part, Types};
use indexmap::IndexMap;
use std::alloc::Global;

/// What each of some users hears.
pub type Told<'a> = IndexMap<UserId, Heard<'a>>;

/// What the notices tell the users of these queues.
pub fn tell<'a>(
    alloc: Global,
    queues: &[QueueId],
    notices: &'a [Notice],
) -> Result<Told<'a>, NoMemory>
    ensures { IfOk result (λ told. HeardAll queues.now notices.now told.entries) }
{
    let parts = parts_of(alloc, notices)?;
    let mut told = listeners(alloc, queues)?;
    tell_parts(&mut told, &parts)?;
    Ok(told)
}

/// The events of these types that the user hears.
pub fn received_by<'a>(
    told: &Told<'a>,
    alloc: Global,
    user: UserId,
    types: &Types,
) -> Result<Vec<Event>, NoMemory>
    ensures { IfOk result (λ events. events.items
        ≡ received types.now (events_heard told.now.entries user)) }
{
    match told.get(&user) {
        Some(heard) => heard.received(alloc, types),
        None => Ok(Vec::new(alloc)),
    }
}

// The parts of the notices in one row.
fn parts_of<'a>(alloc: Global, notices: &'a [Notice]) -> Result<Vec<&'a Part>, NoMemory>
    ensures { IfOk result (λ parts. map (λ part. part.now) parts.items
        ≡ flat_map (λ notice. notice.parts) notices.now) }
{
    let mut parts = Vec::new(alloc);
    for notice in notices {
        add_parts(&mut parts, notice.parts.as_slice())?;
    }
    Ok(parts)
}

fn add_parts<'a>(row: &mut Vec<&'a Part>, parts: &'a [Part]) -> Result<(), NoMemory>
    ensures { IfOk result (λ _. map (λ part. part.now) row.new.items
        ≡ map (λ part. part.now) row.old.items ++ parts.now) }
{
    for part in parts {
        row.push(part)?;
    }
    Ok(())
}

// The users of the queues, who heard nothing yet.
fn listeners<'a>(alloc: Global, queues: &[QueueId]) -> Result<Told<'a>, NoMemory>
    ensures { IfOk result (λ told. (user : UserId) → has_queue queues.now user ≡ true
        → lookup (same_user user) told.entries ≡ Some (record { events = []; last = None })) }
{
    let mut told = IndexMap::new(alloc);
    for queue in queues {
        told.insert(queue.user, Heard::new(alloc))?;
    }
    Ok(told)
}

// Tells each part to its audience.
fn tell_parts<'a>(told: &mut Told<'a>, parts: &[&'a Part]) -> Result<(), NoMemory>
    ensures { IfOk result (λ _. (user : UserId)
        → lookup (same_user user) told.old.entries ≡ Some (record { events = []; last = None })
        → events_heard told.new.entries user ≡ heard_events user (map (λ part. part.now) parts.now)) }
{
    for (place, part) in parts.iter().enumerate() {
        tell_part(told, &part.audience, place, &part.event)?;
    }
    Ok(())
}

// Tells a part to its audience.
fn tell_part<'a>(
    told: &mut Told<'a>,
    audience: &Audience,
    place: usize,
    event: &'a Event,
) -> Result<(), NoMemory>
    ensures { IfOk result (λ _. (user : UserId) → lookup (same_user user) told.new.entries
        ≡ option_map (with_part_for user audience.now place event.now)
        (lookup (same_user user) told.old.entries)) }
{
    match audience {
        Audience::Everyone => tell_everyone(told, place, event),
        Audience::Only(users) => tell_users(told, users.as_slice(), place, event),
    }
}

fn tell_everyone<'a>(told: &mut Told<'a>, place: usize, event: &'a Event) -> Result<(), NoMemory>
    ensures { IfOk result (λ _. (user : UserId) → lookup (same_user user) told.new.entries
        ≡ option_map (with_part_for user audience.Everyone place event.now)
        (lookup (same_user user) told.old.entries)) }
{
    for at in 0..told.len() {
        let (_, heard) = told.pair_mut(at);
        heard.add(place, event)?;
    }
    Ok(())
}

fn tell_users<'a>(
    told: &mut Told<'a>,
    users: &[UserId],
    place: usize,
    event: &'a Event,
) -> Result<(), NoMemory>
    ensures { IfOk result (λ _. (user : UserId) → lookup (same_user user) told.new.entries
        ≡ option_map (with_part_for user (audience.Only users.now) place event.now)
        (lookup (same_user user) told.old.entries)) }
{
    for user in users {
        tell_user(told, *user, place, event)?;
    }
    Ok(())
}

fn tell_user<'a>(
    told: &mut Told<'a>,
    user: UserId,
    place: usize,
    event: &'a Event,
) -> Result<(), NoMemory>
    ensures { IfOk result (λ _. (other : UserId) → lookup (same_user other) told.new.entries
        ≡ option_map (with_part_for other (audience.Only (user ∷ [])) place event.now)
        (lookup (same_user other) told.old.entries)) }
{
    match told.get_mut(&user) {
        Some(heard) => heard.add(place, event),
        None => Ok(()),
    }
}
