//! Changes of flags that become one item.

ghost use Rattle.std.specs.Prelude.{◌≡◌, ◌<◌, ◌≤◌, ◌++◌, ◌∷◌, ℕ, true, List, [], IfOk, fold, length, slice_index_or, vec_len};
ghost use Rattle.ev_types.specs.declared.event.Event.TheVariants.{Flags};
ghost use Rattle.ev_groups.specs.Groups as of_group;
ghost use Rattle.ev_groups.specs.Groups.{with_change, with_event, with_id};
ghost use Rattle.ev_groups.specs.Places.{are_below};
ghost use Rattle.ev_base.specs.declared.ids.MessageId.{MessageId};

use crate::closing::taking_place;
use ev_base::{Listed, MessageId, NoMemory};
use ev_types::{Event, FlagChange};

/// Adds an event with its id behind the items. A change of flags is put into the item that takes it
/// in, which then goes to the end with this id. Where memory is refused, that item may be lost.
pub fn add_event(items: &mut Vec<(u64, Event)>, id: u64, event: Event) -> Result<(), NoMemory>
    ensures { IfOk result (λ _. items.new.items ≡ with_event items.old.items (id, event)) }
{
    match event {
        Event::Flags(change) => {
            let grown = grown(items, change)?;
            items.push((id, Event::Flags(grown)))?;
        }
        event => items.push((id, event))?,
    }
    Ok(())
}

// Takes the item out that takes the change in, and gives it with the change; or the change alone.
fn grown(items: &mut Vec<(u64, Event)>, change: FlagChange) -> Result<FlagChange, NoMemory>
    ensures { IfOk result (λ grown. (id : ℕ)
        → items.new.items ++ (id, Flags grown) ∷ [] ≡ with_change items.old.items id change) }
{
    let Some(at) = taking_place(items, &change) else {
        return Ok(change);
    };
    let (_, event) = items.remove(at);
    match change_of(event) {
        Some(group) => with_member(group, change),
        None => Ok(change),
    }
}

fn change_of(event: Event) -> Option<FlagChange>
    ensures { result ≡ of_group.change_of event }
{
    match event {
        Event::Flags(change) => Some(change),
        _ => None,
    }
}

// The group that takes the change in.
fn with_member(group: FlagChange, change: FlagChange) -> Result<FlagChange, NoMemory>
    ensures { IfOk result (λ grown. grown ≡ of_group.with_member group change) }
{
    let mut ids = group.messages.into_vec();
    let alloc = *ids.allocator();
    put_ids(&mut ids, change.messages.as_slice())?;
    Ok(FlagChange {
        flag: change.flag,
        add: change.add,
        messages: Listed::from_vec(ids),
        details: Listed::from_vec(Vec::new(alloc)),
    })
}

// Sets ids into rising ids. Where they rise too, each is sought from the place of the one before.
fn put_ids(ids: &mut Vec<MessageId>, new: &[MessageId]) -> Result<(), NoMemory>
    ensures { IfOk result (λ _. ids.new.items ≡ fold with_id ids.old.items new.now) }
{
    let mut last = MessageId(0);
    let mut from = 0;
    for id in new {
        from = put_id(ids, seek_from(from, last, *id), *id)?;
        last = *id;
    }
    Ok(())
}

// The place from which an id is sought, where the ids before `from` are below `last`.
fn seek_from(from: usize, last: MessageId, id: MessageId) -> usize
    ensures below { (ids : List MessageId) → are_below from ids last ≡ true → are_below result ids id ≡ true }
    ensures bound { result ≤ from }
{
    if last.0 < id.0 { from } else { 0 }
}

// Sets an id into rising ids, of which those before `from` are below it, and tells its place.
fn put_id(ids: &mut Vec<MessageId>, from: usize, id: MessageId) -> Result<usize, NoMemory>
    requires from { from ≤ vec_len ids.old }
    requires below { are_below from ids.old.items id ≡ true }
    ensures ids { IfOk result (λ _. ids.new.items ≡ with_id ids.old.items id) }
    ensures below { IfOk result (λ at. are_below at ids.new.items id ≡ true) }
    ensures bound { IfOk result (λ at. at ≤ vec_len ids.new) }
{
    let at = id_place(ids, from, id);
    if at == ids.len() || id.0 < ids[at].0 {
        ids.insert(at, id)?;
    }
    Ok(at)
}

// The place of an id among rising ids, or the place for it.
fn id_place(ids: &[MessageId], from: usize, id: MessageId) -> usize
    requires from { from ≤ length ids.now }
    requires below { are_below from ids.now id ≡ true }
    ensures bound { result ≤ length ids.now }
    ensures below { are_below result ids.now id ≡ true }
    ensures reached { (d : MessageId) → result < length ids.now → id.0 ≤ (slice_index_or ids.now result d).0 }
{
    let mut at = from;
    while at < ids.len() && ids[at].0 < id.0 {
        at += 1;
    }
    at
}
