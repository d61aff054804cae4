//! Lists of events with their ids.

ghost use Rattle.std.specs.Prelude.{◌≡◌, ◌+◌, ◌≤◌, ◌<◌, ◌^◌, ◌-◌, ◌++◌, ◌∷◌, [], IfOk, drop, length, take, vec_capacity, vec_len};
ghost use Rattle.std.specs.Ordering.{nat_cmp};
ghost use Rattle.ev_rows.specs.Rows.{SortedByKey};
ghost use Rattle.ev_types.specs.declared.event.Event.TheVariants.{Heartbeat};
ghost use Rattle.zw_traces.specs.Account.{above, greatest_id, not_above};
ghost use Rattle.ev_groups.specs.Items.{AllIds, events_of};
ghost use Rattle.zw_traces.specs.ShardTrace.{shown_items};

use crate::ids::id_of;
use ev_base::{ExactClone, Listed, NoMemory};
use ev_types::{Event, Item};
use std::alloc::Global;

/// How many of the items, which come first, have no greater id.
pub fn count_up_to(items: &[(u64, Event)], id: u64) -> usize
    requires { SortedByKey nat_cmp items.now }
    ensures within { result ≤ length items.now }
    ensures first { take result items.now ≡ not_above id items.now }
    ensures others { drop result items.now ≡ above id items.now }
{
    items.partition_point(|item| item.0 <= id)
}

/// The greatest of an id and those of the items.
pub fn greatest_id(id: u64, items: &[(u64, Event)]) -> u64
    ensures { result ≡ greatest_id id items.now }
{
    let mut greatest = id;
    for item in items {
        greatest = greatest.max(item.0);
    }
    greatest
}

/// Adds all of the further items. It takes no memory.
pub fn add_all(items: &mut Vec<(u64, Event)>, more: &mut Vec<(u64, Event)>)
    requires room { length items.old.items + length more.old.items ≤ vec_capacity items.old }
    ensures items { items.new.items ≡ items.old.items ++ more.old.items }
    ensures more { more.new.items ≡ [] }
    ensures capacity { vec_capacity items.old ≤ vec_capacity items.new }
{
    if items.append(more).is_err() {
        unreachable!();
    }
}

/// Adds one event. It takes no memory.
pub fn add(items: &mut Vec<(u64, Event)>, id: u64, event: Event)
    requires room { vec_len items.old < vec_capacity items.old }
    ensures items { items.new.items ≡ items.old.items ++ (id, event) ∷ [] }
    ensures len { vec_len items.new ≡ vec_len items.old + 1 }
    ensures capacity { vec_capacity items.old ≤ vec_capacity items.new }
{
    if items.push((id, event)).is_err() {
        unreachable!();
    }
}

/// Copies of the items.
pub fn copies(alloc: Global, items: &[(u64, Event)]) -> Result<Vec<(u64, Event)>, NoMemory>
    ensures { IfOk result (λ copies. copies.items ≡ items.now) }
{
    let mut copies = Vec::with_capacity(alloc, items.len())?;
    for item in items {
        copies.push(copied(item)?)?;
    }
    Ok(copies)
}

/// The items as a client sees them.
pub fn shown_items(alloc: Global, items: &[(u64, Event)]) -> Result<Listed<Item>, NoMemory>
    requires { AllIds (λ id. id < 2 ^ 63) items.now }
    ensures { IfOk result (λ list. list ≡ shown_items items.now) }
{
    let mut list = Vec::with_capacity(alloc, items.len())?;
    for (id, event) in items {
        list.push(shown_item(*id, copied(event)?))?;
    }
    Ok(Listed::from_vec(list))
}

/// A heartbeat of this id as a client sees it.
pub fn shown_heartbeat(alloc: Global, id: u64) -> Result<Listed<Item>, NoMemory>
    requires { id < 2 ^ 63 }
    ensures { IfOk result (λ list. list ≡ shown_items ((id, Heartbeat) ∷ [])) }
{
    let mut list = Vec::with_capacity(alloc, 1)?;
    list.push(shown_item(id, Event::Heartbeat))?;
    Ok(Listed::from_vec(list))
}

fn shown_item(id: u64, event: Event) -> Item
    requires { id < 2 ^ 63 }
    ensures { result ∷ [] ≡ shown_items ((id, event) ∷ []) }
{
    Item {
        id: id_of(id),
        event,
    }
}

/// Copies of the items' events.
pub fn events_of(alloc: Global, items: &[(u64, Event)]) -> Result<Vec<Event>, NoMemory>
    ensures { IfOk result (λ events. events.items ≡ events_of items.now) }
{
    let mut events = Vec::with_capacity(alloc, items.len())?;
    for (_, event) in items {
        events.push(copied(event)?)?;
    }
    Ok(events)
}

fn copied<T: ExactClone>(value: &T) -> Result<T, NoMemory>
    ensures { IfOk result (λ copy. copy ≡ value.now) }
{
    Ok(value.clone()?)
}
