//! What a push makes of the items since the latest cut, made ready beside them.

ghost use Rattle.std.specs.Prelude.{◌≡◌, ◌+◌, ◌≤◌, ◌<◌, ◌^◌, [], IfOk, fold, length};
ghost use Rattle.ev_groups.specs.Groups.{with_event};
ghost use Rattle.ev_groups.specs.Items.{numbered};
ghost use Rattle.q_queue.specs.Staging.{TakesInAlone, with_staged};

use crate::items::copies;
use ev_base::NoMemory;
use ev_groups::{add_event, closes_all, taking_place};
use ev_types::Event;
use std::alloc::Global;

/// What is staged: the items since the cut from a place on, as a push makes them, and how many ids
/// are used then. The items before that place stay.
#[derive(Drop)]
pub struct Staged {
    pub from: usize,
    pub items: Vec<(u64, Event)>,
    pub next: u64,
}

impl Staged {
    /// Nothing behind this many items, where this many ids are used. It takes no memory.
    pub fn nothing(alloc: Global, from: usize, next: u64) -> Staged
        ensures from { result.from ≡ from }
        ensures items { result.items.items ≡ [] }
        ensures next { result.next ≡ next }
    {
        Staged {
            from,
            items: Vec::new(alloc),
            next,
        }
    }
}

/// What events make of the items since the cut, where this many ids are used.
pub fn staged_events(
    alloc: Global,
    open_items: &[(u64, Event)],
    used: u64,
    events: Vec<Event>,
) -> Result<Staged, NoMemory>
    requires ids { used + length events.items < 2 ^ 64 }
    ensures from { IfOk result (λ staged. staged.from ≤ length open_items.now) }
    ensures items { IfOk result (λ staged. with_staged open_items.now staged
        ≡ fold with_event open_items.now (numbered used events.items)) }
    ensures next { IfOk result (λ staged. staged.next ≡ used + length events.items) }
{
    let mut staged = Staged::nothing(alloc, open_items.len(), used);
    for event in events {
        stage(open_items, &mut staged, event)?;
    }
    Ok(staged)
}

// Stages one more event.
fn stage(open_items: &[(u64, Event)], staged: &mut Staged, event: Event) -> Result<(), NoMemory>
    requires from { staged.old.from ≤ length open_items.now }
    requires ids { staged.old.next + 1 < 2 ^ 64 }
    ensures from { IfOk result (λ _. staged.new.from ≤ length open_items.now) }
    ensures items { IfOk result (λ _. with_staged open_items.now staged.new
        ≡ with_event (with_staged open_items.now staged.old) (staged.old.next + 1, event)) }
    ensures next { IfOk result (λ _. staged.new.next ≡ staged.old.next + 1) }
{
    reach_back(open_items, staged, &event)?;
    staged.next += 1;
    add_event(&mut staged.items, staged.next, event)
}

// Takes in the item that takes an event in, where it stayed until now, and all items after it.
fn reach_back(
    open_items: &[(u64, Event)],
    staged: &mut Staged,
    event: &Event,
) -> Result<(), NoMemory>
    requires from { staged.old.from ≤ length open_items.now }
    ensures from { IfOk result (λ _. staged.new.from ≤ length open_items.now) }
    ensures items { IfOk result
        (λ _. with_staged open_items.now staged.new ≡ with_staged open_items.now staged.old) }
    ensures alone { IfOk result (λ _. TakesInAlone event.now open_items.now staged.new) }
    ensures next { IfOk result (λ _. staged.new.next ≡ staged.old.next) }
{
    let Event::Flags(change) = event else {
        return Ok(());
    };
    if closes_all(&staged.items, change) {
        return Ok(());
    }
    let stays = &open_items[..staged.from];
    let Some(place) = taking_place(stays, change) else {
        return Ok(());
    };
    let mut items = copies(*staged.items.allocator(), &stays[place..])?;
    items.append(&mut staged.items)?;
    staged.items = items;
    staged.from = place;
    Ok(())
}
