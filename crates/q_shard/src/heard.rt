//! What a user hears of a push.

ghost use Rattle.std.specs.Prelude.{◌≡◌, [], IfOk, None, map};
ghost use Rattle.ev_types.specs.Feeders as of_types;
ghost use Rattle.ev_types.specs.OneSection.{received};
ghost use Rattle.q_shard.specs.Hearing.{with_part};

use ev_base::{ExactClone, NoMemory};
use ev_types::{Event, EventKind, Types};
use std::alloc::Global;
use std::marker::Model;

/// The events that a user hears, in their order.
#[derive(Drop)]
pub struct Heard<'a> {
    events: Vec<&'a Event>,
    // The place of the part that was heard last.
    last: Option<usize>,
}

impl<'a> Model for Heard<'a> {
    ghost use Rattle.std.specs.Prelude.{map};
    ghost use Rattle.q_shard.specs.Hearing.{HeardParts};

    ghost Value = { HeardParts };

    ghost view = { λ it. record { events = map (λ event. event.now) it.events.items; last = it.last } };
}

impl<'a> Heard<'a> {
    pub fn new(alloc: Global) -> Heard<'a>
        ensures { result ≡ record { events = []; last = None } }
    {
        Heard {
            events: Vec::new(alloc),
            last: None,
        }
    }

    /// Adds the event of the part at this place. A part that is told twice in turn is heard once.
    pub fn add(&mut self, place: usize, event: &'a Event) -> Result<(), NoMemory>
        ensures { IfOk result (λ _. self.new ≡ with_part place event.now self.old) }
    {
        if self.last == Some(place) {
            return Ok(());
        }
        self.events.push(event)?;
        self.last = Some(place);
        Ok(())
    }

    /// The events of these types.
    pub fn received(&self, alloc: Global, types: &Types) -> Result<Vec<Event>, NoMemory>
        ensures { IfOk result (λ events. events.items ≡ received types.now self.now.events) }
    {
        received_events(alloc, types, &self.events)
    }
}

// Those of the events whose kind is among the types.
fn received_events(alloc: Global, types: &Types, events: &[&Event]) -> Result<Vec<Event>, NoMemory>
    ensures { IfOk result (λ list. list.items
        ≡ received types.now (map (λ event. event.now) events.now)) }
{
    let mut list = Vec::new(alloc);
    for event in events {
        if receives(types, event.kind()) {
            list.push(copied(*event)?)?;
        }
    }
    Ok(list)
}

fn receives(types: &Types, kind: EventKind) -> bool
    ensures { result ≡ of_types.receives types.now kind }
{
    match types {
        Types::All => true,
        Types::Only(kinds) => kinds.as_slice().contains(&kind),
    }
}

fn copied<T: ExactClone>(value: &T) -> Result<T, NoMemory>
    ensures { IfOk result (λ copy. copy ≡ value.now) }
{
    Ok(value.clone()?)
}
