//! Events made ready for a state, and applied to it.

ghost use Rattle.std.specs.Prelude.{◌≡◌, IfOk, OnOk};
ghost use Rattle.ev_types.specs.Sections.{sections_of};
ghost use Rattle.ev_types.specs.Applying.{applied_where_present, realm_applied};
ghost use Rattle.ev_types.specs.EventWrites.{realm_after};
ghost use Rattle.ev_apply.specs.Room.{HasRoomFor};

use crate::event_writes::writes_of;
use crate::message_writes::{
    SortedMessageWrites, SortedReactionWrites, SortedStarredWrites, SortedUnreadWrites,
};
use crate::people_writes::{
    SortedStreamWrites, SortedSubscriberWrites, SortedSubscriptionWrites, SortedUserWrites,
};
use crate::section_writes::{apply_in, reserve_in};
use crate::sorted_writes::SortedWrites;
use ev_base::NoMemory;
use ev_types::{Event, RealmField, ShownRealm, State};
use std::alloc::Global;
use std::marker::Model;

// What events write in the sections of users, streams, subscriptions and subscribers.
#[derive(Drop)]
pub struct PeopleWrites {
    users: SortedUserWrites,
    streams: SortedStreamWrites,
    subscriptions: SortedSubscriptionWrites,
    subscribers: SortedSubscriberWrites,
}

// What events write in the sections of messages, reactions, starred and unread messages.
#[derive(Drop)]
pub struct MessageWrites {
    messages: SortedMessageWrites,
    reactions: SortedReactionWrites,
    starred: SortedStarredWrites,
    unread: SortedUnreadWrites,
}

/// Events that are ready to be applied without further memory.
#[derive(Drop)]
pub struct Prepared {
    events: Vec<Event>,
    people: PeopleWrites,
    messages: MessageWrites,
}

impl Model for Prepared {
    ghost use Rattle.std.specs.Prelude.{List};
    ghost use Rattle.ev_types.specs.declared.event.Event.{Event};
    ghost use Rattle.ev_apply.specs.AllWrites.{AreMessageWrites, ArePeopleWrites};

    ghost Value = { List Event };

    ghost view = { λ it. it.events.items };

    ghost invariant = { λ it. ArePeopleWrites it.people it.events.items × AreMessageWrites it.messages it.events.items };
}

impl PeopleWrites {
    ghost use Rattle.ev_apply.specs.AllWrites.{ArePeopleWrites};

    fn new(alloc: Global, events: &[Event]) -> Result<PeopleWrites, NoMemory>
        ensures { IfOk result (λ writes. ArePeopleWrites writes events.now) }
    {
        Ok(PeopleWrites {
            users: SortedWrites::of(alloc, writes_of(alloc, events)?)?,
            streams: SortedWrites::of(alloc, writes_of(alloc, events)?)?,
            subscriptions: SortedWrites::of(alloc, writes_of(alloc, events)?)?,
            subscribers: SortedWrites::of(alloc, writes_of(alloc, events)?)?,
        })
    }
}

impl MessageWrites {
    ghost use Rattle.ev_apply.specs.AllWrites.{AreMessageWrites};

    fn new(alloc: Global, events: &[Event]) -> Result<MessageWrites, NoMemory>
        ensures { IfOk result (λ writes. AreMessageWrites writes events.now) }
    {
        Ok(MessageWrites {
            messages: SortedWrites::of(alloc, writes_of(alloc, events)?)?,
            reactions: SortedWrites::of(alloc, writes_of(alloc, events)?)?,
            starred: SortedWrites::of(alloc, writes_of(alloc, events)?)?,
            unread: SortedWrites::of(alloc, writes_of(alloc, events)?)?,
        })
    }
}

impl Prepared {
    fn new(events: Vec<Event>) -> Result<Prepared, NoMemory>
        ensures { IfOk result (λ ready. ready ≡ events.items) }
    {
        let alloc = *events.allocator();
        let people = PeopleWrites::new(alloc, &events)?;
        let messages = MessageWrites::new(alloc, &events)?;
        Ok(Prepared {
            events,
            people,
            messages,
        })
    }

    // Makes room for the rows that the events put.
    fn reserve(&self, state: &mut State) -> Result<(), NoMemory>
        ensures room { OnOk result (HasRoomFor self.now state.new) }
        ensures sections { sections_of state.new ≡ sections_of state.old }
    {
        reserve_in(&mut state.realm_users, self.people.users.puts)?;
        reserve_in(&mut state.streams, self.people.streams.puts)?;
        reserve_in(&mut state.subscriptions, self.people.subscriptions.puts)?;
        reserve_in(&mut state.subscribers, self.people.subscribers.puts)?;
        reserve_in(&mut state.messages, self.messages.messages.puts)?;
        reserve_in(&mut state.reactions, self.messages.reactions.puts)?;
        reserve_in(&mut state.starred_messages, self.messages.starred.puts)?;
        reserve_in(&mut state.unread_messages, self.messages.unread.puts)
    }
}

/// Makes the events ready, and room in the state for the rows that they put. It takes all the memory
/// that applying them needs.
pub fn prepare(state: &mut State, events: Vec<Event>) -> Result<Prepared, NoMemory>
    ensures ready { IfOk result (λ ready. (ready ≡ events.items) × HasRoomFor ready state.new) }
    ensures sections { sections_of state.new ≡ sections_of state.old }
{
    let ready = Prepared::new(events)?;
    ready.reserve(state)?;
    Ok(ready)
}

/// Applies the events to the sections that are present.
pub fn apply_events(state: &mut State, ready: Prepared)
    requires { HasRoomFor ready state.old }
    ensures { sections_of state.new ≡ applied_where_present ready (sections_of state.old) }
{
    let Prepared {
        events,
        people,
        messages,
    } = ready;
    apply_in(&mut state.realm_users, people.users);
    apply_in(&mut state.streams, people.streams);
    apply_in(&mut state.subscriptions, people.subscriptions);
    apply_in(&mut state.subscribers, people.subscribers);
    apply_in(&mut state.messages, messages.messages);
    apply_in(&mut state.reactions, messages.reactions);
    apply_in(&mut state.starred_messages, messages.starred);
    apply_in(&mut state.unread_messages, messages.unread);
    if let Some(realm) = &mut state.realm {
        apply_to_realm(realm, events);
    }
}

fn apply_to_realm(realm: &mut ShownRealm, events: Vec<Event>)
    ensures { realm.new ≡ realm_applied events.items realm.old }
{
    for event in events {
        change_realm(realm, event);
    }
}

fn change_realm(realm: &mut ShownRealm, event: Event)
    ensures { realm.new ≡ realm_after realm.old event }
{
    match event {
        Event::RealmUpdate(RealmField::Name(name)) => realm.name = name,
        Event::RealmUpdate(RealmField::Description(description)) => realm.description = description,
        _ => {}
    }
}
