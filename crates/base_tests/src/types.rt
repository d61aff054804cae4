//! Sections that types cover, and audiences.

use crate::same::same;
use ev_base::{Listed, MessageId, UserId};
use ev_types::{Audience, Event, EventKind, Notice, Part, Section, Types};
use std::alloc::{AllocError, Global};
use std::test::Fail;

fn covers(alloc: Global, kinds: &[EventKind], section: Section) -> Result<bool, AllocError> {
    Ok(Types::Only(Listed::from_vec(kinds.to_vec(alloc)?)).covers(section))
}

#[test]
fn types_cover_the_sections_that_only_they_feed(rt: HostRuntime) -> Result<(), Fail> {
    let streams = [EventKind::Stream];
    let both = [EventKind::Subscription, EventKind::Stream];
    for (section, by_streams, by_both) in [
        (Section::Realm, false, false),
        (Section::Streams, true, true),
        (Section::Subscriptions, false, true),
        (Section::Subscribers, false, true),
        (Section::Messages, false, false),
    ] {
        let covered = (
            covers(rt.alloc(), &streams, section)?,
            covers(rt.alloc(), &both, section)?,
        );
        same(&rt, covered, (by_streams, by_both));
    }
    same(&rt, Types::All.covers(Section::UnreadMessages), true);
    Ok(())
}

fn users(alloc: Global, numbers: &[UserId]) -> Result<Listed<UserId>, AllocError> {
    Ok(Listed::from_vec(numbers.to_vec(alloc)?))
}

fn gone(alloc: Global, message: u32) -> Result<Event, Fail> {
    let messages = [MessageId(message)].to_vec(alloc)?;
    Ok(Event::MessageGone(Listed::from_vec(messages)))
}

// Whether users with these numbers hear.
fn hears(alloc: Global, numbers: &[UserId], user: u32) -> Result<bool, Fail> {
    Ok(Audience::Only(users(alloc, numbers)?).has(UserId(user)))
}

#[test]
fn an_audience_has_its_users(rt: HostRuntime) -> Result<(), Fail> {
    let alloc = rt.alloc();
    same(&rt, Audience::Everyone.has(UserId(2)), true);
    same(&rt, hears(alloc, &[UserId(2)], 2)?, true);
    same(&rt, hears(alloc, &[UserId(1), UserId(3)], 2)?, false);
    Ok(())
}

// Adds a part that tells these users that a message is gone.
fn add(parts: &mut Vec<Part>, alloc: Global, hearers: &[UserId], message: u32) -> Result<(), Fail> {
    let part = Part {
        audience: Audience::Only(users(alloc, hearers)?),
        event: gone(alloc, message)?,
    };
    Ok(parts.push(part)?)
}

// Adds a part that tells everyone that a message is gone.
fn add_for_all(parts: &mut Vec<Part>, alloc: Global, message: u32) -> Result<(), Fail> {
    let event = gone(alloc, message)?;
    let audience = Audience::Everyone;
    Ok(parts.push(Part { audience, event })?)
}

fn add_three(parts: &mut Vec<Part>, alloc: Global) -> Result<(), Fail> {
    add_for_all(parts, alloc, 5)?;
    add(parts, alloc, &[UserId(1), UserId(3)], 6)?;
    add(parts, alloc, &[UserId(2)], 7)
}

fn notice(alloc: Global) -> Result<Notice, Fail> {
    let mut parts = Vec::new(alloc);
    add_three(&mut parts, alloc)?;
    Ok(Notice {
        number: 1,
        ends: None,
        parts: Listed::from_vec(parts),
    })
}

// Whether the event tells that this message and no other is gone.
fn is_gone(event: &Event, message: u32) -> bool {
    match event {
        Event::MessageGone(messages) => messages.as_slice() == [MessageId(message)].as_slice(),
        _ => false,
    }
}

// Whether user 2 hears of message 5 and then of message 7.
fn heard(alloc: Global) -> Result<bool, Fail> {
    let notice = notice(alloc)?;
    heard_of(alloc, &notice)
}

fn heard_of(alloc: Global, notice: &Notice) -> Result<bool, Fail> {
    let events = notice.events_for(alloc, UserId(2))?;
    Ok(match events.as_slice() {
        [first, second] => is_gone(first, 5) && is_gone(second, 7),
        _ => false,
    })
}

#[test]
fn a_user_hears_the_parts_for_it(rt: HostRuntime) -> Result<(), Fail> {
    same(&rt, heard(rt.alloc())?, true);
    Ok(())
}
