//! Many events, applied to a state.

ghost use Rattle.std.specs.Prelude.{◌≤◌};

use ev_apply::{apply_events, prepare};
use ev_base::{Keyed, Listed, MessageId, NoMemory, Place, Text, TextKind, UserId, rows_rise};
use ev_types::{Event, FullMessage, MessageFlags, ShownMessage, State};
use std::alloc::Global;

/// Makes a state with so many messages and reactions, and as many events. The work says how far to go on:
/// `state` ends there, `prepare` makes the events ready, and `apply` applies them too.
pub fn played(alloc: Global, work: &str, count: u32) -> Result<State, NoMemory>
    requires { count ≤ 1000000 }
{
    let text = emoji(alloc)?;
    let mut state = filled(alloc, &text, count)?;
    let events = events(alloc, &text, count)?;
    if work != "state" {
        let ready = prepare(&mut state, events)?;
        if work == "apply" {
            apply_events(&mut state, ready);
        }
    }
    Ok(state)
}

fn emoji(alloc: Global) -> Result<Text, NoMemory> {
    match Text::read(alloc, TextKind::Emoji, "wave") {
        Ok(text) => Ok(text),
        Err(_) => Err(NoMemory),
    }
}

// The messages have odd numbers, so that new ones fall between them.
fn filled(alloc: Global, text: &Text, count: u32) -> Result<State, NoMemory>
    requires { count ≤ 1000000 }
{
    let mut messages = Vec::new(alloc);
    let mut reactions = Vec::new(alloc);
    for place in 0..count {
        let message = MessageId(2 * place + 1);
        messages.push((message, row(alloc, text)?))?;
        reactions.push(((message, UserId(1), text.clone()?), ()))?;
    }
    Ok(State {
        realm: None,
        realm_users: None,
        streams: None,
        subscriptions: None,
        subscribers: None,
        messages: Some(keyed(messages)?),
        reactions: Some(keyed(reactions)?),
        starred_messages: Some(Keyed::new(alloc)),
        unread_messages: Some(Keyed::new(alloc)),
    })
}

fn row(alloc: Global, text: &Text) -> Result<ShownMessage, NoMemory> {
    Ok(ShownMessage {
        sender: UserId(1),
        place: Place::Direct {
            recipients: Listed::from_vec(Vec::new(alloc)),
        },
        content: text.clone()?,
        timestamp: 0,
        flags: MessageFlags {
            read: false,
            starred: true,
            collapsed: false,
        },
    })
}

fn keyed<K: Ord + Drop, V: Drop>(rows: Vec<(K, V)>) -> Result<Keyed<K, V>, NoMemory> {
    if !rows_rise(&rows) {
        return Err(NoMemory);
    }
    Ok(Keyed::from_vec(rows))
}

// Of four events one brings a message, from the greatest number down, one edits a message, one deletes
// one, and one adds a reaction.
fn events(alloc: Global, text: &Text, count: u32) -> Result<Vec<Event>, NoMemory>
    requires { count ≤ 1000000 }
{
    let mut events = Vec::new(alloc);
    for place in 0..count {
        let old = MessageId(2 * place + 1);
        let new = MessageId(2 * (count - place));
        events.push(event(alloc, text, place % 4, old, new)?)?;
    }
    Ok(events)
}

fn event(
    alloc: Global,
    text: &Text,
    kind: u32,
    old: MessageId,
    new: MessageId,
) -> Result<Event, NoMemory> {
    match kind {
        0 => Ok(Event::MessageNew(FullMessage {
            message: new,
            row: row(alloc, text)?,
            reactions: Listed::from_vec(Vec::new(alloc)),
        })),
        1 => Ok(Event::MessageEdited {
            message: old,
            content: text.clone()?,
        }),
        2 => {
            let mut messages = Vec::new(alloc);
            messages.push(old)?;
            Ok(Event::MessageGone(Listed::from_vec(messages)))
        }
        _ => Ok(Event::ReactionAdd {
            message: old,
            user: UserId(2),
            emoji: text.clone()?,
        }),
    }
}
