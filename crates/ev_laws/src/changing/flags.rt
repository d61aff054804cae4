//! The flags of the messages that stand in both views.

ghost use Rattle.std.specs.Prelude.{◌≡◌, false, ◌++◌, filter, map, IfOk};
ghost use Rattle.ev_rows.specs.Rows.{keys_of};
ghost use Rattle.ev_types.specs.Changes.{details_of, flag_event, flag_events, flag_in, turned};
ghost use Rattle.ev_laws.specs.Kept.{kept_row};

use super::kept::KeptMessage;
use ev_base::{Flag, Listed, MessageId, NoMemory, Place};
use ev_types::{Event, FlagChange, MessageFlags};
use std::alloc::Global;

/// Adds the flags that changed: read, starred, collapsed, of each those added and then those removed.
pub fn push_flags(kept: &[KeptMessage], events: &mut Vec<Event>) -> Result<(), NoMemory>
    ensures { IfOk result (λ _. events.new.items
        ≡ events.old.items ++ flag_events (map kept_row kept.now)) }
{
    push_flag(kept, Flag::Read, true, events)?;
    push_flag(kept, Flag::Read, false, events)?;
    push_flag(kept, Flag::Starred, true, events)?;
    push_flag(kept, Flag::Starred, false, events)?;
    push_flag(kept, Flag::Collapsed, true, events)?;
    push_flag(kept, Flag::Collapsed, false, events)
}

fn push_flag(
    kept: &[KeptMessage],
    flag: Flag,
    add: bool,
    events: &mut Vec<Event>,
) -> Result<(), NoMemory>
    ensures { IfOk result (λ _. events.new.items
        ≡ events.old.items ++ flag_event (map kept_row kept.now) flag add) }
{
    let alloc = *events.allocator();
    let turned = turned_rows(alloc, kept, flag, add)?;
    if turned.is_empty() {
        return Ok(());
    }
    let change = FlagChange {
        flag,
        add,
        messages: numbers_of(alloc, &turned)?,
        details: details_of(alloc, flag, add, &turned)?,
    };
    Ok(events.push(Event::Flags(change))?)
}

// The messages whose flag turned to this value.
fn turned_rows<'a>(
    alloc: Global,
    kept: &[KeptMessage<'a>],
    flag: Flag,
    add: bool,
) -> Result<Vec<KeptMessage<'a>>, NoMemory>
    ensures { IfOk result (λ rows. map kept_row rows.items
        ≡ filter (turned flag add) (map kept_row kept.now)) }
{
    let mut rows = Vec::new(alloc);
    for row in kept {
        if has_turned(row, flag, add) {
            rows.push(*row)?;
        }
    }
    Ok(rows)
}

fn has_turned(row: &KeptMessage, flag: Flag, add: bool) -> bool
    ensures { result ≡ turned flag add (kept_row row.now) }
{
    is_flagged(&row.after.flags, flag) == add && is_flagged(&row.before.flags, flag) != add
}

fn is_flagged(flags: &MessageFlags, flag: Flag) -> bool
    ensures { result ≡ flag_in flag flags.now }
{
    match flag {
        Flag::Read => flags.read,
        Flag::Starred => flags.starred,
        Flag::Collapsed => flags.collapsed,
    }
}

fn numbers_of(alloc: Global, rows: &[KeptMessage]) -> Result<Listed<MessageId>, NoMemory>
    ensures { IfOk result (λ messages. messages ≡ keys_of (map kept_row rows.now)) }
{
    let mut messages = Vec::with_capacity(alloc, rows.len())?;
    for row in rows {
        messages.push(row.message)?;
    }
    Ok(Listed::from_vec(messages))
}

// The places of the messages that are unread again. No other change of a flag has details.
fn details_of(
    alloc: Global,
    flag: Flag,
    add: bool,
    rows: &[KeptMessage],
) -> Result<Listed<(MessageId, Place)>, NoMemory>
    ensures { IfOk result (λ details. details ≡ details_of flag add (map kept_row rows.now)) }
{
    match (flag, add) {
        (Flag::Read, false) => places_of(alloc, rows),
        _ => Ok(Listed::from_vec(Vec::new(alloc))),
    }
}

fn places_of(alloc: Global, rows: &[KeptMessage]) -> Result<Listed<(MessageId, Place)>, NoMemory>
    ensures { IfOk result (λ places. places ≡ details_of Flag.Read false (map kept_row rows.now)) }
{
    let mut places = Vec::with_capacity(alloc, rows.len())?;
    for row in rows {
        places.push((row.message, row.after.place.clone()?))?;
    }
    Ok(Listed::from_vec(places))
}
