//! What an actor is told of the actor's flags.

ghost use Rattle.std.specs.Prelude.{◌≡◌, ◌++◌, IfOk};
ghost use Rattle.nt_marks.specs.MarkParts.{details_in, flag_change_of, flag_parts, placed, with_place};
ghost use Rattle.zr_realm.specs.Parts.{messages_of};

use ev_base::{Flag, Listed, MessageId, NoMemory, Place, UserId};
use ev_types::{Event, FlagChange, Part};
use nt_parts::push_to_one;
use std::alloc::Global;
use zr_realm::Realm;

/// Tells the actor of a flag that these messages get or lose.
pub fn push_flags(
    realm: &Realm,
    actor: UserId,
    flag: Flag,
    add: bool,
    numbers: &[u32],
    parts: &mut Vec<Part>,
) -> Result<(), NoMemory>
    ensures { IfOk result (λ _. parts.new.items ≡ parts.old.items
        ++ flag_parts realm.now.state.tables actor flag add (messages_of numbers.now)) }
{
    if numbers.is_empty() {
        return Ok(());
    }
    let alloc = *parts.allocator();
    let change = flag_change(alloc, realm, flag, add, numbers)?;
    let mut events = Vec::new(alloc);
    events.push(Event::Flags(change))?;
    push_to_one(parts, actor, events)
}

fn flag_change(
    alloc: Global,
    realm: &Realm,
    flag: Flag,
    add: bool,
    numbers: &[u32],
) -> Result<FlagChange, NoMemory>
    ensures { IfOk result (λ change. change
        ≡ flag_change_of realm.now.state.tables flag add (messages_of numbers.now)) }
{
    let messages = messages_of(alloc, numbers)?;
    let details = details_in(alloc, realm, flag, add, &messages)?;
    Ok(FlagChange {
        flag,
        add,
        messages: Listed::from_vec(messages),
        details: Listed::from_vec(details),
    })
}

fn messages_of(alloc: Global, numbers: &[u32]) -> Result<Vec<MessageId>, NoMemory>
    ensures { IfOk result (λ messages. messages.items ≡ messages_of numbers.now) }
{
    Ok(
        numbers
            .iter()
            .map(|number| MessageId(*number))
            .collect(alloc)?,
    )
}

// The places of messages that are unread again.
fn details_in(
    alloc: Global,
    realm: &Realm,
    flag: Flag,
    add: bool,
    messages: &[MessageId],
) -> Result<Vec<(MessageId, Place)>, NoMemory>
    ensures { IfOk result (λ details.
        details.items ≡ details_in realm.now.state.tables flag add messages.now) }
{
    match (flag, add) {
        (Flag::Read, false) => placed(alloc, realm, messages),
        _ => Ok(Vec::new(alloc)),
    }
}

fn placed(
    alloc: Global,
    realm: &Realm,
    messages: &[MessageId],
) -> Result<Vec<(MessageId, Place)>, NoMemory>
    ensures { IfOk result (λ places. places.items ≡ placed realm.now.state.tables messages.now) }
{
    let mut places = Vec::new(alloc);
    for message in messages {
        push_place(realm, *message, &mut places)?;
    }
    Ok(places)
}

fn push_place(
    realm: &Realm,
    message: MessageId,
    places: &mut Vec<(MessageId, Place)>,
) -> Result<(), NoMemory>
    ensures { IfOk result (λ _. places.new.items
        ≡ places.old.items ++ with_place realm.now.state.tables message) }
{
    let Some(row) = realm.message(message) else {
        return Ok(());
    };
    let place = row.place.clone()?;
    Ok(places.push((message, place))?)
}
