//! What events write in the sections of messages, reactions, starred and unread messages.

ghost use Rattle.std.specs.Prelude.{◌≡◌, ◌++◌, map, if◌then◌else◌, IfOk};
ghost use Rattle.ev_types.specs.Writes.{drop_row, patch, put};
ghost use Rattle.ev_types.specs.EventWrites.{starred_by_flag, to_content, to_flag, to_place, unread_by_flag};
ghost use Rattle.ev_base.specs.declared.place.Place.TheVariants as place;

use crate::event_writes::{
    MadeOf, push_all, push_drops, push_drops_under, push_each, push_patches, push_puts,
};
use crate::message_field::{MessageField, MessageFieldKind};
use crate::row_write::{NoField, RowWrite};
use crate::sorted_writes::SortedWrites;
use ev_base::{Flag, MessageId, NoMemory, Place, StreamId, Text, UserId};
use ev_types::{Event, FlagChange, FullMessage, ShownMessage};

pub type MessageWrite = RowWrite<MessageId, ShownMessage, MessageField, NoField>;

pub type SortedMessageWrites = SortedWrites<MessageId, ShownMessage, MessageField, NoField>;

impl MadeOf<Event> for MessageWrite {
    ghost use Rattle.ev_types.specs.EventWrites.{message_writes};

    ghost made_of = { message_writes };

    fn push_writes(event: &Event, writes: &mut Vec<MessageWrite>) -> Result<(), NoMemory> {
        match event {
            Event::MessageNew(full) => Ok(writes.push(message_put(full)?)?),
            Event::MessagesRestored(messages) => push_each(
                messages.as_slice(),
                |full| message_put(full),
                writes,
            ),
            Event::MessageMoved {
                messages,
                stream,
                topic,
            } => {
                let place = place_in(*stream, topic)?;
                push_each(messages.as_slice(), |id| moved(*id, &place), writes)
            }
            Event::MessageEdited { message, content } => Ok(writes.push(edited(
                *message, content,
            )?)?),
            Event::Flags(change) => push_flags(change, writes),
            Event::MessageGone(messages) => push_drops(messages.as_slice(), writes),
            _ => Ok(()),
        }
    }
}

fn message_put(full: &FullMessage) -> Result<MessageWrite, NoMemory>
    ensures { IfOk result (λ write. write ≡ put full.now.message full.now.row) }
{
    Ok(RowWrite::put(full.message, full.row.clone()?))
}

fn moved(message: MessageId, place: &Place) -> Result<MessageWrite, NoMemory>
    ensures { IfOk result (λ write. write ≡ patch message (to_place place.now)) }
{
    let kind = MessageFieldKind::Place(place.clone()?);
    Ok(RowWrite::patch(message, MessageField::new(kind)))
}

fn edited(message: MessageId, content: &Text) -> Result<MessageWrite, NoMemory>
    ensures { IfOk result (λ write. write ≡ patch message (to_content content.now)) }
{
    let kind = MessageFieldKind::Content(content.clone()?);
    Ok(RowWrite::patch(message, MessageField::new(kind)))
}

fn push_flags(change: &FlagChange, writes: &mut Vec<MessageWrite>) -> Result<(), NoMemory>
    ensures { IfOk result (λ _. writes.new.items ≡ writes.old.items
        ++ map (λ id. patch id (to_flag change.now.flag change.now.add)) change.now.messages) }
{
    push_each(
        change.messages.as_slice(),
        |id| Ok(flagged(*id, change.flag, change.add)),
        writes,
    )
}

fn flagged(message: MessageId, flag: Flag, value: bool) -> MessageWrite
    ensures { result ≡ patch message (to_flag flag value) }
{
    RowWrite::patch(
        message,
        MessageField::new(MessageFieldKind::Flag(flag, value)),
    )
}

fn place_in(stream: StreamId, topic: &Text) -> Result<Place, NoMemory>
    ensures { IfOk result (λ found. found ≡ place.Stream stream topic.now) }
{
    Ok(Place::Stream {
        stream,
        topic: topic.clone()?,
    })
}

pub type ReactionWrite = RowWrite<(MessageId, UserId, Text), (), NoField, MessageId>;

pub type SortedReactionWrites = SortedWrites<(MessageId, UserId, Text), (), NoField, MessageId>;

impl MadeOf<Event> for ReactionWrite {
    ghost use Rattle.ev_types.specs.EventWrites.{reaction_writes};

    ghost made_of = { reaction_writes };

    fn push_writes(event: &Event, writes: &mut Vec<ReactionWrite>) -> Result<(), NoMemory> {
        match event {
            Event::MessageNew(full) => ReactionWrite::push_writes(full, writes),
            Event::MessagesRestored(messages) => push_all(messages.as_slice(), writes),
            Event::MessageGone(messages) => push_drops_under(messages.as_slice(), writes),
            Event::ReactionAdd {
                message,
                user,
                emoji,
            } => Ok(writes.push(reaction_put(*message, *user, emoji)?)?),
            Event::ReactionRemove {
                message,
                user,
                emoji,
            } => Ok(writes.push(RowWrite::drop_row((*message, *user, emoji.clone()?)))?),
            _ => Ok(()),
        }
    }
}

impl MadeOf<FullMessage> for ReactionWrite {
    ghost use Rattle.ev_types.specs.EventWrites.{reactions_of};

    ghost made_of = { reactions_of };

    fn push_writes(full: &FullMessage, writes: &mut Vec<ReactionWrite>) -> Result<(), NoMemory> {
        push_each(
            full.reactions.as_slice(),
            |reaction| reaction_put(full.message, reaction.0, &reaction.1),
            writes,
        )
    }
}

fn reaction_put(message: MessageId, user: UserId, emoji: &Text) -> Result<ReactionWrite, NoMemory>
    ensures { IfOk result (λ write. write ≡ put (message, user, emoji.now) tt) }
{
    Ok(RowWrite::put((message, user, emoji.clone()?), ()))
}

pub type StarredWrite = RowWrite<MessageId, (), NoField, NoField>;

pub type SortedStarredWrites = SortedWrites<MessageId, (), NoField, NoField>;

impl MadeOf<Event> for StarredWrite {
    ghost use Rattle.ev_types.specs.EventWrites.{starred_writes};

    ghost made_of = { starred_writes };

    fn push_writes(event: &Event, writes: &mut Vec<StarredWrite>) -> Result<(), NoMemory> {
        match event {
            Event::MessageNew(full) => StarredWrite::push_writes(full, writes),
            Event::MessagesRestored(messages) => push_all(messages.as_slice(), writes),
            Event::Flags(change) => push_starred(change, writes),
            Event::MessageGone(messages) => push_drops(messages.as_slice(), writes),
            _ => Ok(()),
        }
    }
}

impl MadeOf<FullMessage> for StarredWrite {
    ghost use Rattle.ev_types.specs.EventWrites.{starred_of};

    ghost made_of = { starred_of };

    fn push_writes(full: &FullMessage, writes: &mut Vec<StarredWrite>) -> Result<(), NoMemory> {
        if full.row.flags.starred {
            writes.push(RowWrite::put(full.message, ()))?;
        }
        Ok(())
    }
}

fn push_starred(change: &FlagChange, writes: &mut Vec<StarredWrite>) -> Result<(), NoMemory>
    ensures { IfOk result (λ _. writes.new.items ≡ writes.old.items
        ++ starred_by_flag change.now.flag change.now.add change.now.messages) }
{
    match change.flag {
        Flag::Starred => push_each(
            change.messages.as_slice(),
            |id| Ok(starred(*id, change.add)),
            writes,
        ),
        Flag::Read | Flag::Collapsed => Ok(()),
    }
}

fn starred(message: MessageId, add: bool) -> StarredWrite
    ensures { result ≡ (if add then put message tt else drop_row message) }
{
    if add {
        RowWrite::put(message, ())
    } else {
        RowWrite::drop_row(message)
    }
}

pub type UnreadWrite = RowWrite<MessageId, Place, Place, NoField>;

pub type SortedUnreadWrites = SortedWrites<MessageId, Place, Place, NoField>;

impl MadeOf<Event> for UnreadWrite {
    ghost use Rattle.ev_types.specs.EventWrites.{unread_writes};

    ghost made_of = { unread_writes };

    fn push_writes(event: &Event, writes: &mut Vec<UnreadWrite>) -> Result<(), NoMemory> {
        match event {
            Event::MessageNew(full) => UnreadWrite::push_writes(full, writes),
            Event::MessagesRestored(messages) => push_all(messages.as_slice(), writes),
            Event::MessageMoved {
                messages,
                stream,
                topic,
            } => push_patches(messages.as_slice(), &place_in(*stream, topic)?, writes),
            Event::Flags(change) => push_unread(change, writes),
            Event::MessageGone(messages) => push_drops(messages.as_slice(), writes),
            _ => Ok(()),
        }
    }
}

impl MadeOf<FullMessage> for UnreadWrite {
    ghost use Rattle.ev_types.specs.EventWrites.{unread_of};

    ghost made_of = { unread_of };

    fn push_writes(full: &FullMessage, writes: &mut Vec<UnreadWrite>) -> Result<(), NoMemory> {
        if !full.row.flags.read {
            writes.push(RowWrite::put(full.message, full.row.place.clone()?))?;
        }
        Ok(())
    }
}

fn push_unread(change: &FlagChange, writes: &mut Vec<UnreadWrite>) -> Result<(), NoMemory>
    ensures { IfOk result (λ _. writes.new.items ≡ writes.old.items
        ++ unread_by_flag change.now.flag change.now.add change.now.messages change.now.details) }
{
    match (change.flag, change.add) {
        (Flag::Read, true) => push_drops(change.messages.as_slice(), writes),
        (Flag::Read, false) => push_puts(change.details.as_slice(), writes),
        _ => Ok(()),
    }
}
