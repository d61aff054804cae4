//! The messages whose place changed.

ghost use Rattle.std.specs.Prelude.{◌≡◌, ◌≤◌, [], ◌++◌, map, IfOk};
ghost use Rattle.std.specs.Option.{unwrap_or};
ghost use Rattle.std.specs.BTreeMap.{insert_entry};
ghost use Rattle.ev_rows.specs.Rows.{row_at};
ghost use Rattle.ev_types.specs.Changes.{move_events, moved_to, moves_of, place_cmp, same_place, with_move};
ghost use Rattle.ev_laws.specs.Kept.{kept_row};

use super::differences::push_each;
use super::kept::KeptMessage;
use ev_base::{Keyed, Listed, MessageId, NoMemory, Place, StreamId, Text};
use ev_types::Event;
use std::alloc::Global;

/// The messages that moved, by their new place.
type Moves = Keyed<(StreamId, Text), Listed<MessageId>>;

/// Adds the messages whose place changed, together by their new place.
pub fn push_moves(kept: &[KeptMessage], events: &mut Vec<Event>) -> Result<(), NoMemory>
    ensures { IfOk result (λ _. events.new.items
        ≡ events.old.items ++ move_events (map kept_row kept.now)) }
{
    let moves = group_moves(*events.allocator(), kept)?;
    push_each(events, moves.into_vec(), |((stream, topic), messages)| {
        Event::MessageMoved {
            messages,
            stream,
            topic,
        }
    })
}

fn group_moves(alloc: Global, kept: &[KeptMessage]) -> Result<Moves, NoMemory>
    ensures { IfOk result (λ moves. moves.rows ≡ moves_of (map kept_row kept.now)) }
{
    let mut moves = Keyed::new(alloc);
    for row in kept {
        if let Some(to) = new_place(row)? {
            push_move(alloc, &mut moves, to, row.message)?;
        }
    }
    Ok(moves)
}

// Adds a message to those that moved to a place.
fn push_move(
    alloc: Global,
    moves: &mut Moves,
    to: (StreamId, Text),
    message: MessageId,
) -> Result<(), NoMemory>
    ensures { IfOk result (λ _. moves.new.rows ≡ with_move moves.old.rows to message) }
{
    moves.reserve(1)?;
    let mut messages = take_moved(alloc, moves, to.clone()?);
    messages.push(message)?;
    moves.put(to, Listed::from_vec(messages));
    Ok(())
}

// The messages that moved to a place so far. The place is left with none.
fn take_moved(alloc: Global, moves: &mut Moves, to: (StreamId, Text)) -> Vec<MessageId>
    requires { 1 ≤ moves.old.spare }
    ensures messages { result.items ≡ unwrap_or (row_at place_cmp moves.old.rows to) [] }
    ensures rows { moves.new.rows ≡ insert_entry place_cmp moves.old.rows to [] }
{
    match moves.put(to, Listed::from_vec(Vec::new(alloc))) {
        Some(messages) => messages.into_vec(),
        None => Vec::new(alloc),
    }
}

// The stream and topic that the message moved to, if it did.
fn new_place(row: &KeptMessage) -> Result<Option<(StreamId, Text)>, NoMemory>
    ensures { IfOk result (λ to. to ≡ moved_to (kept_row row.now)) }
{
    if is_same_place(&row.before.place, &row.after.place) {
        return Ok(None);
    }
    match &row.after.place {
        Place::Stream { stream, topic } => Ok(Some((*stream, topic.clone()?))),
        Place::Direct { .. } => Ok(None),
    }
}

// A direct message stays where it is.
fn is_same_place(before: &Place, after: &Place) -> bool
    ensures { result ≡ same_place before.now after.now }
{
    match (before, after) {
        (
            Place::Stream { stream, topic },
            Place::Stream {
                stream: new_stream,
                topic: new_topic,
            },
        ) => stream == new_stream && topic == new_topic,
        (Place::Direct { .. }, Place::Direct { .. }) => true,
        _ => false,
    }
}
