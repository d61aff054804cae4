//! What changed in the messages and their reactions.

ghost use Rattle.std.specs.Prelude.{◌≡◌, ◌++◌, filter, map, IfOk};
ghost use Rattle.std.specs.BTreeMap.{is_at};
ghost use Rattle.ev_rows.specs.Rows.{SortedByKey, gained};
ghost use Rattle.ev_base.specs.Orders.{message_cmp, reaction_cmp};
ghost use Rattle.ev_types.specs.Changes.{arrivals, edits, full_message};

use super::differences::{Changing, gained_rows, push_change};
use super::ranges::rows_under;
use ev_base::{ExactClone, Keyed, Listed, MessageId, NoMemory, Text, UserId};
use ev_types::{Event, FullMessage, ShownMessage};
use std::alloc::Global;

type Messages = Keyed<MessageId, ShownMessage>;

type Reactions = Keyed<(MessageId, UserId, Text), ()>;

type ReactionRow = ((MessageId, UserId, Text), ());

/// Adds the new messages with their reactions: one alone, or several restored.
pub fn push_arrivals(
    before: &Messages,
    after: &Messages,
    reactions: &Reactions,
    events: &mut Vec<Event>,
) -> Result<(), NoMemory>
    ensures { IfOk result (λ _. events.new.items ≡ events.old.items
        ++ arrivals (map (full_message reactions.now.rows) (gained message_cmp before.now.rows after.now.rows))) }
{
    let alloc = *events.allocator();
    let mut messages = Vec::new(alloc);
    for (message, row) in gained_rows(alloc, before, after)? {
        messages.push(with_reactions(alloc, reactions.rows(), message, row)?)?;
    }
    push_all_new(events, messages)
}

/// The message with its reactions, of those given.
pub fn with_reactions(
    alloc: Global,
    reactions: &[ReactionRow],
    message: MessageId,
    row: ShownMessage,
) -> Result<FullMessage, NoMemory>
    requires { SortedByKey reaction_cmp reactions.now }
    ensures { IfOk result (λ full. full ≡ full_message reactions.now (message, row)) }
{
    let mut told = Vec::new(alloc);
    for (key, _) in reactions_to(reactions, message) {
        told.push((key.1, key.2.clone()?))?;
    }
    Ok(FullMessage {
        message,
        row,
        reactions: Listed::from_vec(told),
    })
}

// The reactions to one message.
fn reactions_to(reactions: &[ReactionRow], message: MessageId) -> &[ReactionRow]
    requires { SortedByKey reaction_cmp reactions.now }
    ensures { result.now ≡ filter (λ row. is_at (message_cmp message) row.0.0) reactions.now }
{
    rows_under(reactions, message.0)
}

/// Adds the event of new messages: of one alone, or of several restored.
pub fn push_all_new(events: &mut Vec<Event>, mut messages: Vec<FullMessage>) -> Result<(), NoMemory>
    ensures { IfOk result (λ _. events.new.items ≡ events.old.items ++ arrivals messages.items) }
{
    if messages.len() > 1 {
        events.push(Event::MessagesRestored(Listed::from_vec(messages)))?;
        return Ok(());
    }
    match messages.pop() {
        Some(message) => Ok(events.push(Event::MessageNew(message))?),
        None => Ok(()),
    }
}

// What is told of a message that stands in both views by its number alone: the content.
impl Changing<MessageId> for ShownMessage {
    ghost changes = { edits };

    fn push_changes(
        message: MessageId,
        before: &ShownMessage,
        after: &ShownMessage,
        events: &mut Vec<Event>,
    ) -> Result<(), NoMemory> {
        push_change(events, &before.content, &after.content, |content| {
            Event::MessageEdited { message, content }
        })
    }
}
