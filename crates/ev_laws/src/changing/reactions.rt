//! The reactions to messages that stand in both views.

ghost use Rattle.std.specs.Prelude.{◌≡◌, ◌++◌, ◌&&◌, filter, is_some, map, IfOk};
ghost use Rattle.ev_rows.specs.Rows.{gained, row_at};
ghost use Rattle.ev_base.specs.Orders.{message_cmp, reaction_cmp};
ghost use Rattle.ev_types.specs.declared.event.Event.TheVariants.{ReactionAdd, ReactionRemove};

use super::differences::{gained_rows, push_each};
use ev_base::{Keyed, MessageId, NoMemory, Text, UserId};
use ev_types::{Event, ShownMessage};
use std::alloc::Global;

type Messages = Keyed<MessageId, ShownMessage>;

type Reactions = Keyed<(MessageId, UserId, Text), ()>;

/// Adds the reactions that were added to messages that stand in both views, and then those that were
/// removed from them.
pub fn push_reactions(
    messages_before: &Messages,
    messages_after: &Messages,
    before: &Reactions,
    after: &Reactions,
    events: &mut Vec<Event>,
) -> Result<(), NoMemory>
    ensures { IfOk result (λ _. events.new.items ≡ events.old.items
        ++ (map (λ row. ReactionAdd row.0.0 row.0.1 row.0.2)
        (filter (λ row. is_some (row_at message_cmp messages_before.now.rows row.0.0)
        && is_some (row_at message_cmp messages_after.now.rows row.0.0))
        (gained reaction_cmp before.now.rows after.now.rows))
        ++ map (λ row. ReactionRemove row.0.0 row.0.1 row.0.2)
        (filter (λ row. is_some (row_at message_cmp messages_before.now.rows row.0.0)
        && is_some (row_at message_cmp messages_after.now.rows row.0.0))
        (gained reaction_cmp after.now.rows before.now.rows)))) }
{
    let alloc = *events.allocator();
    let added = told_rows(alloc, messages_before, messages_after, before, after)?;
    push_each(events, added, |((message, user, emoji), _)| {
        Event::ReactionAdd {
            message,
            user,
            emoji,
        }
    })?;
    let removed = told_rows(alloc, messages_before, messages_after, after, before)?;
    push_each(events, removed, |((message, user, emoji), _)| {
        Event::ReactionRemove {
            message,
            user,
            emoji,
        }
    })
}

// The reactions afterwards that weren't there before, to messages that stand in both views.
fn told_rows(
    alloc: Global,
    messages_before: &Messages,
    messages_after: &Messages,
    before: &Reactions,
    after: &Reactions,
) -> Result<Vec<((MessageId, UserId, Text), ())>, NoMemory>
    ensures { IfOk result (λ rows. rows.items
        ≡ filter (λ row. is_some (row_at message_cmp messages_before.now.rows row.0.0)
        && is_some (row_at message_cmp messages_after.now.rows row.0.0))
        (gained reaction_cmp before.now.rows after.now.rows)) }
{
    let mut rows = gained_rows(alloc, before, after)?;
    rows.retain(|row| is_kept(messages_before, messages_after, row.0.0));
    Ok(rows)
}

fn is_kept(before: &Messages, after: &Messages, message: MessageId) -> bool
    ensures { result ≡ (is_some (row_at message_cmp before.now.rows message)
        && is_some (row_at message_cmp after.now.rows message)) }
{
    before.get(&message).is_some() && after.get(&message).is_some()
}
