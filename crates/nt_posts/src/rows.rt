//! What those who have a message are told of its content, and of its end.

ghost use Rattle.std.specs.Prelude.{◌≡◌, ◌++◌, IfOk};
ghost use Rattle.nt_posts.specs.PostParts.{deleted_parts, edited_parts};

use ev_base::{Listed, MessageId, NoMemory, Text};
use ev_types::{Event, Part};
use nt_parts::push_to_readers;
use zr_realm::Realm;

/// Tells those who have a message of its new content.
pub fn push_edited(
    realm: &Realm,
    message: MessageId,
    content: &Text,
    parts: &mut Vec<Part>,
) -> Result<(), NoMemory>
    ensures { IfOk result (λ _. parts.new.items ≡ parts.old.items
        ++ edited_parts realm.now.state.tables message content.now) }
{
    let Some(row) = realm.message(message) else {
        return Ok(());
    };
    if row.content == *content {
        return Ok(());
    }
    let content = content.clone()?;
    push_to_readers(
        realm,
        message,
        Event::MessageEdited { message, content },
        parts,
    )
}

/// Tells those who have a message that it is gone.
pub fn push_deleted(
    realm: &Realm,
    message: MessageId,
    parts: &mut Vec<Part>,
) -> Result<(), NoMemory>
    ensures { IfOk result (λ _. parts.new.items
        ≡ parts.old.items ++ deleted_parts realm.now.state.tables message) }
{
    let messages = Listed::from_vec(vec![in *parts.allocator(); message]?);
    push_to_readers(realm, message, Event::MessageGone(messages), parts)
}
