//! What those who receive a new message are told.

ghost use Rattle.std.specs.Prelude.{◌≡◌, ◌<◌, ◌+◌, ◌^◌, ◌++◌, IfOk};
ghost use Rattle.ev_base.specs.declared.place.Place.{Place};
ghost use Rattle.zr_realm.specs.Parts.{users_of};
ghost use Rattle.nt_posts.specs.PostParts.{new_message, others, sent_parts, sent_row};

use ev_base::{Listed, MessageId, NoMemory, Place, StreamId, Text, UserId};
use ev_types::{Event, FullMessage, MessageFlags, Part, ShownMessage};
use nt_parts::push_to_users;
use std::alloc::Global;
use zr_types::Message;

/// Who sends a message and when, and how many messages were sent before.
#[derive(Clone, Copy)]
pub struct Author {
    pub actor: UserId,
    pub moment: u64,
    pub sent: u64,
}

/// Tells the receivers of a message to a stream.
pub fn push_stream_message(
    author: Author,
    stream: StreamId,
    topic: &Text,
    content: &Text,
    receivers: &[u32],
    parts: &mut Vec<Part>,
) -> Result<(), NoMemory>
    requires { author.sent + 1 < 2 ^ 32 }
    ensures { IfOk result (λ _. parts.new.items ≡ parts.old.items
        ++ sent_parts (record { 0 = author.sent + 1 }) (sent_row author.actor author.moment
        (Place.Stream stream topic.now) content.now) (users_of receivers.now)) }
{
    let topic = topic.clone()?;
    let row = sent_row(author, Place::Stream { stream, topic }, content)?;
    push_sent(next_message(author.sent), &row, receivers, parts)
}

/// Tells the receivers of a direct message.
pub fn push_direct_message(
    author: Author,
    recipients: &Listed<UserId>,
    content: &Text,
    receivers: &[u32],
    parts: &mut Vec<Part>,
) -> Result<(), NoMemory>
    requires { author.sent + 1 < 2 ^ 32 }
    ensures { IfOk result (λ _. parts.new.items ≡ parts.old.items
        ++ sent_parts (record { 0 = author.sent + 1 }) (sent_row author.actor author.moment
        (Place.Direct recipients.now) content.now) (users_of receivers.now)) }
{
    let recipients = recipients.clone()?;
    let row = sent_row(author, Place::Direct { recipients }, content)?;
    push_sent(next_message(author.sent), &row, receivers, parts)
}

// The number of the next message.
fn next_message(sent: u64) -> MessageId
    requires { sent + 1 < 2 ^ 32 }
    ensures { result ≡ record { 0 = sent + 1 } }
{
    MessageId(sent as u32 + 1)
}

fn sent_row(author: Author, place: Place, content: &Text) -> Result<Message, NoMemory>
    ensures { IfOk result
        (λ row. row ≡ sent_row author.actor author.moment place content.now) }
{
    Ok(Message {
        sender: author.actor,
        place,
        content: content.clone()?,
        timestamp: author.moment,
    })
}

// The sender has read the message, and the other receivers haven't.
fn push_sent(
    message: MessageId,
    row: &Message,
    receivers: &[u32],
    parts: &mut Vec<Part>,
) -> Result<(), NoMemory>
    ensures { IfOk result (λ _. parts.new.items ≡ parts.old.items
        ++ sent_parts message row.now (users_of receivers.now)) }
{
    let alloc = *parts.allocator();
    let own = new_message(alloc, message, row, true)?;
    push_to_users(parts, vec![in alloc; row.sender]?, Event::MessageNew(own))?;
    let unread = new_message(alloc, message, row, false)?;
    let users = others(alloc, row.sender, receivers)?;
    push_to_users(parts, users, Event::MessageNew(unread))
}

fn new_message(
    alloc: Global,
    message: MessageId,
    row: &Message,
    read: bool,
) -> Result<FullMessage, NoMemory>
    ensures { IfOk result (λ full. full ≡ new_message message row.now read) }
{
    let row = ShownMessage {
        sender: row.sender,
        place: row.place.clone()?,
        content: row.content.clone()?,
        timestamp: row.timestamp,
        flags: MessageFlags {
            read,
            starred: false,
            collapsed: false,
        },
    };
    Ok(FullMessage {
        message,
        row,
        reactions: Listed::from_vec(Vec::new(alloc)),
    })
}

fn others(alloc: Global, sender: UserId, receivers: &[u32]) -> Result<Vec<UserId>, NoMemory>
    ensures { IfOk result (λ users. users.items ≡ others sender (users_of receivers.now)) }
{
    let users = receivers.iter().map(|number| UserId(*number));
    Ok(users.filter(|user| user.0 != sender.0).collect(alloc)?)
}
