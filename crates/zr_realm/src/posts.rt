//! Changes to messages, and to the receipts for them.

ghost use Rattle.std.specs.Prelude.{◌≡◌, ◌≤◌, ◌-◌, ◌==◌, ℕ, List, [], Some, filter, fold, length, not, replicate, vec_capacity, vec_len};
ghost use Rattle.std.specs.BTreeMap.{insert_entry};
ghost use Rattle.ev_rows.specs.Rows.{SortedByKey, with_rows};
ghost use Rattle.ev_base.specs.Orders.{message_cmp, message_user_cmp};
ghost use Rattle.zr_types.specs.declared.posts.Message.{Message};
ghost use Rattle.zr_types.specs.Commands.{target_of};
ghost use Rattle.zr_types.specs.Effects.{changed_at, receipt_with, without};
ghost use Rattle.zr_realm.specs.Parts.{messages_of, receipt_rows, users_of};

use crate::merged::{ReceiptBuffer, ReceiptRow};
use crate::texts::Texts;
use ev_base::{Flag, MessageId, Place, StreamId, Text, UserId};
use zr_marks::Marks;
use zr_posts::Posts;
use zr_types::{Message, Receipt};

/// Puts a new message, and by one merge a receipt for each who receives it.
pub fn put_message(
    posts: &mut Posts,
    buffer: &mut ReceiptBuffer,
    message: MessageId,
    row: Message,
    receivers: &[u32],
)
    requires room { 1 ≤ posts.old.messages.spare }
    requires receipts_room { length receivers.now ≤ posts.old.receipts.spare }
    requires buffer { length receivers.now ≤ buffer.old }
    requires sorted { SortedByKey message_user_cmp
        (receipt_rows message row.sender (users_of receivers.now)) }
    ensures messages { posts.new.messages.rows
        ≡ insert_entry message_cmp posts.old.messages.rows message row }
    ensures receipts { posts.new.receipts.rows ≡ with_rows message_user_cmp posts.old.receipts.rows
        (receipt_rows message row.sender (users_of receivers.now)) }
{
    let receipts = new_receipts(buffer.take(), message, row.sender, receivers);
    posts.messages_put(message, row);
    posts.receipts_merge(receipts);
}

// The new receipts of a message, in memory that is there.
fn new_receipts(
    mut rows: Vec<ReceiptRow>,
    message: MessageId,
    sender: UserId,
    receivers: &[u32],
) -> Vec<ReceiptRow>
    requires empty { rows.items ≡ [] }
    requires room { length receivers.now ≤ vec_capacity rows - vec_len rows }
    ensures rows { result.items ≡ receipt_rows message sender (users_of receivers.now) }
    ensures len { vec_len result ≡ length receivers.now }
{
    for number in receivers {
        let user = UserId(*number);
        let receipt = Receipt {
            read: user.0 == sender.0,
            starred: false,
            collapsed: false,
        };
        rows.push_reserved(((message, user), receipt));
    }
    rows
}

pub fn set_content(posts: &mut Posts, message: MessageId, content: Text)
    requires sorted { SortedByKey message_cmp posts.old.messages.rows }
    ensures messages { posts.new.messages.rows
        ≡ changed_at message_cmp message (λ row. record row { content = content })
        posts.old.messages.rows }
    ensures receipts { posts.new.receipts ≡ posts.old.receipts }
{
    if let Some(row) = posts.messages_get_mut(&message) {
        row.content = content;
    }
}

/// Moves messages of streams to a topic, and to a stream where one is given. The topic comes once
/// for each message.
pub fn move_messages(
    posts: &mut Posts,
    messages: &[u32],
    stream: Option<StreamId>,
    mut topics: Texts,
)
    requires sorted { SortedByKey message_cmp posts.old.messages.rows }
    requires topics { length topics ≡ length messages.now }
    ensures messages { (topic : List ℕ) → topics ≡ replicate (length messages.now) topic
        → posts.new.messages.rows ≡ fold
        (λ rows message. changed_at message_cmp message
        (λ row. record row { place = target_of row.place stream (Some topic) }) rows)
        posts.old.messages.rows (messages_of messages.now) }
    ensures receipts { posts.new.receipts ≡ posts.old.receipts }
{
    for number in messages {
        set_place(posts, MessageId(*number), stream, topics.take());
    }
}

// A direct message stays where it is.
fn set_place(posts: &mut Posts, message: MessageId, to: Option<StreamId>, topic: Text)
    requires sorted { SortedByKey message_cmp posts.old.messages.rows }
    ensures messages { posts.new.messages.rows
        ≡ changed_at message_cmp message
        (λ row. record row { place = target_of row.place to (Some topic) })
        posts.old.messages.rows }
    ensures receipts { posts.new.receipts ≡ posts.old.receipts }
{
    let Some(row) = posts.messages_get_mut(&message) else {
        return;
    };
    if let Place::Stream { stream, .. } = &row.place {
        let stream = to.unwrap_or(*stream);
        row.place = Place::Stream { stream, topic };
    }
}

/// Takes a message out, with its receipts and its reactions.
pub fn delete_message(posts: &mut Posts, marks: &mut Marks, message: MessageId)
    ensures messages { posts.new.messages.rows
        ≡ without message_cmp message posts.old.messages.rows }
    ensures receipts { posts.new.receipts.rows
        ≡ filter (λ row. not (row.0.0.0 == message.0)) posts.old.receipts.rows }
    ensures reactions { marks.new.reactions.rows
        ≡ filter (λ row. not (row.0.0.0 == message.0)) marks.old.reactions.rows }
{
    posts.messages_drop_key(&message);
    posts.receipts_drop_of(&message);
    marks.reactions_drop_of(&message);
}

/// Gives a flag of a user's receipts for these messages a value.
pub fn set_flags(posts: &mut Posts, user: UserId, flag: Flag, value: bool, messages: &[u32])
    requires sorted { SortedByKey message_user_cmp posts.old.receipts.rows }
    ensures receipts { posts.new.receipts.rows ≡ fold
        (λ rows message. changed_at message_user_cmp (message, user) (receipt_with flag value) rows)
        posts.old.receipts.rows (messages_of messages.now) }
    ensures messages { posts.new.messages ≡ posts.old.messages }
{
    for number in messages {
        set_flag(posts, (MessageId(*number), user), flag, value);
    }
}

fn set_flag(posts: &mut Posts, key: (MessageId, UserId), flag: Flag, value: bool)
    requires sorted { SortedByKey message_user_cmp posts.old.receipts.rows }
    ensures receipts { posts.new.receipts.rows
        ≡ changed_at message_user_cmp key (receipt_with flag value) posts.old.receipts.rows }
    ensures messages { posts.new.messages ≡ posts.old.messages }
{
    if let Some(row) = posts.receipts_get_mut(&key) {
        match flag {
            Flag::Read => row.read = value,
            Flag::Starred => row.starred = value,
            Flag::Collapsed => row.collapsed = value,
        }
    }
}
