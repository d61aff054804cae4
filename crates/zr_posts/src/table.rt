//! The table of posts.

ghost use Rattle.std.specs.Prelude.{◌≡◌, ◌==◌, ◌≤◌, ◌+◌, ◌-◌, [], drop, length, filter, not, take, if◌then◌else◌, is_some, IsNone, IsOk, OnOk, option_copied, vec_len};
ghost use Rattle.std.specs.Option.{option_copied_mut};
ghost use Rattle.std.specs.Borrow.{sem};
ghost use Rattle.std.specs.List.{remove_range};
ghost use Rattle.std.specs.Map.{remove_entry};
ghost use Rattle.std.specs.BTreeMap.{insert_entry, is_at};
ghost use Rattle.ev_rows.specs.Rows.{SortedByKey, is_outside, row_at, with_rows};
ghost use Rattle.ev_base.specs.Orders.{message_cmp, message_user_cmp};
ghost use Rattle.zr_posts.specs.Lent.{lends_message, lends_receipt};

use ev_base::{Keyed, MessageId, NoMemory, UserId};
use std::alloc::Global;
use std::marker::Model;
use zr_types::{Message, Receipt};

/// The messages by their number, and the receipts by user and message.
///
/// Beside the reserves no call takes memory.
#[derive(Debug, Drop)]
pub struct Posts {
    messages: Keyed<MessageId, Message>,
    receipts: Keyed<(MessageId, UserId), Receipt>,
}

impl Model for Posts {
    ghost use Rattle.zr_posts.specs.Tables.{PostTables};

    ghost Value = { PostTables };

    ghost view = { λ it. record { messages = it.messages; receipts = it.receipts } };
}

impl Posts {
    /// No messages and no receipts. What is allocated later comes from `alloc`.
    pub fn new(alloc: Global) -> Posts
        ensures messages { result.messages.rows ≡ [] }
        ensures receipts { result.receipts.rows ≡ [] }
    {
        Posts {
            messages: Keyed::new(alloc),
            receipts: Keyed::new(alloc),
        }
    }

    pub fn messages_get(&self, key: &MessageId) -> Option<&Message>
        ensures { option_copied result ≡ row_at message_cmp self.now.messages.rows key.now }
    {
        self.messages.get(key)
    }

    pub fn messages_get_mut(&mut self, key: &MessageId) -> Option<&mut Message>
        ensures* writes_back { sem 𝓛 (lends_message self.entry key.now result) }
        ensures value { option_copied_mut result ≡ row_at message_cmp self.old.messages.rows key.now }
    {
        self.messages.get_mut(key)
    }

    /// All messages, rising by number.
    pub fn messages_rows(&self) -> &[(MessageId, Message)]
        ensures all { result.now ≡ self.now.messages.rows }
        ensures rise { SortedByKey message_cmp self.now.messages.rows }
    {
        self.messages.rows()
    }

    /// Makes room for `more` messages that are not there yet.
    pub fn messages_reserve(&mut self, more: usize) -> Result<(), NoMemory>
        ensures room { OnOk result (more ≤ self.new.messages.spare) }
        ensures succeeds { more ≤ self.old.messages.spare → IsOk result }
        ensures rows { self.new.messages.rows ≡ self.old.messages.rows }
        ensures spare { self.old.messages.spare ≤ self.new.messages.spare }
        ensures receipts { self.new.receipts ≡ self.old.receipts }
    {
        self.messages.reserve(more)
    }

    /// Writes the message's row, and answers the one that the message had.
    pub fn messages_put(&mut self, key: MessageId, row: Message) -> Option<Message>
        requires { IsNone (row_at message_cmp self.old.messages.rows key) → 1 ≤ self.old.messages.spare }
        ensures before { result ≡ row_at message_cmp self.old.messages.rows key }
        ensures rows { self.new.messages.rows ≡ insert_entry message_cmp self.old.messages.rows key row }
        ensures room { self.old.messages.spare
            ≤ self.new.messages.spare + (if is_some result then 0 else 1) }
        ensures receipts { self.new.receipts ≡ self.old.receipts }
    {
        self.messages.put(key, row)
    }

    /// Takes the message's row out, and answers it.
    pub fn messages_drop_key(&mut self, key: &MessageId) -> Option<Message>
        ensures before { result ≡ row_at message_cmp self.old.messages.rows key.now }
        ensures rows { self.new.messages.rows
            ≡ remove_entry (is_at (message_cmp key.now)) self.old.messages.rows }
        ensures room { self.old.messages.spare ≤ self.new.messages.spare }
        ensures receipts { self.new.receipts ≡ self.old.receipts }
    {
        self.messages.drop_key(key)
    }

    /// Takes out the messages from `low` to `high`, both included, and answers how many.
    pub fn messages_drop_between(&mut self, low: &MessageId, high: &MessageId) -> u64
        ensures rows { self.new.messages.rows
            ≡ filter (λ row. is_outside message_cmp low.now high.now row.0) self.old.messages.rows }
        ensures count { result + length self.new.messages.rows ≡ length self.old.messages.rows }
        ensures room { self.old.messages.spare ≤ self.new.messages.spare }
        ensures receipts { self.new.receipts ≡ self.old.receipts }
    {
        self.messages.drop_between(low, high)
    }

    pub fn receipts_get(&self, key: &(MessageId, UserId)) -> Option<&Receipt>
        ensures { option_copied result ≡ row_at message_user_cmp self.now.receipts.rows key.now }
    {
        self.receipts.get(key)
    }

    pub fn receipts_get_mut(&mut self, key: &(MessageId, UserId)) -> Option<&mut Receipt>
        ensures* writes_back { sem 𝓛 (lends_receipt self.entry key.now result) }
        ensures value { option_copied_mut result ≡ row_at message_user_cmp self.old.receipts.rows key.now }
    {
        self.receipts.get_mut(key)
    }

    /// All receipts, rising by message and then by user.
    pub fn receipts_rows(&self) -> &[((MessageId, UserId), Receipt)]
        ensures all { result.now ≡ self.now.receipts.rows }
        ensures rise { SortedByKey message_user_cmp self.now.receipts.rows }
    {
        self.receipts.rows()
    }

    /// Makes room for `more` receipts that are not there yet.
    pub fn receipts_reserve(&mut self, more: usize) -> Result<(), NoMemory>
        ensures room { OnOk result (more ≤ self.new.receipts.spare) }
        ensures succeeds { more ≤ self.old.receipts.spare → IsOk result }
        ensures rows { self.new.receipts.rows ≡ self.old.receipts.rows }
        ensures spare { self.old.receipts.spare ≤ self.new.receipts.spare }
        ensures messages { self.new.messages ≡ self.old.messages }
    {
        self.receipts.reserve(more)
    }

    /// Writes the receipt of a user for a message, and answers the one that was there.
    pub fn receipts_put(&mut self, key: (MessageId, UserId), row: Receipt) -> Option<Receipt>
        requires { IsNone (row_at message_user_cmp self.old.receipts.rows key) → 1 ≤ self.old.receipts.spare }
        ensures before { result ≡ row_at message_user_cmp self.old.receipts.rows key }
        ensures rows { self.new.receipts.rows ≡ insert_entry message_user_cmp self.old.receipts.rows key row }
        ensures room { self.old.receipts.spare
            ≤ self.new.receipts.spare + (if is_some result then 0 else 1) }
        ensures messages { self.new.messages ≡ self.old.messages }
    {
        self.receipts.put(key, row)
    }

    /// Puts each of the new receipts, all in one pass.
    pub fn receipts_merge(&mut self, new_rows: Vec<((MessageId, UserId), Receipt)>)
        requires rise { SortedByKey message_user_cmp new_rows.items }
        requires room { vec_len new_rows ≤ self.old.receipts.spare }
        ensures rows { self.new.receipts.rows ≡ with_rows message_user_cmp self.old.receipts.rows new_rows.items }
        ensures room { self.old.receipts.spare ≤ self.new.receipts.spare + vec_len new_rows }
        ensures messages { self.new.messages ≡ self.old.messages }
    {
        self.receipts.merge(new_rows);
    }

    /// Takes the receipt of a user for a message out, and answers it.
    pub fn receipts_drop_key(&mut self, key: &(MessageId, UserId)) -> Option<Receipt>
        ensures before { result ≡ row_at message_user_cmp self.old.receipts.rows key.now }
        ensures rows { self.new.receipts.rows
            ≡ remove_entry (is_at (message_user_cmp key.now)) self.old.receipts.rows }
        ensures room { self.old.receipts.spare ≤ self.new.receipts.spare }
        ensures messages { self.new.messages ≡ self.old.messages }
    {
        self.receipts.drop_key(key)
    }

    /// Takes out the receipts from `low` to `high`, both included, and answers how many.
    pub fn receipts_drop_between(
        &mut self,
        low: &(MessageId, UserId),
        high: &(MessageId, UserId),
    ) -> u64
        ensures rows { self.new.receipts.rows
            ≡ filter (λ row. is_outside message_user_cmp low.now high.now row.0) self.old.receipts.rows }
        ensures count { result + length self.new.receipts.rows ≡ length self.old.receipts.rows }
        ensures room { self.old.receipts.spare ≤ self.new.receipts.spare }
        ensures messages { self.new.messages ≡ self.old.messages }
    {
        self.receipts.drop_between(low, high)
    }

    /// The receipts for a message. They stand side by side, since receipts rise by message first.
    pub fn receipts_of(&self, message: &MessageId) -> &[((MessageId, UserId), Receipt)]
        ensures { result.now
            ≡ filter (λ row. is_at (message_cmp message.now) row.0.0) self.now.receipts.rows }
    {
        let (start, end) = self.places_of(message);
        &self.receipts.rows()[start..end]
    }

    /// Takes out the receipts for a message.
    pub fn receipts_drop_of(&mut self, message: &MessageId)
        ensures rows { self.new.receipts.rows
            ≡ filter (λ row. not (row.0.0.0 == message.now.0)) self.old.receipts.rows }
        ensures room { self.old.receipts.spare ≤ self.new.receipts.spare }
        ensures messages { self.new.messages ≡ self.old.messages }
    {
        let (start, end) = self.places_of(message);
        self.receipts.drop_range(start, end);
    }

    // Where the receipts for a message begin, and where they end.
    fn places_of(&self, message: &MessageId) -> (usize, usize)
        ensures order { result.0 ≤ result.1 }
        ensures within { result.1 ≤ length self.now.receipts.rows }
        ensures between { take (result.1 - result.0) (drop result.0 self.now.receipts.rows)
            ≡ filter (λ row. is_at (message_cmp message.now) row.0.0) self.now.receipts.rows }
        ensures outside { remove_range self.now.receipts.rows result.0 result.1
            ≡ filter (λ row. not (row.0.0.0 == message.now.0)) self.now.receipts.rows }
    {
        let rows = self.receipts.rows();
        let start = rows.partition_point(|row| row.0.0.0 < message.0);
        let end = rows.partition_point(|row| row.0.0.0 <= message.0);
        (start, end)
    }
}
