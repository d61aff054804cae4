//! The table of marks.

ghost use Rattle.std.specs.Prelude.{◌≡◌, ◌==◌, ◌≤◌, ◌+◌, ◌-◌, [], drop, length, filter, not, take, if◌then◌else◌, is_some, IsNone, IsOk, OnOk, option_copied};
ghost use Rattle.std.specs.List.{remove_range};
ghost use Rattle.std.specs.Map.{remove_entry};
ghost use Rattle.std.specs.BTreeMap.{insert_entry, is_at};
ghost use Rattle.ev_rows.specs.Rows.{SortedByKey, is_outside, row_at};
ghost use Rattle.ev_base.specs.Orders.{message_cmp, reaction_cmp};

use ev_base::{Keyed, MessageId, NoMemory, Text, UserId};
use std::alloc::Global;
use std::marker::Model;

/// The reactions by message, user and emoji.
///
/// Beside `reactions_reserve` no call takes memory.
#[derive(Debug, Drop)]
pub struct Marks {
    reactions: Keyed<(MessageId, UserId, Text), ()>,
}

impl Model for Marks {
    ghost use Rattle.zr_marks.specs.Tables.{MarkTables};

    ghost Value = { MarkTables };

    ghost view = { λ it. record { reactions = it.reactions } };
}

impl Marks {
    /// No reactions. What is allocated later comes from `alloc`.
    pub fn new(alloc: Global) -> Marks
        ensures { result.reactions.rows ≡ [] }
    {
        Marks {
            reactions: Keyed::new(alloc),
        }
    }

    pub fn reactions_get(&self, key: &(MessageId, UserId, Text)) -> Option<&()>
        ensures { option_copied result ≡ row_at reaction_cmp self.now.reactions.rows key.now }
    {
        self.reactions.get(key)
    }

    /// All reactions, rising by message, then by user, then by emoji.
    pub fn reactions_rows(&self) -> &[((MessageId, UserId, Text), ())]
        ensures all { result.now ≡ self.now.reactions.rows }
        ensures rise { SortedByKey reaction_cmp self.now.reactions.rows }
    {
        self.reactions.rows()
    }

    /// Makes room for `more` reactions that are not there yet.
    pub fn reactions_reserve(&mut self, more: usize) -> Result<(), NoMemory>
        ensures room { OnOk result (more ≤ self.new.reactions.spare) }
        ensures succeeds { more ≤ self.old.reactions.spare → IsOk result }
        ensures rows { self.new.reactions.rows ≡ self.old.reactions.rows }
        ensures spare { self.old.reactions.spare ≤ self.new.reactions.spare }
    {
        self.reactions.reserve(more)
    }

    /// Puts a user's reaction to a message, and answers whether it was there.
    pub fn reactions_put(&mut self, key: (MessageId, UserId, Text), row: ()) -> Option<()>
        requires { IsNone (row_at reaction_cmp self.old.reactions.rows key) → 1 ≤ self.old.reactions.spare }
        ensures before { result ≡ row_at reaction_cmp self.old.reactions.rows key }
        ensures rows { self.new.reactions.rows ≡ insert_entry reaction_cmp self.old.reactions.rows key row }
        ensures room { self.old.reactions.spare
            ≤ self.new.reactions.spare + (if is_some result then 0 else 1) }
    {
        self.reactions.put(key, row)
    }

    /// Takes a user's reaction to a message out, and answers whether it was there.
    pub fn reactions_drop_key(&mut self, key: &(MessageId, UserId, Text)) -> Option<()>
        ensures before { result ≡ row_at reaction_cmp self.old.reactions.rows key.now }
        ensures rows { self.new.reactions.rows
            ≡ remove_entry (is_at (reaction_cmp key.now)) self.old.reactions.rows }
        ensures room { self.old.reactions.spare ≤ self.new.reactions.spare }
    {
        self.reactions.drop_key(key)
    }

    /// Takes out the reactions from `low` to `high`, both included, and answers how many.
    pub fn reactions_drop_between(
        &mut self,
        low: &(MessageId, UserId, Text),
        high: &(MessageId, UserId, Text),
    ) -> u64
        ensures rows { self.new.reactions.rows
            ≡ filter (λ row. is_outside reaction_cmp low.now high.now row.0) self.old.reactions.rows }
        ensures count { result + length self.new.reactions.rows ≡ length self.old.reactions.rows }
        ensures room { self.old.reactions.spare ≤ self.new.reactions.spare }
    {
        self.reactions.drop_between(low, high)
    }

    /// The reactions to a message. They stand side by side, since reactions rise by message first.
    pub fn reactions_of(&self, message: &MessageId) -> &[((MessageId, UserId, Text), ())]
        ensures { result.now
            ≡ filter (λ row. is_at (message_cmp message.now) row.0.0) self.now.reactions.rows }
    {
        let (start, end) = self.places_of(message);
        &self.reactions.rows()[start..end]
    }

    /// Takes out the reactions to a message.
    pub fn reactions_drop_of(&mut self, message: &MessageId)
        ensures rows { self.new.reactions.rows
            ≡ filter (λ row. not (row.0.0.0 == message.now.0)) self.old.reactions.rows }
        ensures room { self.old.reactions.spare ≤ self.new.reactions.spare }
    {
        let (start, end) = self.places_of(message);
        self.reactions.drop_range(start, end);
    }

    // Where the reactions to a message begin, and where they end.
    fn places_of(&self, message: &MessageId) -> (usize, usize)
        ensures order { result.0 ≤ result.1 }
        ensures within { result.1 ≤ length self.now.reactions.rows }
        ensures between { take (result.1 - result.0) (drop result.0 self.now.reactions.rows)
            ≡ filter (λ row. is_at (message_cmp message.now) row.0.0) self.now.reactions.rows }
        ensures outside { remove_range self.now.reactions.rows result.0 result.1
            ≡ filter (λ row. not (row.0.0.0 == message.now.0)) self.now.reactions.rows }
    {
        let rows = self.reactions.rows();
        let start = rows.partition_point(|row| row.0.0.0 < message.0);
        let end = rows.partition_point(|row| row.0.0.0 <= message.0);
        (start, end)
    }
}
