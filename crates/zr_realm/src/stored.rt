//! Whether tables that come from elsewhere are those of a realm.

ghost use Rattle.std.specs.Prelude.{◌≡◌, ◌↔◌, ℕ, Bool, ◌&&◌, List, true, IfOk};
ghost use Rattle.std.specs.List.{list_all};
ghost use Rattle.zr_types.specs.Sound.{IsSound, TablesSorted, is_message, is_sent, is_stream, refers_to_rows, is_valid_message, is_valid_reaction, is_valid_receipt, is_valid_subscription};
ghost use Rattle.zr_realm.specs.SoundTests.{count_from, is_sound, rows_are_valid, texts_differ};
ghost use Rattle.zr_realm.specs.Stored.{tables_in};
ghost use Rattle.zr_types.specs.Visibility.{is_user};

use crate::tables::RealmTables;
use ev_base::{MessageId, NoMemory, Place, StreamId, Text, UserId};
use std::alloc::Global;
use std::collections::BTreeSet;
use zr_types::{Message, Stream, User};

// A key that counts rows from 1 on.
trait Numbered {
    ghost number: { Self → ℕ };

    fn number(&self) -> u32
        ensures { result ≡ number self.now };
}

impl Numbered for UserId {
    ghost number = { λ user. user.0 };

    fn number(&self) -> u32 {
        self.0
    }
}

impl Numbered for StreamId {
    ghost number = { λ stream. stream.0 };

    fn number(&self) -> u32 {
        self.0
    }
}

fn count_from_one<K: Numbered, V>(rows: &[(K, V)]) -> bool
    ensures { result ≡ count_from K.number 1 rows.now }
{
    let mut next: usize = 1;
    for row in rows {
        if row.0.number() as usize != next {
            return false;
        }
        next += 1;
    }
    true
}

// A row with a text of its own: where the row counts, no other row that counts may have this text.
trait HasOwnText {
    ghost counts: { Self → Bool };

    ghost text: { Self → List ℕ };

    fn counts(&self) -> bool
        ensures { result ≡ counts self.now };

    fn text(&self) -> &Text
        ensures { result.now ≡ text self.now };
}

impl HasOwnText for Stream {
    ghost use Rattle.zr_types.specs.Sound.{is_unarchived};

    ghost counts = { is_unarchived };

    ghost text = { λ row. row.name };

    fn counts(&self) -> bool {
        !self.archived
    }

    fn text(&self) -> &Text {
        &self.name
    }
}

impl HasOwnText for User {
    ghost use Rattle.zr_types.specs.Sound.{always};

    ghost counts = { always };

    ghost text = { λ row. row.email };

    fn counts(&self) -> bool {
        true
    }

    fn text(&self) -> &Text {
        &self.email
    }
}

fn texts_differ<K, V: HasOwnText>(alloc: Global, rows: &[(K, V)]) -> Result<bool, NoMemory>
    ensures { IfOk result (λ differ. differ ≡ texts_differ V.counts V.text rows.now) }
{
    let mut seen = BTreeSet::new(alloc);
    for row in rows {
        if row.1.counts() && !seen.insert(row.1.text())? {
            return Ok(false);
        }
    }
    Ok(true)
}

impl RealmTables {
    /// Whether the tables are sound, with so many messages ever sent.
    pub fn are_sound(&self, alloc: Global, sent: u64) -> Result<bool, NoMemory>
        ensures sound { IfOk result (λ sound. (sound ≡ true) ↔ IsSound (tables_in self.now) sent) }
        ensures sorted { IfOk result (λ _. TablesSorted (tables_in self.now)) }
    {
        let passes = self.pass_tests(alloc, sent)?;
        self.tables_rise();
        Ok(passes)
    }

    fn tables_rise(&self)
        ensures { TablesSorted (tables_in self.now) }
    {
        self.people.users_rows();
        self.streams.streams_rows();
        self.streams.subscriptions_rows();
        self.posts.messages_rows();
        self.posts.receipts_rows();
        self.marks.reactions_rows();
    }

    fn pass_tests(&self, alloc: Global, sent: u64) -> Result<bool, NoMemory>
        ensures { IfOk result (λ passes. passes ≡ is_sound (tables_in self.now) sent) }
    {
        Ok(
            self.rows_are_valid(sent)
                && texts_differ(alloc, self.streams.streams_rows())?
                && texts_differ(alloc, self.people.users_rows())?,
        )
    }

    fn rows_are_valid(&self, sent: u64) -> bool
        ensures { result ≡ rows_are_valid (tables_in self.now) sent }
    {
        count_from_one(self.people.users_rows())
            && count_from_one(self.streams.streams_rows())
            && self.messages_are_valid(sent)
            && self.subscriptions_are_valid()
            && self.receipts_are_valid()
            && self.reactions_are_valid()
    }

    fn has_user(&self, user: UserId) -> bool
        ensures { result ≡ is_user (tables_in self.now) user }
    {
        self.people.users_get(&user).is_some()
    }

    fn has_users(&self, users: &[UserId]) -> bool
        ensures { result ≡ list_all (is_user (tables_in self.now)) users.now }
    {
        users.iter().all(|user| self.has_user(*user))
    }

    fn has_stream(&self, stream: StreamId) -> bool
        ensures { result ≡ is_stream (tables_in self.now) stream }
    {
        self.streams.streams_get(&stream).is_some()
    }

    fn has_message(&self, message: MessageId) -> bool
        ensures { result ≡ is_message (tables_in self.now) message }
    {
        self.posts.messages_get(&message).is_some()
    }

    fn refers_to_rows(&self, place: &Place) -> bool
        ensures { result ≡ refers_to_rows (tables_in self.now) place.now }
    {
        match place {
            Place::Stream { stream, .. } => self.has_stream(*stream),
            Place::Direct { recipients } => self.has_users(recipients.as_slice()),
        }
    }

    fn is_valid_message(&self, row: &Message) -> bool
        ensures { result ≡ is_valid_message (tables_in self.now) row.now }
    {
        self.has_user(row.sender) && self.refers_to_rows(&row.place)
    }

    fn messages_are_valid(&self, sent: u64) -> bool
        ensures { result ≡ list_all (λ row. is_sent sent row.0
            && is_valid_message (tables_in self.now) row.1) self.now.posts.messages.rows }
    {
        let rows = self.posts.messages_rows();
        rows.iter().all(|row| is_sent(sent, row.0) && self.is_valid_message(&row.1))
    }

    fn subscriptions_are_valid(&self) -> bool
        ensures { result ≡ list_all (λ row. is_valid_subscription (tables_in self.now) row.0)
            self.now.streams.subscriptions.rows }
    {
        let rows = self.streams.subscriptions_rows();
        rows.iter()
            .all(|row| self.has_user(row.0.0) && self.has_stream(row.0.1))
    }

    fn receipts_are_valid(&self) -> bool
        ensures { result ≡ list_all (λ row. is_valid_receipt (tables_in self.now) row.0)
            self.now.posts.receipts.rows }
    {
        let rows = self.posts.receipts_rows();
        rows.iter()
            .all(|row| self.has_message(row.0.0) && self.has_user(row.0.1))
    }

    fn reactions_are_valid(&self) -> bool
        ensures { result ≡ list_all (λ row. is_valid_reaction (tables_in self.now) row.0)
            self.now.marks.reactions.rows }
    {
        let rows = self.marks.reactions_rows();
        rows.iter()
            .all(|row| self.has_message(row.0.0) && self.has_user(row.0.1))
    }
}

fn is_sent(sent: u64, message: MessageId) -> bool
    ensures { result ≡ is_sent sent message }
{
    1 <= message.0 && message.0 as u64 <= sent
}
