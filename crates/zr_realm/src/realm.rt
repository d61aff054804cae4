//! A realm: the four tables, and what is counted besides.

ghost use Rattle.std.specs.Prelude.{◌≡◌, ◌↔◌, IfOk, IfSome, IsSome, is_some, option_copied};
ghost use Rattle.zr_types.specs.Tables.{message_at, opening_state, receipt_of, stream_at, subscription_of, user_at};
ghost use Rattle.zr_types.specs.Sound.{IsSound, TablesSorted};
ghost use Rattle.zr_types.specs.declared.command.Command.{Command};
ghost use Rattle.zr_types.specs.Checks.{IsChangeOf, WasChecked};
ghost use Rattle.zr_types.specs.Effects.{after_command};
ghost use Rattle.zr_realm.specs.Room.{HasRoom};
ghost use Rattle.zr_realm.specs.Values.{stored_state, tables_of};
ghost use Rattle.zr_types.specs.Visibility.{is_active_user, is_subscribed, is_user};

use crate::counts::{Counts, messages_sent, text_bytes};
use crate::merged::ReceiptBuffer;
use crate::rooms::new_rows;
use crate::tables::RealmTables;
use ev_base::{MessageId, NoMemory, StreamId, Text, TextKind, UserId};
use std::alloc::Global;
use std::marker::Model;
use zr_marks::Marks;
use zr_people::Users;
use zr_posts::Posts;
use zr_streams::Streams;
use zr_types::{Change, Message, RealmRow, Receipt, Stream, Subscription, User};

/// The tables of a realm, with how many commits and messages there ever were, and the bytes of the
/// texts that accepted commands carried.
#[derive(Debug, Drop)]
pub struct Realm {
    pub(crate) tables: RealmTables,
    commits: u64,
    sent: u64,
    text_bytes: u64,
}

impl Model for Realm {
    ghost use Rattle.zr_realm.specs.Values.{RealmValue};
    ghost use Rattle.zr_realm.specs.Stored.{IsKept, value_of};

    ghost Value = { RealmValue };

    ghost view = { λ it. value_of it.tables it.commits it.sent it.text_bytes };

    ghost invariant = { λ it. IsKept it.tables it.sent };
}

impl Realm {
    /// A realm before any commit.
    pub fn new(alloc: Global) -> Result<Realm, NoMemory>
        ensures { IfOk result (λ realm. realm.state ≡ opening_state) }
    {
        let row = opening_row(alloc)?;
        Ok(Realm {
            tables: RealmTables {
                people: Users::new(alloc, row),
                streams: Streams::new(alloc),
                posts: Posts::new(alloc),
                marks: Marks::new(alloc),
                merged: ReceiptBuffer::new(alloc),
            },
            commits: 0,
            sent: 0,
            text_bytes: 0,
        })
    }

    /// A realm of these tables, with what it counted. There is none where they are not sound.
    pub fn from_tables(
        alloc: Global,
        people: Users,
        streams: Streams,
        posts: Posts,
        marks: Marks,
        counts: Counts,
    ) -> Result<Option<Realm>, NoMemory>
        ensures state { IfOk result (λ made. IfSome made
            (λ realm. realm.state ≡ stored_state (tables_of people streams posts marks) counts)) }
        ensures sound { IfOk result
            (λ made. IsSome made ↔ IsSound (tables_of people streams posts marks) counts.sent) }
    {
        let tables = RealmTables {
            people,
            streams,
            posts,
            marks,
            merged: ReceiptBuffer::new(alloc),
        };
        if !tables.are_sound(alloc, counts.sent)? {
            return Ok(None);
        }
        Ok(Some(Realm {
            tables,
            commits: counts.commits,
            sent: counts.sent,
            text_bytes: counts.text_bytes,
        }))
    }

    /// Makes room for a change that a check made.
    pub fn reserve(&mut self, change: &Change) -> Result<(), NoMemory>
        ensures state { self.new.state ≡ self.old.state }
        ensures room { IfOk result (λ _. HasRoom self.new change.now) }
    {
        self.tables.reserve(new_rows(change))
    }

    /// Makes a change that a check made and for which there is room, and returns the commit's
    /// number. Takes no memory.
    pub fn apply(&mut self, change: Change) -> u64
        requires checked { WasChecked self.old.state change }
        requires room { HasRoom self.old change }
        ensures state { (command : Command) → IsChangeOf self.old.state command change
            → self.new.state ≡ after_command change.actor change.moment command self.old.state }
        ensures number { result ≡ self.new.state.commits }
    {
        let bytes = text_bytes(&change.command);
        let messages = messages_sent(&change.command);
        self.tables.change(self.sent, change);
        self.text_bytes += bytes;
        self.sent += messages;
        self.commits += 1;
        self.commits
    }

    pub fn people(&self) -> &Users
        ensures realm { result.now.realm ≡ self.now.state.tables.realm }
        ensures users { result.now.users.rows ≡ self.now.state.tables.users }
    {
        &self.tables.people
    }

    /// The tables of streams and subscriptions. The rows of every table of the realm are sorted.
    pub fn streams(&self) -> &Streams
        ensures streams { result.now.streams.rows ≡ self.now.state.tables.streams }
        ensures subscriptions { result.now.subscriptions.rows
            ≡ self.now.state.tables.subscriptions }
        ensures sorted { TablesSorted self.now.state.tables }
    {
        &self.tables.streams
    }

    pub fn posts(&self) -> &Posts
        ensures messages { result.now.messages.rows ≡ self.now.state.tables.messages }
        ensures receipts { result.now.receipts.rows ≡ self.now.state.tables.receipts }
    {
        &self.tables.posts
    }

    pub fn marks(&self) -> &Marks
        ensures { result.now.reactions.rows ≡ self.now.state.tables.reactions }
    {
        &self.tables.marks
    }

    /// How many commits there were.
    pub fn commits(&self) -> u64
        ensures { result ≡ self.now.state.commits }
    {
        self.commits
    }

    /// How many messages were ever sent.
    pub fn sent(&self) -> u64
        ensures { result ≡ self.now.state.sent }
    {
        self.sent
    }

    /// The bytes of all texts that accepted commands carried.
    pub fn text_bytes(&self) -> u64
        ensures { result ≡ self.now.state.text_bytes }
    {
        self.text_bytes
    }

    /// The row of a user.
    pub fn user(&self, user: UserId) -> Option<&User>
        ensures { option_copied result ≡ user_at self.now.state.tables user }
    {
        self.tables.people.users_get(&user)
    }

    /// The row of a stream.
    pub fn stream(&self, stream: StreamId) -> Option<&Stream>
        ensures { option_copied result ≡ stream_at self.now.state.tables stream }
    {
        self.tables.streams.streams_get(&stream)
    }

    /// The row of a message.
    pub fn message(&self, message: MessageId) -> Option<&Message>
        ensures { option_copied result ≡ message_at self.now.state.tables message }
    {
        self.tables.posts.messages_get(&message)
    }

    /// The subscription of a user to a stream.
    pub fn subscription(&self, user: UserId, stream: StreamId) -> Option<&Subscription>
        ensures { option_copied result ≡ subscription_of self.now.state.tables user stream }
    {
        self.tables.streams.subscriptions_get(&(user, stream))
    }

    /// The receipt of a user for a message.
    pub fn receipt(&self, user: UserId, message: MessageId) -> Option<&Receipt>
        ensures { option_copied result ≡ receipt_of self.now.state.tables user message }
    {
        self.tables.posts.receipts_get(&(message, user))
    }

    pub fn is_user(&self, user: UserId) -> bool
        ensures { result ≡ is_user self.now.state.tables user }
    {
        self.user(user).is_some()
    }

    pub fn is_active_user(&self, user: UserId) -> bool
        ensures { result ≡ is_active_user self.now.state.tables user }
    {
        self.user(user).is_some_and(|row| row.is_active)
    }

    pub fn is_subscribed(&self, user: UserId, stream: StreamId) -> bool
        ensures { result ≡ is_subscribed self.now.state.tables user stream }
    {
        self.subscription(user, stream).is_some()
    }

    pub fn has_receipt(&self, user: UserId, message: MessageId) -> bool
        ensures { result ≡ is_some (receipt_of self.now.state.tables user message) }
    {
        self.receipt(user, message).is_some()
    }
}

// The realm's row before any commit.
fn opening_row(alloc: Global) -> Result<RealmRow, NoMemory>
    ensures { IfOk result (λ row. row ≡ opening_state.tables.realm) }
{
    let name = Text::read(alloc, TextKind::RealmName, "Realm");
    let description = Text::read(alloc, TextKind::RealmDescription, "");
    match (name, description) {
        (Ok(name), Ok(description)) => Ok(RealmRow { name, description }),
        _ => Err(NoMemory),
    }
}
