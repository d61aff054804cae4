//! The four tables of a realm, and what a change makes of them.

ghost use Rattle.std.specs.Prelude.{◌≡◌, ◌≤◌, ◌<◌, ◌+◌, ◌^◌, IfOk, OnOk, length};
ghost use Rattle.std.specs.List.Sorted.{IsStrictlySortedBy};
ghost use Rattle.std.specs.Ordering.{nat_cmp};
ghost use Rattle.ev_rows.specs.Rows.{SortedByKey};
ghost use Rattle.ev_base.specs.Orders.{message_cmp, message_user_cmp};
ghost use Rattle.zr_types.specs.declared.command.Command.{Command};
ghost use Rattle.zr_types.specs.Effects.{next_user, sends, with_message};
ghost use Rattle.zr_types.specs.Sound.{IsSound, TablesSorted};
ghost use Rattle.zr_realm.specs.Parts.{IsReady, effect_by_ids, mark_effect_by_ids, post_effect_by_ids, texts_by_ids, users_of};
ghost use Rattle.zr_realm.specs.Room.{IsRoomFor, new_rows};
ghost use Rattle.zr_realm.specs.Stored.{rooms_in, tables_in};

use crate::marks::{add_reaction, remove_reaction};
use crate::merged::ReceiptBuffer;
use crate::people::change_people;
use crate::posts::{delete_message, move_messages, put_message, set_content, set_flags};
use crate::rooms::Rooms;
use crate::streams::change_streams;
use crate::texts::Texts;
use ev_base::{MessageId, NoMemory, Place, Text, UserId};
use zr_marks::Marks;
use zr_people::Users;
use zr_posts::Posts;
use zr_streams::Streams;
use zr_types::{Change, Command, MarkCommand, Message, PostCommand, StreamRef};

/// The four tables, and the buffer in which new receipts are made.
#[derive(Debug, Drop)]
pub struct RealmTables {
    pub people: Users,
    pub streams: Streams,
    pub posts: Posts,
    pub marks: Marks,
    pub merged: ReceiptBuffer,
}

/// Who changes messages, at what moment, and how many were sent before.
#[derive(Clone, Copy)]
pub struct Author {
    pub actor: UserId,
    pub moment: u64,
    pub sent: u64,
}

impl RealmTables {
    /// Makes room for these rows.
    pub fn reserve(&mut self, rows: Rooms) -> Result<(), NoMemory>
        ensures tables { tables_in self.new ≡ tables_in self.old }
        ensures room { OnOk result (IsRoomFor rows (rooms_in self.new)) }
    {
        self.people.users_reserve(rows.users)?;
        self.streams.streams_reserve(rows.streams)?;
        self.streams.subscriptions_reserve(rows.subscriptions)?;
        self.posts.messages_reserve(rows.messages)?;
        self.posts.receipts_reserve(rows.receipts)?;
        self.marks.reactions_reserve(rows.reactions)?;
        self.merged.reserve(rows.merged)
    }

    /// Makes a change for which there is room, where so many messages were ever sent.
    pub fn change(&mut self, sent: u64, change: Change)
        requires sorted { TablesSorted (tables_in self.old) }
        requires sound { IsSound (tables_in self.old) sent }
        requires ready { IsReady (tables_in self.old) sent change }
        requires room { IsRoomFor (new_rows change.command (length change.ids))
            (rooms_in self.old) }
        ensures { tables_in self.new ≡ effect_by_ids change.actor change.moment
            (record { 0 = sent + 1 }) change.command change.ids (tables_in self.old) }
    {
        let Change {
            actor,
            moment,
            command,
            texts,
            ids,
        } = change;
        let texts = Texts::new(texts);
        match command {
            Command::People(command) => change_people(&mut self.people, command, texts),
            Command::Streams(command) => change_streams(&mut self.streams, actor, command, texts),
            Command::Posts(command) => {
                let author = Author {
                    actor,
                    moment,
                    sent,
                };
                self.change_posts(author, command, texts, ids.as_slice());
            }
            Command::Marks(command) => self.change_marks(actor, command, texts, ids.as_slice()),
        }
    }

    fn change_posts(&mut self, author: Author, command: PostCommand, mut texts: Texts, ids: &[u32])
        requires sorted { SortedByKey message_cmp self.old.posts.messages.rows }
        requires texts { texts ≡ texts_by_ids (Command.Posts command) ids.now }
        requires number { 0 < sends (Command.Posts command) → author.sent + 1 < 2 ^ 32 }
        requires receivers { 0 < sends (Command.Posts command)
            → IsStrictlySortedBy nat_cmp ids.now }
        requires room { IsRoomFor (new_rows (Command.Posts command) (length ids.now))
            (rooms_in self.old) }
        ensures { tables_in self.new ≡ post_effect_by_ids author.actor author.moment
            (record { 0 = author.sent + 1 }) command ids.now (tables_in self.old) }
    {
        match command {
            PostCommand::SendStream {
                to: StreamRef::Id(stream),
                ..
            } => {
                let topic = texts.take();
                let place = Place::Stream { stream, topic };
                self.send(author, place, texts.take(), ids);
            }
            // A check replaces each name by its stream's number.
            PostCommand::SendStream {
                to: StreamRef::Name(_),
                ..
            } => {}
            PostCommand::SendDm { users, .. } => {
                let place = Place::Direct { recipients: users };
                self.send(author, place, texts.take(), ids);
            }
            PostCommand::EditContent { message, .. } => {
                set_content(&mut self.posts, message, texts.take())
            }
            PostCommand::Move { stream, .. } => move_messages(&mut self.posts, ids, stream, texts),
            PostCommand::Delete { message } => {
                delete_message(&mut self.posts, &mut self.marks, message)
            }
        }
    }

    // Puts the next message.
    fn send(&mut self, author: Author, place: Place, content: Text, ids: &[u32])
        requires number { author.sent + 1 < 2 ^ 32 }
        requires receivers { IsStrictlySortedBy nat_cmp ids.now }
        requires room { 1 ≤ self.old.posts.messages.spare }
        requires receipts { length ids.now ≤ self.old.posts.receipts.spare }
        requires buffer { length ids.now ≤ self.old.merged }
        ensures { tables_in self.new ≡ with_message (tables_in self.old)
            (record { 0 = author.sent + 1 }) author.actor place content author.moment
            (users_of ids.now) }
    {
        let message = MessageId(author.sent as u32 + 1);
        let row = Message {
            sender: author.actor,
            place,
            content,
            timestamp: author.moment,
        };
        put_message(&mut self.posts, &mut self.merged, message, row, ids);
    }

    fn change_marks(&mut self, actor: UserId, command: MarkCommand, mut texts: Texts, ids: &[u32])
        requires sorted { SortedByKey message_user_cmp self.old.posts.receipts.rows }
        requires texts { texts ≡ texts_by_ids (Command.Marks command) ids.now }
        requires room { IsRoomFor (new_rows (Command.Marks command) (length ids.now))
            (rooms_in self.old) }
        ensures { tables_in self.new
            ≡ mark_effect_by_ids actor command ids.now (tables_in self.old) }
    {
        match command {
            MarkCommand::Flags { add, flag, .. } => {
                set_flags(&mut self.posts, actor, flag, add, ids)
            }
            MarkCommand::ReactionAdd { message, .. } => {
                add_reaction(&mut self.marks, message, actor, texts.take())
            }
            MarkCommand::ReactionRemove { message, .. } => {
                remove_reaction(&mut self.marks, message, actor, texts.take())
            }
        }
    }
}
