//! What clients are told of a change.

ghost use Rattle.std.proofs.Common.{rules};

use crate::rows::{ShownMessage, ShownStream, ShownSubscription, ShownUser};
use ev_base::{ExactClone, Flag, Listed, MessageId, Place, Role, StreamId, Text, UserId};

/// A field of the realm, with its new value.
#[derive(Clone, Debug, Drop, PartialEq, Eq)]
pub enum RealmField {
    Name(Text),
    Description(Text),
}

/// A field of a user that events may change, with its new value.
#[derive(Clone, Debug, Drop, PartialEq, Eq)]
pub enum UserField {
    FullName(Text),
    Role(Role),
    IsActive(bool),
}

/// A field of a stream, with its new value.
#[derive(Clone, Debug, Drop, PartialEq, Eq)]
pub enum StreamField {
    Name(Text),
    Description(Text),
    InviteOnly(bool),
    HistoryPublicToSubscribers(bool),
}

/// A field of a subscription, with its new value.
#[derive(Clone, Debug, Drop, PartialEq, Eq)]
pub enum SubscriptionField {
    Color(Text),
    IsMuted(bool),
    PinToTop(bool),
}

/// A message with its reactions, which rise by user and then by the emoji's bytes.
#[derive(Clone, Debug, Drop, PartialEq, Eq)]
pub struct FullMessage {
    pub message: MessageId,
    pub row: ShownMessage,
    pub reactions: Listed<(UserId, Text)>,
}

/// A flag that was added to or removed from messages, which rise. Where `read` is removed, the
/// details are the places of these messages; else there are none.
#[derive(Clone, Debug, Drop, PartialEq, Eq)]
pub struct FlagChange {
    pub flag: Flag,
    pub add: bool,
    pub messages: Listed<MessageId>,
    pub details: Listed<(MessageId, Place)>,
}

/// What a client is told of a change. Lists of ids and of rows rise.
#[derive(Clone, Debug, Drop, PartialEq, Eq)]
pub enum Event {
    RealmUpdate(RealmField),
    UserAdd {
        user: UserId,
        row: ShownUser,
    },
    UserChange {
        user: UserId,
        field: UserField,
    },
    StreamCreate(Listed<(StreamId, ShownStream)>),
    StreamChange {
        stream: StreamId,
        field: StreamField,
    },
    StreamDelete(Listed<StreamId>),
    SubAdd(Listed<(StreamId, ShownSubscription)>),
    SubChange {
        stream: StreamId,
        field: SubscriptionField,
    },
    SubRemove(Listed<StreamId>),
    /// Others, or the reader, became subscribers of a stream that the reader sees.
    PeerAdd {
        stream: StreamId,
        users: Listed<UserId>,
    },
    PeerRemove {
        stream: StreamId,
        users: Listed<UserId>,
    },
    MessageNew(FullMessage),
    /// Several messages that the reader sees again, or for the first time.
    MessagesRestored(Listed<FullMessage>),
    MessageMoved {
        messages: Listed<MessageId>,
        stream: StreamId,
        topic: Text,
    },
    MessageEdited {
        message: MessageId,
        content: Text,
    },
    Flags(FlagChange),
    MessageGone(Listed<MessageId>),
    ReactionAdd {
        message: MessageId,
        user: UserId,
        emoji: Text,
    },
    ReactionRemove {
        message: MessageId,
        user: UserId,
        emoji: Text,
    },
    Heartbeat,
}

/// An event in a queue, with its id there.
#[derive(Clone, Debug, Drop, PartialEq, Eq)]
pub struct Item {
    pub id: i64,
    pub event: Event,
}

impl ExactClone for RealmField {
    ghost exact = { Prim.search rules };
}

impl ExactClone for UserField {
    ghost exact = { Prim.search rules };
}

impl ExactClone for StreamField {
    ghost exact = { Prim.search rules };
}

impl ExactClone for SubscriptionField {
    ghost exact = { Prim.search rules };
}

impl ExactClone for FullMessage {
    ghost exact = { Prim.search rules };
}

impl ExactClone for FlagChange {
    ghost exact = { Prim.search rules };
}

impl ExactClone for Event {
    ghost exact = { Prim.search rules };
}
