//! States: sections, each present or not.

use crate::rows::{ShownMessage, ShownRealm, ShownStream, ShownSubscription, ShownUser};
use ev_base::{Keyed, MessageId, Place, RowList, StreamId, Text, UserId};

/// The rows of one section, which are sorted by key.
#[derive(Debug, Drop)]
pub enum Rows {
    Realm(ShownRealm),
    RealmUsers(RowList<UserId, ShownUser>),
    Streams(RowList<StreamId, ShownStream>),
    Subscriptions(RowList<StreamId, ShownSubscription>),
    Subscribers(RowList<(StreamId, UserId), ()>),
    Messages(RowList<MessageId, ShownMessage>),
    Reactions(RowList<(MessageId, UserId, Text), ()>),
    StarredMessages(RowList<MessageId, ()>),
    UnreadMessages(RowList<MessageId, Place>),
}

/// The sections that a client has. Those that it didn't ask for aren't present.
#[derive(Debug, Drop)]
pub struct State {
    pub realm: Option<ShownRealm>,
    pub realm_users: Option<Keyed<UserId, ShownUser>>,
    pub streams: Option<Keyed<StreamId, ShownStream>>,
    pub subscriptions: Option<Keyed<StreamId, ShownSubscription>>,
    pub subscribers: Option<Keyed<(StreamId, UserId), ()>>,
    pub messages: Option<Keyed<MessageId, ShownMessage>>,
    pub reactions: Option<Keyed<(MessageId, UserId, Text), ()>>,
    pub starred_messages: Option<Keyed<MessageId, ()>>,
    pub unread_messages: Option<Keyed<MessageId, Place>>,
}
