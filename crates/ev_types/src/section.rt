//! The sections of a view.

/// A section of a view, in the order in which a registration fetches them.
#[derive(Clone, Copy, Debug, PartialEq, Eq, Hash)]
pub enum Section {
    Realm,
    RealmUsers,
    Streams,
    Subscriptions,
    Subscribers,
    Messages,
    Reactions,
    StarredMessages,
    UnreadMessages,
}
