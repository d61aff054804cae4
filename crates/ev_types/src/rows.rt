//! The rows of the sections, as a view shows them.

ghost use Rattle.std.proofs.Common.{rules};

use ev_base::{ExactClone, Place, Role, Text, UserId};

/// The realm.
#[derive(Clone, Debug, Drop, PartialEq, Eq)]
pub struct ShownRealm {
    pub name: Text,
    pub description: Text,
}

/// A user, without the API key.
#[derive(Clone, Debug, Drop, PartialEq, Eq)]
pub struct ShownUser {
    pub email: Text,
    pub full_name: Text,
    pub role: Role,
    pub is_active: bool,
}

/// A stream.
#[derive(Clone, Debug, Drop, PartialEq, Eq)]
pub struct ShownStream {
    pub name: Text,
    pub description: Text,
    pub invite_only: bool,
    pub history_public_to_subscribers: bool,
}

/// The reader's own subscription to a stream.
#[derive(Clone, Debug, Drop, PartialEq, Eq)]
pub struct ShownSubscription {
    pub color: Text,
    pub is_muted: bool,
    pub pin_to_top: bool,
}

/// What the reader marked a message with.
#[derive(Clone, Copy, Debug, PartialEq, Eq)]
pub struct MessageFlags {
    pub read: bool,
    pub starred: bool,
    pub collapsed: bool,
}

/// A message, with the reader's flags. The timestamp is in seconds.
#[derive(Clone, Debug, Drop, PartialEq, Eq)]
pub struct ShownMessage {
    pub sender: UserId,
    pub place: Place,
    pub content: Text,
    pub timestamp: u64,
    pub flags: MessageFlags,
}

impl ExactClone for ShownRealm {
    ghost exact = { Prim.search rules };
}

impl ExactClone for ShownUser {
    ghost exact = { Prim.search rules };
}

impl ExactClone for ShownStream {
    ghost exact = { Prim.search rules };
}

impl ExactClone for ShownSubscription {
    ghost exact = { Prim.search rules };
}

impl ExactClone for MessageFlags {
    ghost exact = { λ _ _ same. same };
}

impl ExactClone for ShownMessage {
    ghost exact = { Prim.search rules };
}
