//! The rows of the table of posts.

ghost use Rattle.std.proofs.Common.{rules};

use ev_base::{ExactClone, Place, Text, UserId};

/// A message, with the moment of the commit that made it.
#[derive(Clone, Debug, Drop, PartialEq, Eq)]
pub struct Message {
    pub sender: UserId,
    pub place: Place,
    pub content: Text,
    pub timestamp: u64,
}

/// How a user marked a message that the user got.
#[derive(Clone, Copy, Debug, PartialEq, Eq, Hash)]
pub struct Receipt {
    pub read: bool,
    pub starred: bool,
    pub collapsed: bool,
}

impl ExactClone for Message {
    ghost exact = { Prim.search rules };
}

impl ExactClone for Receipt {
    ghost exact = { λ _ _ same. same };
}
