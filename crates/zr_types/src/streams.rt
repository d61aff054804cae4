//! The rows of the table of streams.

ghost use Rattle.std.proofs.Common.{rules};

use ev_base::{ExactClone, Privacy, Text};

/// A stream, archived or not.
#[derive(Clone, Debug, Drop, PartialEq, Eq)]
pub struct Stream {
    pub name: Text,
    pub description: Text,
    pub privacy: Privacy,
    pub archived: bool,
}

/// How a subscriber sees a stream.
#[derive(Clone, Debug, Drop, PartialEq, Eq)]
pub struct Subscription {
    pub color: Text,
    pub is_muted: bool,
    pub pin_to_top: bool,
}

impl ExactClone for Stream {
    ghost exact = { Prim.search rules };
}

impl ExactClone for Subscription {
    ghost exact = { Prim.search rules };
}
