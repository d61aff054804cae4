//! Where a message stands.

ghost use Rattle.std.proofs.Common.{rules};

use crate::exact_clone::ExactClone;
use crate::ids::{StreamId, UserId};
use crate::listed::Listed;
use crate::text::Text;

/// A stream with a topic, or the recipients of a direct message.
#[derive(Clone, Debug, Drop, PartialEq, Eq, PartialOrd, Ord, Hash)]
pub enum Place {
    Stream { stream: StreamId, topic: Text },
    Direct { recipients: Listed<UserId> },
}

impl ExactClone for Place {
    ghost exact = { Prim.search rules };
}
