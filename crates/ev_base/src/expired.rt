//! What is told of a queue that was collected.

use crate::exact_clone::ExactClone;
use crate::ids::QueueId;

/// A queue that was collected at a moment, in seconds, and whether its user then had no other queue
/// on the shard.
#[derive(Clone, Copy, Debug, PartialEq, Eq, Hash)]
pub struct Expired {
    pub queue: QueueId,
    pub moment: u64,
    pub last_of_user: bool,
}

impl ExactClone for Expired {
    ghost exact = { λ _ _ same. same };
}
