//! What a shard may be asked and may answer.

use ev_base::{Expired, Listed, QueueId, UserId};
use ev_types::{Item, Notice, Rows, Section, State, Types};

/// A section that was fetched, with the number of commits at its fetch.
#[derive(Debug, Drop)]
pub struct FetchedSection {
    pub section: Section,
    pub rows: Rows,
    pub at: u64,
}

/// What a shard may be asked.
#[derive(Debug, Drop)]
pub enum ShardInput {
    /// Opens a queue that receives these types, to be finished with these sections. The moment is in
    /// seconds.
    Start {
        user: UserId,
        salt: u64,
        moment: u64,
        types: Types,
        asked: Listed<Section>,
    },
    /// Brings notices, whose numbers rise by one from `first`.
    Push {
        first: u64,
        notices: Listed<Notice>,
    },
    /// Ends the registration of an opening queue. Of a section that is given twice the first counts.
    Finish {
        queue: QueueId,
        parts: Listed<FetchedSection>,
    },
    /// Asks for the items above `after`, and acknowledges those up to it. With `beat`, a heartbeat
    /// is answered where there is none.
    Poll {
        user: UserId,
        queue: QueueId,
        after: i64,
        moment: u64,
        beat: bool,
    },
    Delete {
        user: UserId,
        queue: QueueId,
    },
    /// Collects the queues that weren't asked for ten minutes.
    Tick {
        moment: u64,
    },
    /// Asks how many notices were pushed.
    Locate,
}

/// What a shard may answer.
#[derive(Debug, Drop)]
pub enum ShardReply {
    Opened {
        queue: QueueId,
        position: u64,
    },
    OpensSpent,
    TooManyQueues,
    Pushed {
        position: u64,
    },
    /// The notices begin past the next one that is due.
    Gap {
        have: u64,
        first: u64,
    },
    Finished {
        state: State,
        last_event_id: i64,
        reached: u64,
    },
    /// A section that was asked for isn't among those given. They are handed back.
    MissingSection {
        section: Section,
        parts: Listed<FetchedSection>,
    },
    /// A section was fetched at a commit whose notice wasn't pushed yet. All are handed back.
    NotPushed {
        have: u64,
        need: u64,
        parts: Listed<FetchedSection>,
    },
    Answer {
        items: Listed<Item>,
        reached: u64,
    },
    Empty {
        reached: u64,
    },
    BadQueue,
    NotSent {
        greatest: i64,
    },
    Pruned {
        newest: i64,
    },
    Deleted,
    /// The collected queues, in the order of their opening.
    Ticked {
        expired: Listed<Expired>,
    },
    At {
        position: u64,
    },
    NoMemory,
}

/// What a shard was asked, and what it answered.
#[derive(Debug, Drop)]
pub struct ShardStep {
    pub input: ShardInput,
    pub reply: ShardReply,
}
