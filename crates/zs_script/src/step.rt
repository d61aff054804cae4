//! The steps of a script.

use ev_base::{Listed, QueueId, UserId};
use ev_types::{Section, Types};
use zr_types::Command;

/// What the steps before a line leave to it.
#[derive(Clone, Copy, Debug, PartialEq, Eq)]
pub struct Setting {
    /// How many shards there are.
    pub shards: u32,
    /// Whether no step stands before the line.
    pub is_first: bool,
}

/// What a line of a script asks for.
#[derive(Debug, Drop)]
pub enum Step {
    /// Runs the script over these many shards. Only the first step is one.
    Shards {
        count: u32,
    },
    /// A change, for a user.
    Command {
        actor: UserId,
        command: Command,
    },
    /// Announces the notices of all commits so far.
    NoticeAll,
    /// Brings a shard all announced notices that it lacks.
    Push {
        shard: u32,
    },
    /// Brings a shard announced notices from one on, as many as are taken at once.
    PushFrom {
        shard: u32,
        first: u64,
    },
    /// Registers a user for these kinds of events: opens a queue, fetches the sections, brings the
    /// notices, and finishes. Each section stands once, in the order of the sections.
    Register {
        user: UserId,
        types: Types,
        asked: Listed<Section>,
    },
    /// Opens a queue of a user that receives these kinds of events, to be finished with these
    /// sections. Each section stands once, in the order of the sections.
    OpenQueue {
        user: UserId,
        types: Types,
        asked: Listed<Section>,
    },
    /// Fetches a section for an opening queue. One that is fetched again replaces the first.
    Fetch {
        queue: QueueId,
        section: Section,
    },
    /// Finishes an opening queue with the sections that were fetched for it.
    Finish {
        queue: QueueId,
    },
    /// Asks a queue for its items above `after`, and where `beat` is set for a heartbeat where there
    /// is none.
    Poll {
        user: UserId,
        queue: QueueId,
        after: i64,
        beat: bool,
    },
    /// Deletes a queue of a user.
    DeleteQueue {
        user: UserId,
        queue: QueueId,
    },
    /// Lets the time go on to this moment, unless it is past, and collects the queues that nobody
    /// asked for too long.
    Tick {
        moment: u64,
    },
    /// Asks how many notices were brought to a shard.
    Locate {
        shard: u32,
    },
    /// Fetches all sections of a user's view.
    View {
        user: UserId,
    },
}
