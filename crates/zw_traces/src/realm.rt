//! What a realm may be asked and may answer.

use ev_base::{Listed, UserId};
use ev_types::{Notice, Rows, Section};
use zr_types::{Command, Committed, Refusal};

/// What a realm may be asked.
#[derive(Debug, Drop)]
pub enum RealmInput {
    /// Makes a change, for a user, at a moment in seconds.
    Commit {
        actor: UserId,
        moment: u64,
        command: Command,
    },
    /// Reads a section of a user's view.
    Fetch {
        user: UserId,
        section: Section,
    },
    /// Announces the notices of all commits so far.
    NoticeAll,
    /// Hands out announced notices, from the one with this number on: at most 256.
    Take {
        first: u64,
    },
}

/// What a realm may answer.
#[derive(Debug, Drop)]
pub enum RealmReply {
    Committed(Committed),
    Refused(Refusal),
    /// The section, as of the number of commits `at`.
    Section { rows: Rows, at: u64 },
    FetchRefused,
    Noticed { count: u64 },
    Notices { first: u64, list: Listed<Notice> },
    NoMemory,
}

/// What a realm was asked, and what it answered.
#[derive(Debug, Drop)]
pub struct RealmStep {
    pub input: RealmInput,
    pub reply: RealmReply,
}
