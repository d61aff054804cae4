//! Answers.

ghost use Rattle.std.specs.Prelude.{◌≡◌};
ghost use Rattle.hw_replies.specs.Answers.{status_of};

use crate::problem::Problem;
use ev_base::{Listed, QueueId};
use ev_types::{Item, State};
use http::StatusCode;

/// What a request is answered.
#[derive(Debug, Drop)]
pub enum Answer {
    Registered {
        queue: QueueId,
        last_event_id: i64,
        state: State,
    },
    Events {
        queue: QueueId,
        items: Listed<Item>,
    },
    MessageSent {
        message: u32,
    },
    UserAdded {
        user: u32,
    },
    StreamCreated {
        stream: u32,
    },
    FlagsChanged {
        messages: Listed<u32>,
    },
    /// There is no more to tell.
    Done,
    Refused(Problem),
}

impl Answer {
    #[tactic(auto, unfolding(crate::specs::Answers::status_of))]
    pub fn status(&self) -> StatusCode
        ensures { result ≡ status_of self.now }
    {
        match self {
            Answer::Refused(problem) => problem.status(),
            _ => StatusCode::OK,
        }
    }
}
