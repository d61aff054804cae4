//! The answers that replies make.

ghost use Rattle.std.specs.Prelude.{◌≡◌};
ghost use Rattle.sv_answers.specs.Replies.{IsRegistered, answer_of_commit, answer_of_delete, answer_of_poll, committed_as};

use crate::commands::Made;
use ev_base::{Listed, NoMemory, PlainText, QueueId};
use hw_replies::{Answer, Problem};
use std::alloc::Global;
use sv_registers::Registered;
use zr_types::Committed;
use zw_traces::{RealmReply, ShardReply};

/// The answer to a poll of the queue that a text names.
pub fn answer_of_poll(
    alloc: Global,
    text: PlainText,
    queue: QueueId,
    told: Result<ShardReply, NoMemory>,
) -> Answer
    ensures { result ≡ answer_of_poll text queue told }
{
    match told {
        Ok(ShardReply::Answer { items, .. }) => Answer::Events { queue, items },
        Ok(ShardReply::Empty { .. }) => Answer::Events {
            queue,
            items: Listed::from_vec(Vec::new(alloc)),
        },
        Ok(ShardReply::BadQueue) => Answer::Refused(Problem::BadQueue(text)),
        Ok(ShardReply::Pruned { newest }) => Answer::Refused(Problem::Pruned { newest }),
        Ok(ShardReply::NotSent { greatest }) => Answer::Refused(Problem::NotSent { greatest }),
        _ => Answer::Refused(Problem::NoMemory),
    }
}

/// The answer to the deletion of the queue that a text names.
pub fn answer_of_delete(text: PlainText, told: ShardReply) -> Answer
    ensures { result ≡ answer_of_delete text told }
{
    match told {
        ShardReply::Deleted => Answer::Done,
        ShardReply::BadQueue => Answer::Refused(Problem::BadQueue(text)),
        _ => Answer::Refused(Problem::NoMemory),
    }
}

/// The answer to a command.
pub fn answer_of_commit(made: Made, told: RealmReply) -> Answer
    ensures { result ≡ answer_of_commit made told }
{
    match told {
        RealmReply::Committed(committed) => committed_as(made, committed),
        RealmReply::Refused(why) => Answer::Refused(Problem::Refused(why)),
        _ => Answer::Refused(Problem::NoMemory),
    }
}

fn committed_as(made: Made, committed: Committed) -> Answer
    ensures { result ≡ committed_as made committed.id committed.changed }
{
    match (made, committed.id) {
        (Made::Message, Some(message)) => Answer::MessageSent { message },
        (Made::User, Some(user)) => Answer::UserAdded { user },
        (Made::Stream, Some(stream)) => Answer::StreamCreated { stream },
        (Made::Flags, _) => Answer::FlagsChanged {
            messages: committed.changed,
        },
        _ => Answer::Done,
    }
}

/// The answer to a registration.
pub fn answer_of_registration(alloc: Global, registered: Registered) -> Answer
    ensures { IsRegistered registered result }
{
    match registered {
        Registered::Finished {
            queue,
            last_event_id,
            state,
        } => Answer::Registered {
            queue,
            last_event_id,
            state,
        },
        Registered::BadQueue { queue } => match queue.to_string(alloc) {
            Ok(text) => Answer::Refused(Problem::BadQueue(PlainText::new(text))),
            Err(_) => Answer::Refused(Problem::NoMemory),
        },
        Registered::FetchRefused => Answer::Refused(Problem::NotLoggedIn),
        Registered::TooManyQueues => Answer::Refused(Problem::TooManyQueues),
        Registered::OpensSpent => Answer::Refused(Problem::OpensSpent),
        Registered::NoMemory => Answer::Refused(Problem::NoMemory),
    }
}
