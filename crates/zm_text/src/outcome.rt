//! What is printed for a step of a script.

ghost use Rattle.std.specs.Prelude.{◌≡◌, ◌++◌, ◌∷◌, IfOk, IfSome, OnErr, OnOk};
ghost use Rattle.zm_text.specs.Outcomes.{and_then, committed_text, line_of, opened_text, queue_word, refusal_text, text_of_outcome, ticked_text, with_body};

use ev_base::{Listed, NoMemory, QueueId};
use ev_types::{Item, Section, State};
use ev_wire::{write_events, write_register, write_state};
use std::alloc::Global;
use std::fmt::Display;
use zr_types::Refusal;
use zs_words::Named;

/// The salt of the queues of a script.
pub const SALT: u64 = 0;

/// What a line of output tells of a step.
#[derive(Debug, Drop)]
pub enum Outcome {
    Committed {
        number: u64,
        id: Option<u32>,
    },
    Refused(Refusal),
    /// The script is run over these many shards.
    Sharded {
        count: u32,
    },
    Noticed {
        count: u64,
    },
    Pushed {
        position: u64,
    },
    /// The notices before this one aren't all pushed: the shard has these many.
    Gap {
        have: u64,
        first: u64,
    },
    /// A queue was opened where these many notices were pushed.
    Opened {
        queue: QueueId,
        position: u64,
    },
    /// A section was fetched for a queue after these many commits.
    Fetched {
        section: Section,
        at: u64,
    },
    Finished {
        reached: u64,
        queue: QueueId,
        last_event_id: i64,
        state: State,
    },
    /// The first section that was asked for and wasn't fetched.
    MissingSection {
        section: Section,
    },
    /// These many notices were pushed, fewer than the latest fetch needs.
    NotPushed {
        have: u64,
        need: u64,
    },
    OpensSpent,
    TooManyQueues,
    FetchRefused,
    Answered {
        reached: u64,
        queue: QueueId,
        items: Listed<Item>,
    },
    Empty {
        reached: u64,
    },
    BadQueue,
    NotSent {
        greatest: i64,
    },
    Pruned {
        newest: i64,
    },
    Deleted,
    /// The queues that were collected, shard after shard, in the order of their opening.
    Ticked {
        queues: Listed<QueueId>,
    },
    /// How many notices were pushed to a shard.
    At {
        position: u64,
    },
    /// All sections of a user's view, after this many commits.
    Viewed {
        commits: u64,
        state: State,
    },
}

impl Outcome {
    /// Appends the line of output that tells this outcome, with its line feed.
    pub fn write(&self, alloc: Global, out: &mut Vec<u8>) -> Result<(), NoMemory>
        ensures ok { OnOk result (out.new.items ≡ out.old.items ++ text_of_outcome self.now) }
        ensures err { OnErr result (out.new.items ≡ out.old.items) }
    {
        let mut line = self.line(alloc)?;
        line.push(b'\n')?;
        out.extend_from_slice(&line)?;
        Ok(())
    }

    /// The line without its line feed.
    fn line(&self, alloc: Global) -> Result<Vec<u8>, NoMemory>
        ensures { IfOk result (λ line. line.items ≡ line_of self.now) }
    {
        match self {
            Outcome::Committed { number, id } => committed_line(alloc, *number, *id),
            Outcome::Refused(why) => text_line(alloc, refusal_words(*why)),
            Outcome::Sharded { count } => word_line(alloc, "shards", count),
            Outcome::Noticed { count } => word_line(alloc, "noticed", count),
            Outcome::Pushed { position } => word_line(alloc, "pushed", position),
            Outcome::Gap { have, first } => {
                word_line(alloc, "gap", &format_args!("{have} {first}"))
            }
            Outcome::Opened { queue, position } => opened_line(alloc, *queue, *position),
            Outcome::Fetched { section, at } => {
                word_line(alloc, "fetched", &format_args!("{} {at}", section.name()))
            }
            Outcome::MissingSection { section } => {
                word_line(alloc, "missing_section", &section.name())
            }
            Outcome::NotPushed { have, need } => {
                word_line(alloc, "not_pushed", &format_args!("{have} {need}"))
            }
            Outcome::Finished {
                reached,
                queue,
                last_event_id,
                state,
            } => {
                let body = write_register(alloc, queue, *last_event_id, state)?;
                body_line(alloc, "finished", *reached, &body)
            }
            Outcome::OpensSpent => text_line(alloc, "opens_spent"),
            Outcome::TooManyQueues => text_line(alloc, "too_many 32"),
            Outcome::FetchRefused => text_line(alloc, "fetch_refused"),
            Outcome::Answered {
                reached,
                queue,
                items,
            } => {
                let body = write_events(alloc, queue, items.as_slice())?;
                body_line(alloc, "answer", *reached, &body)
            }
            Outcome::Empty { reached } => word_line(alloc, "empty", reached),
            Outcome::BadQueue => text_line(alloc, "bad_queue"),
            Outcome::NotSent { greatest } => word_line(alloc, "not_sent", greatest),
            Outcome::Pruned { newest } => word_line(alloc, "pruned", newest),
            Outcome::Deleted => text_line(alloc, "deleted"),
            Outcome::Ticked { queues } => ticked_line(alloc, queues.as_slice()),
            Outcome::At { position } => word_line(alloc, "at", position),
            Outcome::Viewed { commits, state } => {
                let body = write_state(alloc, state)?;
                body_line(alloc, "view", *commits, &body)
            }
        }
    }
}

fn refusal_words(why: Refusal) -> &'static str
    ensures { result.now ≡ refusal_text why }
{
    match why {
        Refusal::ActorUnknown => "refused 1 ActorUnknown",
        Refusal::NotPermitted => "refused 2 NotPermitted",
        Refusal::NoSuchUser => "refused 3 NoSuchUser",
        Refusal::NoSuchStream => "refused 4 NoSuchStream",
        Refusal::NoSuchMessage => "refused 5 NoSuchMessage",
        Refusal::NameTaken => "refused 6 NameTaken",
        Refusal::AlreadySo => "refused 7 AlreadySo",
        Refusal::NotSo => "refused 8 NotSo",
        Refusal::BadText => "refused 9 BadText",
        Refusal::LimitReached => "refused 10 LimitReached",
        Refusal::LogFull => "refused 11 LogFull",
    }
}

fn committed_line(alloc: Global, number: u64, id: Option<u32>) -> Result<Vec<u8>, NoMemory>
    ensures { IfOk result (λ line. line.items ≡ committed_text number id) }
{
    match id {
        None => word_line(alloc, "committed", &number),
        Some(id) => word_line(alloc, "committed", &format_args!("{number} {id}")),
    }
}

fn opened_line(alloc: Global, queue: QueueId, position: u64) -> Result<Vec<u8>, NoMemory>
    ensures { IfOk result (λ line. line.items ≡ opened_text queue position) }
{
    let mut line = text_line(alloc, "opened")?;
    add_queue(alloc, queue, &mut line)?;
    let place = format!(in alloc; " {position}")?;
    line.extend_from_slice(place.as_bytes())?;
    Ok(line)
}

fn ticked_line(alloc: Global, queues: &[QueueId]) -> Result<Vec<u8>, NoMemory>
    ensures { IfOk result (λ line. line.items ≡ ticked_text queues.now) }
{
    let mut line = word_line(alloc, "ticked", &queues.len())?;
    for queue in queues {
        add_queue(alloc, *queue, &mut line)?;
    }
    Ok(line)
}

// Appends a space, and the queue's user and number.
fn add_queue(alloc: Global, queue: QueueId, line: &mut Vec<u8>) -> Result<(), NoMemory>
    ensures { IfOk result (λ _. line.new.items ≡ line.old.items ++ 32 ∷ queue_word queue) }
{
    let word = format!(in alloc; " {}.{}", queue.user, queue.number)?;
    line.extend_from_slice(word.as_bytes())?;
    Ok(())
}

fn body_line(alloc: Global, word: &str, reached: u64, body: &[u8]) -> Result<Vec<u8>, NoMemory>
    ensures { IfOk result (λ line. line.items ≡ with_body word.now reached body.now) }
{
    let mut line = word_line(alloc, word, &reached)?;
    line.push(b' ')?;
    line.extend_from_slice(body)?;
    Ok(line)
}

fn word_line<D: Display>(alloc: Global, word: &str, value: &D) -> Result<Vec<u8>, NoMemory>
    ensures { IfOk result
        (λ line. IfSome (D.output value.now) (λ text. line.items ≡ and_then word.now text)) }
{
    Ok(format!(in alloc; "{word} {value}")?.into_bytes())
}

fn text_line(alloc: Global, text: &str) -> Result<Vec<u8>, NoMemory>
    ensures { IfOk result (λ line. line.items ≡ text.now) }
{
    Ok(text.as_bytes().to_vec(alloc)?)
}
