//! Kinds of events, and the kinds that a queue receives.

ghost use Rattle.std.specs.Prelude.{◌≡◌, ◌↔◌, IsTrue, true};
ghost use Rattle.ev_types.specs.Feeders as of_section;
ghost use Rattle.ev_types.specs.Feeders.{covers, kind_name, kind_of, receives};

use crate::event::Event;
use crate::section::Section;
use ev_base::Listed;

/// The kind of an event, which is the `type` of its text.
#[derive(Clone, Copy, Debug, PartialEq, Eq, Hash)]
pub enum EventKind {
    Realm,
    RealmUser,
    Stream,
    Subscription,
    Message,
    MessagesRestored,
    UpdateMessage,
    UpdateMessageFlags,
    DeleteMessage,
    Reaction,
    Heartbeat,
}

/// The kinds of events that a queue receives.
#[derive(Debug, Drop)]
pub enum Types {
    All,
    Only(Listed<EventKind>),
}

impl Event {
    /// The kind of this event.
    pub fn kind(&self) -> EventKind
        ensures { result ≡ kind_of self.now }
    {
        match self {
            Event::RealmUpdate(_) => EventKind::Realm,
            Event::UserAdd { .. } | Event::UserChange { .. } => EventKind::RealmUser,
            Event::StreamCreate(_) | Event::StreamChange { .. } | Event::StreamDelete(_) =>
                EventKind::Stream,
            Event::SubAdd(_)
            | Event::SubChange { .. }
            | Event::SubRemove(_)
            | Event::PeerAdd { .. }
            | Event::PeerRemove { .. } => EventKind::Subscription,
            Event::MessageNew(_) => EventKind::Message,
            Event::MessagesRestored(_) => EventKind::MessagesRestored,
            Event::MessageMoved { .. } | Event::MessageEdited { .. } => EventKind::UpdateMessage,
            Event::Flags(_) => EventKind::UpdateMessageFlags,
            Event::MessageGone(_) => EventKind::DeleteMessage,
            Event::ReactionAdd { .. } | Event::ReactionRemove { .. } => EventKind::Reaction,
            Event::Heartbeat => EventKind::Heartbeat,
        }
    }
}

impl EventKind {
    /// The name of this kind, which is the `type` of its events.
    pub fn name(self) -> &'static str
        ensures { result.now ≡ kind_name self }
    {
        match self {
            EventKind::Realm => "realm",
            EventKind::RealmUser => "realm_user",
            EventKind::Stream => "stream",
            EventKind::Subscription => "subscription",
            EventKind::Message => "message",
            EventKind::MessagesRestored => "messages_restored",
            EventKind::UpdateMessage => "update_message",
            EventKind::UpdateMessageFlags => "update_message_flags",
            EventKind::DeleteMessage => "delete_message",
            EventKind::Reaction => "reaction",
            EventKind::Heartbeat => "heartbeat",
        }
    }
}

impl Types {
    /// Whether a queue that receives these kinds receives all that may write in the section.
    pub fn covers(&self, section: Section) -> bool
        ensures { result ≡ covers self.now section }
    {
        feeders(section).iter().all(|kind| self.receives(*kind))
    }

    fn receives(&self, kind: EventKind) -> bool
        ensures { result ≡ receives self.now kind }
    {
        match self {
            Types::All => true,
            Types::Only(kinds) => kinds.as_slice().contains(&kind),
        }
    }
}

/// The kinds of the events that write in a section.
fn feeders(section: Section) -> &'static [EventKind]
    ensures { result.now ≡ of_section.feeders section }
{
    match section {
        Section::Realm => &[EventKind::Realm],
        Section::RealmUsers => &[EventKind::RealmUser],
        Section::Streams => &[EventKind::Stream],
        Section::Subscriptions => &[EventKind::Subscription],
        Section::Subscribers => &[EventKind::Stream, EventKind::Subscription],
        Section::Messages | Section::UnreadMessages => &[
            EventKind::Message,
            EventKind::MessagesRestored,
            EventKind::UpdateMessage,
            EventKind::UpdateMessageFlags,
            EventKind::DeleteMessage,
        ],
        Section::Reactions => &[
            EventKind::Message,
            EventKind::MessagesRestored,
            EventKind::DeleteMessage,
            EventKind::Reaction,
        ],
        Section::StarredMessages => &[
            EventKind::Message,
            EventKind::MessagesRestored,
            EventKind::UpdateMessageFlags,
            EventKind::DeleteMessage,
        ],
    }
}
