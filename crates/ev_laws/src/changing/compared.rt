//! The sections of which events tell one by one.

ghost use Rattle.std.specs.Prelude.{◌≡◌, IsSome, Some};
ghost use Rattle.ev_types.specs.Sections.{IsWhole, Sections};
ghost use Rattle.ev_laws.specs.Compared.{compared, sections_in};

use ev_base::{Keyed, MessageId, StreamId, Text, UserId};
use ev_types::{ShownMessage, ShownRealm, ShownStream, ShownSubscription, ShownUser, State};

/// The sections of a view that are compared. Which messages are starred or unread follows from
/// their flags.
#[derive(Clone, Copy)]
pub struct ComparedView<'a> {
    pub realm: &'a ShownRealm,
    pub realm_users: &'a Keyed<UserId, ShownUser>,
    pub streams: &'a Keyed<StreamId, ShownStream>,
    pub subscriptions: &'a Keyed<StreamId, ShownSubscription>,
    pub subscribers: &'a Keyed<(StreamId, UserId), ()>,
    pub messages: &'a Keyed<MessageId, ShownMessage>,
    pub reactions: &'a Keyed<(MessageId, UserId, Text), ()>,
}

impl<'a> ComparedView<'a> {
    pub fn new(state: &'a State) -> ComparedView<'a>
        requires { (view : Sections) × IsWhole state.now view }
        ensures { (view : Sections) → IsWhole state.now view → sections_in result ≡ compared view }
    {
        let realm = there(&state.realm);
        let realm_users = there(&state.realm_users);
        let streams = there(&state.streams);
        let subscriptions = there(&state.subscriptions);
        let subscribers = there(&state.subscribers);
        let messages = there(&state.messages);
        let reactions = there(&state.reactions);
        ComparedView {
            realm,
            realm_users,
            streams,
            subscriptions,
            subscribers,
            messages,
            reactions,
        }
    }
}

fn there<T>(section: &Option<T>) -> &T
    requires { IsSome section.now }
    ensures { section.now ≡ Some result.now }
{
    section.as_ref().unwrap()
}
