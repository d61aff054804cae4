//! A section put into a state.

ghost use Rattle.std.specs.Prelude.{◌≡◌, if◌then◌else◌};
ghost use Rattle.ev_types.specs.OneSection.{rows_of, same_section};
ghost use Rattle.ev_types.specs.Sections.{sections_of};
ghost use Rattle.ev_types.specs.declared.section.Section.{Section};
ghost use Rattle.rg_flow.specs.Placed.{no_sections, own_section, with_rows};

use ev_types::{Rows, Section, State};

/// The section whose rows these are.
pub fn own_section(rows: &Rows) -> Section
    ensures { result ≡ own_section rows.now }
{
    match rows {
        Rows::Realm(_) => Section::Realm,
        Rows::RealmUsers(_) => Section::RealmUsers,
        Rows::Streams(_) => Section::Streams,
        Rows::Subscriptions(_) => Section::Subscriptions,
        Rows::Subscribers(_) => Section::Subscribers,
        Rows::Messages(_) => Section::Messages,
        Rows::Reactions(_) => Section::Reactions,
        Rows::StarredMessages(_) => Section::StarredMessages,
        Rows::UnreadMessages(_) => Section::UnreadMessages,
    }
}

/// A state in which no section is present.
pub fn empty_state() -> State
    ensures whole { sections_of result ≡ no_sections }
    ensures none { (which : Section) → rows_of which (sections_of result) ≡ None }
{
    State {
        realm: None,
        realm_users: None,
        streams: None,
        subscriptions: None,
        subscribers: None,
        messages: None,
        reactions: None,
        starred_messages: None,
        unread_messages: None,
    }
}

/// Puts the rows into the state as the section whose rows they are, in place of those that it had.
pub fn with_section(state: &mut State, rows: Rows)
    ensures whole { sections_of state.new ≡ with_rows rows (sections_of state.old) }
    ensures own { (which : Section) → rows_of which (sections_of state.new)
        ≡ (if same_section which (own_section rows) then Some rows
        else rows_of which (sections_of state.old)) }
{
    match rows {
        Rows::Realm(realm) => state.realm = Some(realm),
        Rows::RealmUsers(list) => state.realm_users = Some(list.into()),
        Rows::Streams(list) => state.streams = Some(list.into()),
        Rows::Subscriptions(list) => state.subscriptions = Some(list.into()),
        Rows::Subscribers(list) => state.subscribers = Some(list.into()),
        Rows::Messages(list) => state.messages = Some(list.into()),
        Rows::Reactions(list) => state.reactions = Some(list.into()),
        Rows::StarredMessages(list) => state.starred_messages = Some(list.into()),
        Rows::UnreadMessages(list) => state.unread_messages = Some(list.into()),
    }
}
