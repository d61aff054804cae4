//! The sections of a register body.

ghost use Rattle.std.specs.Prelude.{◌≡◌};
ghost use Rattle.serde_json.specs.View.{view};
ghost use Rattle.ev_read.specs.Lists.{below_by_key};
ghost use Rattle.ev_types.specs.Sections.{rows_in, sections_of};
ghost use Rattle.ev_bodies.specs.Keys.{Gives};
ghost use Rattle.ev_bodies.specs.Sections as spec;

use crate::fault::BodyFault;
use crate::keys::{list_if_there, object_if_there};
use ev_base::{Keyed, MessageId, Place, StreamId, Text, UserId};
use ev_read::{FromJson, RowsFault, Unread, realm_row, rows_of};
use ev_types::{
    Section, ShownMessage, ShownRealm, ShownStream, ShownSubscription, ShownUser, State,
};
use serde_json::Value;
use std::alloc::Global;

// The rows of a section, where it is present.
#[tactic(auto, unfolding(crate::specs::Sections::section_of))]
fn section_of<K: Ord + Drop, V: Drop>(
    alloc: Global,
    value: &Value,
    name: &'static str,
    section: Section,
) -> Result<Option<Keyed<K, V>>, BodyFault>
where
    (K, V): FromJson,
    requires { (a b : K × V)
        → ⟦<(K, V) as FromJson>⟧.is_below a b ≡ below_by_key K.cmp a b }
    ensures { Gives rows_in result (spec.section_of ⟦<(K, V) as FromJson>⟧.reads
        ⟦<(K, V) as FromJson>⟧.is_below section name.now (view value.now)) }
{
    let Some(list) = list_if_there(value, name)? else {
        return Ok(None);
    };
    match rows_of::<(K, V)>(alloc, list) {
        Ok(rows) => Ok(Some(Keyed::from_vec(rows))),
        Err(RowsFault::NoMemory) => Err(BodyFault::NoMemory),
        Err(RowsFault::Row(index)) => Err(BodyFault::Row { section, index }),
    }
}

// The realm, where it is present.
#[tactic(auto, unfolding(crate::specs::Sections::realm_in))]
fn realm_in(alloc: Global, value: &Value) -> Result<Option<ShownRealm>, BodyFault>
    ensures { Gives (λ realm. realm) result (spec.realm_in (view value.now)) }
{
    let Some(object) = object_if_there(value, "realm")? else {
        return Ok(None);
    };
    match realm_row(alloc, object) {
        Ok(row) => Ok(Some(row)),
        Err(Unread::NoMemory) => Err(BodyFault::NoMemory),
        Err(Unread::Misfit) => Err(BodyFault::Row {
            section: Section::Realm,
            index: 0,
        }),
    }
}

/// The sections up to the realm, in the order of their names.
#[derive(Drop)]
pub struct FirstSections {
    messages: Option<Keyed<MessageId, ShownMessage>>,
    reactions: Option<Keyed<(MessageId, UserId, Text), ()>>,
    realm: Option<ShownRealm>,
}

#[tactic(auto, unfolding(crate::specs::Sections::first_in))]
fn first_in(alloc: Global, value: &Value) -> Result<FirstSections, BodyFault>
    ensures { Gives spec.first_seen result (spec.first_in (view value.now)) }
{
    let messages = section_of(alloc, value, "messages", Section::Messages)?;
    let reactions = section_of(alloc, value, "reactions", Section::Reactions)?;
    let realm = realm_in(alloc, value)?;
    Ok(FirstSections {
        messages,
        reactions,
        realm,
    })
}

/// The sections up to the streams, in the order of their names.
#[derive(Drop)]
pub struct SecondSections {
    realm_users: Option<Keyed<UserId, ShownUser>>,
    starred_messages: Option<Keyed<MessageId, ()>>,
    streams: Option<Keyed<StreamId, ShownStream>>,
}

#[tactic(auto, unfolding(crate::specs::Sections::second_in))]
fn second_in(alloc: Global, value: &Value) -> Result<SecondSections, BodyFault>
    ensures { Gives spec.second_seen result (spec.second_in (view value.now)) }
{
    let realm_users = section_of(alloc, value, "realm_users", Section::RealmUsers)?;
    let starred_messages = section_of(alloc, value, "starred_messages", Section::StarredMessages)?;
    let streams = section_of(alloc, value, "streams", Section::Streams)?;
    Ok(SecondSections {
        realm_users,
        starred_messages,
        streams,
    })
}

/// The other sections, in the order of their names.
#[derive(Drop)]
pub struct ThirdSections {
    subscribers: Option<Keyed<(StreamId, UserId), ()>>,
    subscriptions: Option<Keyed<StreamId, ShownSubscription>>,
    unread_messages: Option<Keyed<MessageId, Place>>,
}

#[tactic(auto, unfolding(crate::specs::Sections::third_in))]
fn third_in(alloc: Global, value: &Value) -> Result<ThirdSections, BodyFault>
    ensures { Gives spec.third_seen result (spec.third_in (view value.now)) }
{
    let subscribers = section_of(alloc, value, "subscribers", Section::Subscribers)?;
    let subscriptions = section_of(alloc, value, "subscriptions", Section::Subscriptions)?;
    let unread_messages = section_of(alloc, value, "unread_msgs", Section::UnreadMessages)?;
    Ok(ThirdSections {
        subscribers,
        subscriptions,
        unread_messages,
    })
}

/// The sections that are present.
#[tactic(auto, unfolding(crate::specs::Sections::sections_in))]
pub fn state_in(alloc: Global, value: &Value) -> Result<State, BodyFault>
    ensures { Gives sections_of result (spec.sections_in (view value.now)) }
{
    let first = first_in(alloc, value)?;
    let second = second_in(alloc, value)?;
    let third = third_in(alloc, value)?;
    Ok(joined(first, second, third))
}

fn joined(first: FirstSections, second: SecondSections, third: ThirdSections) -> State
    ensures { sections_of result ≡ spec.joined (spec.first_seen first) (spec.second_seen second)
        (spec.third_seen third) }
{
    let FirstSections {
        messages,
        reactions,
        realm,
    } = first;
    let SecondSections {
        realm_users,
        starred_messages,
        streams,
    } = second;
    let ThirdSections {
        subscribers,
        subscriptions,
        unread_messages,
    } = third;
    State {
        realm,
        realm_users,
        streams,
        subscriptions,
        subscribers,
        messages,
        reactions,
        starred_messages,
        unread_messages,
    }
}
