//! What a user fetches: a section, or all of them.

ghost use Rattle.std.specs.Prelude.{◌≡◌, ◌↔◌, false, Err, IfOk};
ghost use Rattle.ev_types.specs.Sections.{IsWhole};
ghost use Rattle.zr_types.specs.Visibility.{is_active_user};
ghost use Rattle.zw_views.specs.Views.{section_of, view_of};
ghost use Rattle.zr_view.specs.declared.fault.FetchFault.{FetchFault};

use crate::fault::FetchFault;
use crate::sections::{
    messages, reactions, realm_users, starred_messages, streams, subscriptions, unread_messages,
};
use crate::shown::shown_realm;
use crate::subscribers::subscribers;
use ev_base::{NoMemory, UserId};
use ev_types::{Rows, Section, State};
use std::alloc::Global;
use zr_realm::Realm;

/// The rows of one section of a user's view.
pub fn fetch(
    alloc: Global,
    realm: &Realm,
    user: UserId,
    section: Section,
) -> Result<Rows, FetchFault>
    ensures rows { IfOk result (λ rows. rows ≡ section_of section (view_of realm.now.state.tables user)) }
    ensures unknown { (result ≡ Err FetchFault.Unknown) ↔ (is_active_user realm.now.state.tables user ≡ false) }
{
    if !realm.is_active_user(user) {
        return Err(FetchFault::Unknown);
    }
    match section_rows(alloc, realm, user, section) {
        Ok(rows) => Ok(rows),
        Err(NoMemory) => Err(FetchFault::NoMemory),
    }
}

/// All sections of a user's view.
pub fn fetch_all(alloc: Global, realm: &Realm, user: UserId) -> Result<State, FetchFault>
    ensures state { IfOk result (λ state. IsWhole state (view_of realm.now.state.tables user)) }
    ensures unknown { (result ≡ Err FetchFault.Unknown) ↔ (is_active_user realm.now.state.tables user ≡ false) }
{
    if !realm.is_active_user(user) {
        return Err(FetchFault::Unknown);
    }
    match whole_view(alloc, realm, user) {
        Ok(state) => Ok(state),
        Err(NoMemory) => Err(FetchFault::NoMemory),
    }
}

fn section_rows(
    alloc: Global,
    realm: &Realm,
    user: UserId,
    section: Section,
) -> Result<Rows, NoMemory>
    ensures { IfOk result (λ rows. rows ≡ section_of section (view_of realm.now.state.tables user)) }
{
    let rows = match section {
        Section::Realm => Rows::Realm(shown_realm(realm.people().realm_row())?),
        Section::RealmUsers => Rows::RealmUsers(realm_users(alloc, realm)?.into()),
        Section::Streams => Rows::Streams(streams(alloc, realm, user)?.into()),
        Section::Subscriptions => Rows::Subscriptions(subscriptions(alloc, realm, user)?.into()),
        Section::Subscribers => Rows::Subscribers(subscribers(alloc, realm, user)?.into()),
        Section::Messages => Rows::Messages(messages(alloc, realm, user)?.into()),
        Section::Reactions => Rows::Reactions(reactions(alloc, realm, user)?.into()),
        Section::StarredMessages => Rows::StarredMessages(starred_messages(
            alloc, realm, user,
        )?.into()),
        Section::UnreadMessages => Rows::UnreadMessages(unread_messages(
            alloc, realm, user,
        )?.into()),
    };
    Ok(rows)
}

/// All sections of a user's view, also of a user who is inactive or doesn't exist.
pub fn whole_view(alloc: Global, realm: &Realm, user: UserId) -> Result<State, NoMemory>
    ensures { IfOk result (λ state. IsWhole state (view_of realm.now.state.tables user)) }
{
    Ok(State {
        realm: Some(shown_realm(realm.people().realm_row())?),
        realm_users: Some(realm_users(alloc, realm)?),
        streams: Some(streams(alloc, realm, user)?),
        subscriptions: Some(subscriptions(alloc, realm, user)?),
        subscribers: Some(subscribers(alloc, realm, user)?),
        messages: Some(messages(alloc, realm, user)?),
        reactions: Some(reactions(alloc, realm, user)?),
        starred_messages: Some(starred_messages(alloc, realm, user)?),
        unread_messages: Some(unread_messages(alloc, realm, user)?),
    })
}
