//! The members of a body that are sections.

ghost use Rattle.std.specs.Prelude.{◌≡◌, IfOk, option_map};
ghost use Rattle.ev_types.specs.Sections.{rows_in, sections_of};
ghost use Rattle.ev_wire.specs.Bodies.{section_members, stream_sections};
ghost use Rattle.ev_wire.specs.Values.{put_in};

use crate::members::Members;
use ev_base::Keyed;
use ev_types::State;
use std::alloc::{AllocError, Global};

/// The sections that are present.
pub fn section_members(alloc: Global, state: &State) -> Result<Members, AllocError>
    ensures { IfOk result (λ members. put_in members ≡ section_members (sections_of state.now)) }
{
    let members = stream_sections(alloc, state)?;
    members
        .with_rows(alloc, "messages", rows_of(&state.messages))?
        .with_rows(alloc, "reactions", rows_of(&state.reactions))?
        .with_rows(alloc, "starred_messages", rows_of(&state.starred_messages))?
        .with_rows(alloc, "unread_msgs", rows_of(&state.unread_messages))
}

// Those of people and streams.
fn stream_sections(alloc: Global, state: &State) -> Result<Members, AllocError>
    ensures { IfOk result (λ members. put_in members ≡ stream_sections (sections_of state.now)) }
{
    Members::new(alloc)
        .with_some(alloc, "realm", &state.realm)?
        .with_rows(alloc, "realm_users", rows_of(&state.realm_users))?
        .with_rows(alloc, "streams", rows_of(&state.streams))?
        .with_rows(alloc, "subscriptions", rows_of(&state.subscriptions))?
        .with_rows(alloc, "subscribers", rows_of(&state.subscribers))
}

// The rows of a section, where it is present.
fn rows_of<K: Ord, V>(section: &Option<Keyed<K, V>>) -> Option<&[(K, V)]>
    ensures { option_map (λ rows. rows.now) result ≡ rows_in section.now }
{
    match section {
        Some(table) => Some(table.rows()),
        None => None,
    }
}
