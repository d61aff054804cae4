//! What lists of names ask for: kinds of events, and sections.

ghost use Rattle.std.specs.Prelude.{◌≡◌, IfOk, filter};
ghost use Rattle.hw_values.specs.Named.{is_named, kind_of, kinds_named};
ghost use Rattle.zs_words.specs.Lists.{sections_by};
ghost use Rattle.zs_words.specs.Names.{all_sections, fetch_name};

use ev_base::{Listed, PlainText};
use ev_types::{EventKind, Section};
use std::alloc::{AllocError, Global};
use zs_words::{Named, read_name};

/// The kinds of events that the names name, in their order. Other names name none.
pub fn kinds_named(alloc: Global, names: &[PlainText]) -> Result<Listed<EventKind>, AllocError>
    ensures { IfOk result (λ kinds. kinds ≡ kinds_named names.now) }
{
    Ok(Listed::from_vec(kinds_found(alloc, names)?))
}

#[tactic(auto, unfolding(crate::specs::Named::kinds_named))]
fn kinds_found(alloc: Global, names: &[PlainText]) -> Result<Vec<EventKind>, AllocError>
    ensures { IfOk result (λ kinds. kinds.items ≡ kinds_named names.now) }
{
    names.iter().filter_map(kind_of).collect(alloc)
}

fn kind_of(name: &PlainText) -> Option<EventKind>
    ensures { result ≡ kind_of name.now }
{
    read_name(name.as_str().as_bytes())
}

/// The sections that are fetched by one of the names, in their order.
pub fn sections_named(alloc: Global, names: &[PlainText]) -> Result<Listed<Section>, AllocError>
    ensures { IfOk result (λ sections. sections ≡ sections_by names.now) }
{
    Ok(Listed::from_vec(sections_among(alloc, Section::values(), names)?))
}

// Those of the sections that are fetched by one of the names.
fn sections_among(
    alloc: Global,
    sections: &[Section],
    names: &[PlainText],
) -> Result<Vec<Section>, AllocError>
    ensures { IfOk result (λ found. found.items ≡ filter (is_named names.now) sections.now) }
{
    sections
        .iter()
        .copied()
        .filter(|section| is_named(names, *section))
        .collect(alloc)
}

/// All sections.
pub fn every_section(alloc: Global) -> Result<Listed<Section>, AllocError>
    ensures { IfOk result (λ sections. sections ≡ all_sections) }
{
    let sections = Section::values().iter().copied().collect(alloc)?;
    Ok(Listed::from_vec(sections))
}

fn is_named(names: &[PlainText], section: Section) -> bool
    ensures { result ≡ is_named names.now section }
{
    let wanted = fetch_name(section);
    names.iter().any(|name| name.as_str() == wanted)
}

// The name by which a section is fetched.
fn fetch_name(section: Section) -> &'static str
    ensures { result.now ≡ fetch_name section }
{
    match section {
        Section::Realm => "realm",
        Section::RealmUsers => "realm_user",
        Section::Streams => "stream",
        Section::Subscriptions | Section::Subscribers => "subscription",
        Section::Messages | Section::UnreadMessages => "message",
        Section::Reactions => "reaction",
        Section::StarredMessages => "starred_messages",
    }
}
