//! The lists that words write.

ghost use Rattle.std.specs.Prelude.{◌≡◌, ◌↔◌, List, ℕ, IfOk, IsTrue, bytes_eq, map};
ghost use Rattle.std.specs.List.{AllZip, list_all, list_any};
ghost use Rattle.ev_base.specs.declared.ids.MessageId.{MessageId};
ghost use Rattle.ev_base.specs.declared.ids.UserId.{UserId};
ghost use Rattle.ev_types.specs.Feeders.{kind_name};
ghost use Rattle.ev_types.specs.declared.kind.EventKind.{EventKind};
ghost use Rattle.ev_types.specs.declared.kind.Types.{Types};
ghost use Rattle.ev_types.specs.declared.section.Section.{Section};
ghost use Rattle.zs_words.specs.Lists.{IsFetch, IsIds, IsMessages, IsTypes, IsUsers, is_fetch_name, parts_of, sections_by};
ghost use Rattle.zs_words.specs.Names.{all_sections, fetch_name};
ghost use Rattle.zs_words.specs.Numbers.{IsId};
ghost use Rattle.zs_words.specs.Readings.{Reads};

use crate::fault::LineFault;
use crate::names::read_name;
use crate::numbers::{read_id, read_message, read_user};
use ev_base::{Listed, MessageId, UserId};
use ev_types::{EventKind, Section, Types};
use std::alloc::{AllocError, Global};

/// The word for all types, or for all sections.
const ALL: &[u8] = b"*";

/// The word for no ids, no types, or no sections.
const NONE: &[u8] = b"-";

/// The word for the sections that the types name.
const AS_TYPES: &[u8] = b"=";

/// Whether the word writes a list of ids. This takes no memory.
pub fn is_ids(word: &[u8]) -> bool
    ensures { IsTrue result ↔ ((ids : List ℕ) × IsIds word.now ids) }
{
    word == NONE || are_ids(word)
}

/// Whether the word is ids with commas between them.
fn are_ids(word: &[u8]) -> bool
    ensures { IsTrue result ↔ ((ids : List ℕ) × AllZip IsId (parts_of word.now) ids) }
{
    word.split(|byte| *byte == b',')
        .all(|id| read_id(id).is_some())
}

/// The users that the word writes, which is a list of ids.
pub fn users_of(alloc: Global, word: &[u8]) -> Result<Listed<UserId>, AllocError>
    requires { (ids : List ℕ) × IsIds word.now ids }
    ensures { IfOk result (λ users. IsUsers word.now users) }
{
    // `-` is no number, so it leaves the list empty.
    let users = word
        .split(|byte| *byte == b',')
        .filter_map(|id| read_user(id))
        .collect(alloc)?;
    Ok(Listed::from_vec(users))
}

/// The messages that the word writes.
pub fn read_messages(alloc: Global, word: &[u8]) -> Result<Listed<MessageId>, LineFault>
    ensures { Reads (IsMessages word.now) result }
{
    if is_ids(word) {
        Ok(messages_of(alloc, word)?)
    } else {
        Err(LineFault::NotAStep)
    }
}

/// The messages that the word writes, which is a list of ids.
fn messages_of(alloc: Global, word: &[u8]) -> Result<Listed<MessageId>, AllocError>
    requires { (ids : List ℕ) × IsIds word.now ids }
    ensures { IfOk result (λ messages. IsMessages word.now messages) }
{
    let messages = word
        .split(|byte| *byte == b',')
        .filter_map(|id| read_message(id))
        .collect(alloc)?;
    Ok(Listed::from_vec(messages))
}

/// Whether the word writes types of events.
pub fn is_types(word: &[u8]) -> bool
    ensures { IsTrue result ↔ ((types : Types) × IsTypes word.now types) }
{
    word == ALL || word == NONE || are_kinds(word)
}

/// Whether the word is names of kinds of events.
fn are_kinds(word: &[u8]) -> bool
    ensures { IsTrue result ↔
        ((kinds : List EventKind) × (parts_of word.now ≡ map kind_name kinds)) }
{
    word.split(|byte| *byte == b',')
        .all(|name| read_name::<EventKind>(name).is_some())
}

/// The types of events that the word writes.
pub fn types_of(alloc: Global, word: &[u8]) -> Result<Types, AllocError>
    requires { (types : Types) × IsTypes word.now types }
    ensures { IfOk result (λ types. IsTypes word.now types) }
{
    if word == ALL {
        return Ok(Types::All);
    }
    // `-` is no name, so it leaves the list empty.
    let kinds = word
        .split(|byte| *byte == b',')
        .filter_map(|name| read_name::<EventKind>(name))
        .collect(alloc)?;
    Ok(Types::Only(Listed::from_vec(kinds)))
}

/// Whether the word writes sections to be fetched.
pub fn is_fetch(word: &[u8]) -> bool
    ensures { (types : Types) →
        IsTrue result ↔ ((asked : List Section) × IsFetch types word.now asked) }
{
    word == AS_TYPES || word == ALL || word == NONE || are_fetch_names(word)
}

fn are_fetch_names(word: &[u8]) -> bool
    ensures { result ≡ list_all is_fetch_name (parts_of word.now) }
{
    word.split(|byte| *byte == b',').all(is_fetch_name)
}

fn is_fetch_name(name: &[u8]) -> bool
    ensures { result ≡ is_fetch_name name.now }
{
    all_sections()
        .iter()
        .any(|section| fetch_name(*section).as_bytes() == name)
}

/// The sections to be fetched that the word writes beside this word of types.
pub fn fetch_of(alloc: Global, types: &[u8], word: &[u8]) -> Result<Listed<Section>, AllocError>
    requires { (asked : List Section) × IsFetch Types.All word.now asked }
    ensures { IfOk result (λ asked.
        (meant : Types) → IsTypes types.now meant → IsFetch meant word.now asked) }
{
    let names = if word == AS_TYPES { types } else { word };
    let asked = if names == ALL {
        every_section(alloc)?
    } else {
        sections_by(alloc, names)?
    };
    Ok(Listed::from_vec(asked))
}

fn every_section(alloc: Global) -> Result<Vec<Section>, AllocError>
    ensures { IfOk result (λ asked. asked.items ≡ all_sections) }
{
    all_sections().iter().copied().collect(alloc)
}

#[tactic(auto, unfolding(crate::specs::Lists::sections_by))]
fn sections_by(alloc: Global, names: &[u8]) -> Result<Vec<Section>, AllocError>
    ensures { IfOk result (λ asked. asked.items ≡ sections_by (parts_of names.now)) }
{
    all_sections()
        .iter()
        .copied()
        .filter(|section| has_fetch_name(names, *section))
        .collect(alloc)
}

fn has_fetch_name(names: &[u8], section: Section) -> bool
    ensures { result ≡
        list_any (λ name. bytes_eq name (fetch_name section)) (parts_of names.now) }
{
    names
        .split(|byte| *byte == b',')
        .any(|name| name == fetch_name(section).as_bytes())
}

fn all_sections() -> &'static [Section]
    ensures { result.now ≡ all_sections }
{
    &[
        Section::Realm,
        Section::RealmUsers,
        Section::Streams,
        Section::Subscriptions,
        Section::Subscribers,
        Section::Messages,
        Section::Reactions,
        Section::StarredMessages,
        Section::UnreadMessages,
    ]
}

fn fetch_name(section: Section) -> &'static str
    ensures { result.now ≡ fetch_name section }
{
    match section {
        Section::Realm => "realm",
        Section::RealmUsers => "realm_user",
        Section::Streams => "stream",
        Section::Subscriptions | Section::Subscribers => "subscription",
        Section::Messages | Section::UnreadMessages => "message",
        Section::Reactions => "reaction",
        Section::StarredMessages => "starred_messages",
    }
}
