//! Which of the sections that are asked for were given, and at which commit they were fetched.

ghost use Rattle.std.specs.Prelude.{◌≡◌, ◌&&◌, is_none, option_copied};
ghost use Rattle.std.specs.List.{list_any};
ghost use Rattle.std.specs.Option.{option_map_or};
ghost use Rattle.ev_types.specs.OneSection.{same_section};
ghost use Rattle.zw_traces.specs.FetchedSections as of_parts;
ghost use Rattle.zw_traces.specs.FetchedSections.{all_sections, part_of};

use ev_types::Section;
use zw_traces::FetchedSection;

/// The first section that is asked for and isn't among the parts.
pub fn first_missing(asked: &[Section], parts: &[FetchedSection]) -> Option<Section>
    ensures { result ≡ of_parts.first_missing all_sections asked.now parts.now }
{
    missing_among(&all_sections(), asked, parts)
}

fn missing_among(
    sections: &[Section],
    asked: &[Section],
    parts: &[FetchedSection],
) -> Option<Section>
    ensures { result ≡ of_parts.first_missing sections.now asked.now parts.now }
{
    for which in sections {
        if is_missing(asked, parts, *which) {
            return Some(*which);
        }
    }
    None
}

fn is_missing(asked: &[Section], parts: &[FetchedSection], which: Section) -> bool
    ensures { result ≡ (list_any (same_section which) asked.now && is_none (part_of which parts.now)) }
{
    is_asked(asked, which) && part_of(parts, which).is_none()
}

/// The latest commit at which a section that is asked for was fetched.
pub fn needed(asked: &[Section], parts: &[FetchedSection]) -> u64
    ensures { result ≡ of_parts.needed asked.now parts.now }
{
    let mut latest = 0;
    for which in asked {
        latest = latest.max(fetched_at(parts, *which));
    }
    latest
}

// The commit at which the section was fetched, and 0 where it wasn't given.
fn fetched_at(parts: &[FetchedSection], which: Section) -> u64
    ensures { result ≡ option_map_or (λ part. part.at) (part_of which parts.now) 0 }
{
    match part_of(parts, which) {
        Some(part) => part.at,
        None => 0,
    }
}

/// Whether the section is asked for.
pub fn is_asked(asked: &[Section], which: Section) -> bool
    ensures { result ≡ list_any (same_section which) asked.now }
{
    asked.iter().any(|section| same_section(which, *section))
}

/// Whether both are the same section.
pub fn same_section(which: Section, other: Section) -> bool
    ensures { result ≡ same_section which other }
{
    which == other
}

// Of a section that is given twice the first counts.
fn part_of(parts: &[FetchedSection], which: Section) -> Option<&FetchedSection>
    ensures { option_copied result ≡ part_of which parts.now }
{
    for part in parts {
        if same_section(which, part.section) {
            return Some(part);
        }
    }
    None
}

fn all_sections() -> [Section; 9]
    ensures { result ≡ all_sections }
{
    [
        Section::Realm,
        Section::RealmUsers,
        Section::Streams,
        Section::Subscriptions,
        Section::Subscribers,
        Section::Messages,
        Section::Reactions,
        Section::StarredMessages,
        Section::UnreadMessages,
    ]
}
