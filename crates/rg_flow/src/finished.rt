//! The state that a finish answers.

ghost use Rattle.std.specs.Prelude.{◌≡◌, ◌&&◌, IfOk, option_map, if◌then◌else◌};
ghost use Rattle.std.specs.List.{list_any};
ghost use Rattle.ev_types.specs.declared.section.Section.{Section};
ghost use Rattle.ev_types.specs.OneSection.{rows_after, rows_of, same_section};
ghost use Rattle.ev_types.specs.Sections.{sections_of};
ghost use Rattle.zw_traces.specs.FetchedSections.{part_of};

use crate::asked::{is_asked, same_section};
use crate::placed::{empty_state, own_section, with_section};
use ev_apply::{apply_events, prepare};
use ev_base::{Listed, NoMemory};
use ev_types::{Event, Section, State};
use zw_traces::FetchedSection;

/// The sections that are asked for and given, after these events. The rows are moved and not copied.
/// Of a section that is given twice the first counts.
///
/// No state has the rows of a section as another section. Parts that say so of rows are answered as out
/// of memory, if they are asked for.
pub fn finished_state(
    asked: &[Section],
    parts: Listed<FetchedSection>,
    events: Vec<Event>,
) -> Result<State, NoMemory>
    ensures { IfOk result (λ state. (which : Section) → rows_of which (sections_of state)
        ≡ (if list_any (same_section which) asked.now
        then option_map (λ part. rows_after events.items part.rows) (part_of which parts) else None)) }
{
    let mut state = given_state(asked, parts.into_vec())?;
    let ready = prepare(&mut state, events)?;
    apply_events(&mut state, ready);
    Ok(state)
}

// The sections that are asked for and given.
fn given_state(asked: &[Section], mut parts: Vec<FetchedSection>) -> Result<State, NoMemory>
    ensures { IfOk result (λ state. (which : Section) → rows_of which (sections_of state)
        ≡ (if list_any (same_section which) asked.now
        then option_map (λ part. part.rows) (part_of which parts.items) else None)) }
{
    let mut state = empty_state();
    while let Some(part) = parts.pop() {
        place(asked, part, &mut state)?;
    }
    Ok(state)
}

// Puts the part into the state, if it is asked for.
fn place(asked: &[Section], part: FetchedSection, state: &mut State) -> Result<(), NoMemory>
    ensures { IfOk result (λ _. (which : Section) → rows_of which (sections_of state.new)
        ≡ (if list_any (same_section which) asked.now && same_section which part.section
        then Some part.rows else rows_of which (sections_of state.old))) }
{
    if !is_asked(asked, part.section) {
        return Ok(());
    }
    if !same_section(own_section(&part.rows), part.section) {
        return Err(NoMemory);
    }
    with_section(state, part.rows);
    Ok(())
}
