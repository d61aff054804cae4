//! What a registration needs next, until it can be finished.

ghost use Rattle.std.specs.Prelude.{◌≡◌, ◌≤◌, [], IfOk, None, OnErr, if◌then◌else◌, is_ok, vec_capacity, vec_len};
ghost use Rattle.std.specs.List.{position};
ghost use Rattle.ev_types.specs.OneSection.{same_section};
ghost use Rattle.zw_traces.specs.FetchedSections as of_parts;
ghost use Rattle.zw_traces.specs.FetchedSections.{all_sections, part_of};
ghost use Rattle.rg_flow.specs.Flows.{need_of, need_with, with_part};

use crate::asked::{first_missing, needed, same_section};
use ev_base::{Listed, NoMemory};
use ev_types::Section;
use std::alloc::Global;
use std::marker::Model;
use zw_traces::FetchedSection;

/// What a registration needs next.
#[derive(Clone, Copy, Debug, PartialEq, Eq)]
pub enum Need {
    /// A section of the user's view.
    Fetch(Section),
    /// That this many notices are pushed to the shard.
    PushTo(u64),
    /// Nothing more.
    Finish,
}

/// The sections that a registration asks for and those that it has, each once. Besides, its shard is
/// to be pushed as far as its user has seen.
#[derive(Drop)]
pub struct Flow {
    asked: Vec<Section>,
    seen: u64,
    parts: Vec<FetchedSection>,
}

impl Model for Flow {
    ghost use Rattle.std.specs.Prelude.{◌≤◌, vec_capacity};
    ghost use Rattle.rg_flow.specs.FlowValue.{AreApart, FlowValue};

    ghost Value = { FlowValue };

    ghost view = { λ it. record {
      asked = it.asked.items;
      seen = it.seen;
      parts = it.parts.items;
    } };

    ghost invariant = { λ it. (9 ≤ vec_capacity it.parts) × AreApart it.parts.items };
}

impl Flow {
    /// A flow that has no section yet. It has memory for all that are put later.
    pub fn start(alloc: Global, asked: &[Section], seen: u64) -> Result<Flow, NoMemory>
        ensures { IfOk result (λ flow. flow
            ≡ record { asked = asked.now; seen = seen; parts = [] }) }
    {
        Ok(Flow {
            asked: asked.to_vec(alloc)?,
            seen,
            parts: Vec::with_capacity(alloc, 9)?,
        })
    }

    /// What is needed next, where the shard was pushed this many notices.
    pub fn need(&self, position: u64) -> Need
        ensures { result ≡ need_of self.now.asked self.now.seen self.now.parts position }
    {
        let least = self.seen.max(needed(&self.asked, &self.parts));
        need_with(first_missing(&self.asked, &self.parts), least, position)
    }

    /// Puts a section that was fetched, in place of what the flow had of it. It takes no memory.
    pub fn put(&mut self, part: FetchedSection)
        ensures { self.new ≡ record self.old { parts = with_part part self.old.parts } }
    {
        if put_part(&mut self.parts, part).is_err() {
            unreachable!();
        }
    }

    /// The sections that the flow has.
    pub fn into_parts(self) -> Listed<FetchedSection>
        ensures { result ≡ self.parts }
    {
        let Flow { parts, .. } = self;
        Listed::from_vec(parts)
    }
}

fn need_with(missing: Option<Section>, least: u64, position: u64) -> Need
    ensures { result ≡ need_with missing least position }
{
    match missing {
        Some(section) => Need::Fetch(section),
        None if position < least => Need::PushTo(least),
        None => Need::Finish,
    }
}

/// Puts a section that was fetched, in place of what the parts had of it. Memory is refused only
/// where they had nothing of it, and are as many as they have room for.
pub fn put_part(parts: &mut Vec<FetchedSection>, part: FetchedSection) -> Result<(), NoMemory>
    ensures parts { parts.new.items
        ≡ (if is_ok result then with_part part parts.old.items else parts.old.items) }
    ensures capacity { vec_capacity parts.old ≤ vec_capacity parts.new }
    ensures refused { OnErr result ((part_of part.section parts.old.items ≡ None)
        × (vec_capacity parts.old ≤ vec_len parts.old)) }
{
    match place_of(parts, part.section) {
        Some(at) => parts[at] = part,
        None => parts.push(part)?,
    }
    Ok(())
}

// The place of the section's part.
fn place_of(parts: &[FetchedSection], which: Section) -> Option<usize>
    ensures { result ≡ position (λ part. same_section which part.section) parts.now }
{
    parts
        .iter()
        .position(|part| same_section(which, part.section))
}
