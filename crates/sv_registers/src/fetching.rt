//! Fetching the sections of a user's view.

ghost use Rattle.std.specs.Prelude.{◌≡◌, [], IfOk};
ghost use Rattle.zw_traces.specs.declared.realm.RealmReply.{RealmReply};
ghost use Rattle.sv_calls.specs.Flows.{Any, Goes, IsReady};
ghost use Rattle.sv_registers.specs.Fetches.{FetchesAll, FetchesOne, IsPart};
ghost use Rattle.zw_backend.specs.Backends.{IsKnown};

use ev_base::{Listed, NoMemory, UserId};
use ev_time::Gate;
use ev_types::Section;
use std::alloc::Global;
use zw_backend::Backend;
use zw_traces::{FetchedSection, RealmInput, RealmReply};

/// Fetches sections of the user's view, one after another. There are none where the realm refuses
/// one. The gate is told between two of them.
pub fn fetch_all<B: Backend, G: Gate>(
    backend: &B,
    alloc: Global,
    pass: &mut B::Pass,
    user: UserId,
    asked: &[Section],
    gate: &mut G,
) -> Result<Option<Listed<FetchedSection>>, NoMemory>
    requires known { IsKnown (B.represents backend.now pass.old) }
    ensures { Goes (B.represents backend.now pass.old) Any (FetchesAll user asked.now result)
        (B.represents backend.now pass.new) }
{
    let mut parts = Vec::new(alloc);
    for section in asked {
        if !parts.is_empty() {
            gate.between_sections();
        }
        let Some(part) = fetch_one(backend, alloc, pass, user, *section)? else {
            return Ok(None);
        };
        parts.push(part)?;
    }
    Ok(Some(Listed::from_vec(parts)))
}

// Fetches one. There is none where the realm refuses it.
fn fetch_one<B: Backend>(
    backend: &B,
    alloc: Global,
    pass: &mut B::Pass,
    user: UserId,
    section: Section,
) -> Result<Option<FetchedSection>, NoMemory>
    requires known { IsKnown (B.represents backend.now pass.old) }
    ensures { Goes (B.represents backend.now pass.old) Any (FetchesOne user section result)
        (B.represents backend.now pass.new) }
{
    part_in(
        section,
        backend.ask_realm(alloc, pass, RealmInput::Fetch { user, section }),
    )
}

fn part_in(section: Section, reply: RealmReply) -> Result<Option<FetchedSection>, NoMemory>
    ensures { IfOk result (IsPart section reply) }
{
    match reply {
        RealmReply::Section { rows, at } => Ok(Some(FetchedSection { section, rows, at })),
        RealmReply::FetchRefused => Ok(None),
        _ => Err(NoMemory),
    }
}
