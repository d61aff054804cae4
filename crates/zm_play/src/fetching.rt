//! Fetching sections of a user's view.

ghost use Rattle.std.specs.Prelude.{◌≡◌, ℕ, [], IfOk, IfSome, length};
ghost use Rattle.zs_script.specs.Scripts.{AreInOrder};
ghost use Rattle.zs_script.specs.declared.step.Step.{Step};
ghost use Rattle.zm_play.specs.Flows.{Any, Continues, FetchesNeeded, FetchesOne, IsReady, OrStops, PlaysAlone};

use crate::states::state_of;
use ev_base::{NoMemory, UserId};
use ev_types::Section;
use rg_flow::{Flow, Need};
use std::alloc::Global;
use zm_text::Outcome;
use zw_traces::{FetchedSection, RealmInput, RealmReply};
use zw_world::World;

/// All sections, in their order.
const ALL_SECTIONS: [Section; 9] = [
    Section::Realm,
    Section::RealmUsers,
    Section::Streams,
    Section::Subscriptions,
    Section::Subscribers,
    Section::Messages,
    Section::Reactions,
    Section::StarredMessages,
    Section::UnreadMessages,
];

/// Shows all sections of a user's view, where the user is active.
pub fn view(world: &mut World, alloc: Global, user: UserId) -> Result<Outcome, NoMemory>
    requires ready { IsReady world.old Any }
    ensures continues { (moment : ℕ) → Continues world.old world.new Any
        (OrStops result (PlaysAlone moment (Step.View user))) }
    ensures shards { length world.new.shards ≡ length world.old.shards }
{
    let mut flow = Flow::start(alloc, &ALL_SECTIONS, 0)?;
    let all = fetch_needed(world, alloc, user, &mut flow, 0)?;
    if all {
        return Ok(Outcome::Viewed {
            commits: world.commits(),
            state: state_of(flow.into_parts().into_vec()),
        });
    }
    Ok(Outcome::FetchRefused)
}

/// Fetches the sections that a flow needs, one after the other, and tells whether there are all. The
/// realm refuses one where the user isn't active.
pub fn fetch_needed(
    world: &mut World,
    alloc: Global,
    user: UserId,
    flow: &mut Flow,
    have: u64,
) -> Result<bool, NoMemory>
    requires in_order { AreInOrder flow.old.asked }
    requires none { flow.old.parts ≡ [] }
    ensures same { flow.new ≡ record flow.old { parts = flow.new.parts } }
    ensures continues { Continues world.old world.new Any
        (OrStops result (FetchesNeeded user flow.old.asked flow.new.parts)) }
    ensures shards { length world.new.shards ≡ length world.old.shards }
{
    while let Need::Fetch(section) = flow.need(have) {
        match fetch_one(world, alloc, user, section)? {
            Some(part) => flow.put(part),
            None => return Ok(false),
        }
    }
    Ok(true)
}

/// Fetches a section. There is none where the realm refuses it.
pub fn fetch_one(
    world: &mut World,
    alloc: Global,
    user: UserId,
    section: Section,
) -> Result<Option<FetchedSection>, NoMemory>
    ensures section { IfOk result (λ found. IfSome found (λ part. part.section ≡ section)) }
    ensures continues { Continues world.old world.new Any (OrStops result (FetchesOne user section)) }
    ensures shards { length world.new.shards ≡ length world.old.shards }
{
    match world.ask_realm(alloc, RealmInput::Fetch { user, section }) {
        RealmReply::Section { rows, at } => Ok(Some(FetchedSection { section, rows, at })),
        RealmReply::FetchRefused => Ok(None),
        RealmReply::NoMemory => Err(NoMemory),
        _ => unreachable!(),
    }
}
