//! What is asked of the realm alone, but for what it fetches.

ghost use Rattle.std.specs.Prelude.{◌≡◌, length};
ghost use Rattle.zw_traces.specs.Histories.{with_realm_step};
ghost use Rattle.zw_traces.specs.declared.realm.RealmInput.{RealmInput};
ghost use Rattle.zw_traces.specs.declared.realm.RealmReply.{RealmReply};
ghost use Rattle.zs_script.specs.declared.step.Step.{Step};
ghost use Rattle.zm_play.specs.Flows.{Any, Continues, OrStops, PlaysAlone};

use ev_base::{NoMemory, UserId};
use std::alloc::Global;
use zm_text::Outcome;
use zr_types::Command;
use zw_traces::{RealmInput, RealmReply};
use zw_world::World;

/// Asks for a change at a moment.
pub fn commit(
    world: &mut World,
    alloc: Global,
    moment: u64,
    actor: UserId,
    command: Command,
) -> Result<Outcome, NoMemory>
    ensures continues { Continues world.old world.new Any
        (OrStops result (PlaysAlone moment (Step.Command actor command))) }
    ensures shards { length world.new.shards ≡ length world.old.shards }
{
    match world.ask_realm(
        alloc,
        RealmInput::Commit {
            actor,
            moment,
            command,
        },
    ) {
        RealmReply::Committed(made) => Ok(Outcome::Committed {
            number: made.number,
            id: made.id,
        }),
        RealmReply::Refused(why) => Ok(Outcome::Refused(why)),
        RealmReply::NoMemory => Err(NoMemory),
        _ => unreachable!(),
    }
}

/// Announces all commits, and tells how many they are.
pub fn announce(world: &mut World, alloc: Global) -> u64
    ensures continues { Continues world.old world.new Any
        (λ before after. after ≡ with_realm_step RealmInput.NoticeAll (RealmReply.Noticed result) before) }
    ensures shards { length world.new.shards ≡ length world.old.shards }
{
    match world.ask_realm(alloc, RealmInput::NoticeAll) {
        RealmReply::Noticed { count } => count,
        _ => unreachable!(),
    }
}
