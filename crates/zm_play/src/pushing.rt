//! Bringing announced notices to a shard.

ghost use Rattle.std.specs.Prelude.{◌≡◌, ◌<◌, ◌≤◌, ℕ, length};
ghost use Rattle.zs_script.specs.declared.step.Step.{Step};
ghost use Rattle.zm_text.specs.Playing.{CatchesUp};
ghost use Rattle.q_shard.specs.ShardInputs.{AreNumbered};
ghost use Rattle.zm_play.specs.Flows.{Any, Asks, Continues, IsDue, IsNext, IsReady, MayCatchUp, OrStops, PlaysAlone, PushesTaken, TakesNext, TakesUpTo, WereTaken};

use crate::committing::announce;
use ev_base::{Listed, NoMemory};
use ev_types::Notice;
use std::alloc::Global;
use zm_text::Outcome;
use zw_traces::{RealmInput, RealmReply, ShardInput, ShardReply};
use zw_world::World;

/// Brings a shard all announced notices that it lacks.
pub fn push(world: &mut World, alloc: Global, shard: u32) -> Result<Outcome, NoMemory>
    requires index { shard < length world.old.shards }
    requires ready { IsReady world.old Any }
    ensures continues { (moment : ℕ) → Continues world.old world.new Any
        (OrStops result (PlaysAlone moment (Step.Push shard))) }
    ensures shards { length world.new.shards ≡ length world.old.shards }
{
    let have = locate(world, alloc, shard);
    let need = world.announced();
    let position = take_and_push(world, alloc, shard, need, have)?;
    Ok(Outcome::Pushed { position })
}

/// Asks a shard how many notices were pushed to it.
pub fn locate(world: &mut World, alloc: Global, shard: u32) -> u64
    requires index { shard < length world.old.shards }
    ensures continues { Continues world.old world.new Any (Asks shard ShardInput.Locate (ShardReply.At result)) }
    ensures shards { length world.new.shards ≡ length world.old.shards }
{
    match world.ask_shard(alloc, shard, ShardInput::Locate) {
        ShardReply::At { position } => position,
        _ => unreachable!(),
    }
}

/// Brings a shard announced notices from one on, as many as are taken at once.
pub fn push_from(
    world: &mut World,
    alloc: Global,
    shard: u32,
    first: u64,
) -> Result<Outcome, NoMemory>
    requires index { shard < length world.old.shards }
    requires from_one { 1 ≤ first }
    requires ready { IsReady world.old Any }
    ensures continues { (moment : ℕ) → Continues world.old world.new Any
        (OrStops result (PlaysAlone moment (Step.PushFrom shard first))) }
    ensures shards { length world.new.shards ≡ length world.old.shards }
{
    match world.ask_realm(alloc, RealmInput::Take { first }) {
        RealmReply::Notices { list, .. } => push_taken(world, alloc, shard, first, list),
        RealmReply::NoMemory => Err(NoMemory),
        _ => unreachable!(),
    }
}

/// Pushes notices that were taken, which may begin past the next one that is due.
fn push_taken(
    world: &mut World,
    alloc: Global,
    shard: u32,
    first: u64,
    notices: Listed<Notice>,
) -> Result<Outcome, NoMemory>
    requires index { shard < length world.old.shards }
    requires numbered { AreNumbered first notices }
    ensures continues { Continues world.old world.new (WereTaken first notices)
        (OrStops result (PushesTaken shard first notices)) }
    ensures shards { length world.new.shards ≡ length world.old.shards }
{
    match world.ask_shard(alloc, shard, ShardInput::Push { first, notices }) {
        ShardReply::Pushed { position } => Ok(Outcome::Pushed { position }),
        ShardReply::Gap { have, first } => Ok(Outcome::Gap { have, first }),
        ShardReply::NoMemory => Err(NoMemory),
        _ => unreachable!(),
    }
}

/// Brings a shard at a position notices until it has as many as needed: all that are announced,
/// where fewer aren't enough.
pub fn catch_up(
    world: &mut World,
    alloc: Global,
    shard: u32,
    need: u64,
    have: u64,
) -> Result<u64, NoMemory>
    requires index { shard < length world.old.shards }
    requires ready { IsReady world.old (MayCatchUp shard need have) }
    ensures continues { Continues world.old world.new (MayCatchUp shard need have)
        (OrStops result (λ reached before after. CatchesUp shard need have before reached after)) }
    ensures shards { length world.new.shards ≡ length world.old.shards }
{
    if need <= have {
        return Ok(have);
    }
    announce(world, alloc);
    take_and_push(world, alloc, shard, need, have)
}

/// Takes notices and pushes them until a shard has as many as needed.
fn take_and_push(
    world: &mut World,
    alloc: Global,
    shard: u32,
    need: u64,
    have: u64,
) -> Result<u64, NoMemory>
    requires index { shard < length world.old.shards }
    requires ready { IsReady world.old (IsDue shard need have) }
    ensures continues { Continues world.old world.new (IsDue shard need have)
        (OrStops result (λ reached. TakesUpTo shard need have reached)) }
    ensures shards { length world.new.shards ≡ length world.old.shards }
{
    let mut reached = have;
    while reached < need {
        reached = push_next(world, alloc, shard, reached + 1)?;
    }
    Ok(reached)
}

/// Takes the notices from the next one that is due on, and pushes them.
fn push_next(world: &mut World, alloc: Global, shard: u32, first: u64) -> Result<u64, NoMemory>
    requires index { shard < length world.old.shards }
    requires ready { IsReady world.old (IsNext shard first) }
    ensures continues { Continues world.old world.new (IsNext shard first)
        (OrStops result (λ reached. TakesNext shard first reached)) }
    ensures shards { length world.new.shards ≡ length world.old.shards }
{
    match push_from(world, alloc, shard, first)? {
        Outcome::Pushed { position } => Ok(position),
        _ => unreachable!(),
    }
}
