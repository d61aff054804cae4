//! Letting the time go on.

ghost use Rattle.std.specs.Prelude.{◌≡◌, ◌<◌, ◌++◌, OnOk, length, map};
ghost use Rattle.zw_traces.specs.declared.shard.ShardInput.{ShardInput};
ghost use Rattle.zw_traces.specs.declared.shard.ShardReply.{ShardReply};
ghost use Rattle.zs_script.specs.declared.step.Step.{Step};
ghost use Rattle.zm_play.specs.Flows.{Any, Asks, Continues, OrStops, PlaysAlone, queue_of};

use ev_base::{Expired, Listed, NoMemory, QueueId};
use std::alloc::Global;
use zm_text::Outcome;
use zw_traces::{ShardInput, ShardReply};
use zw_world::World;

/// Ticks all shards, in their order, at the later of these moments, and tells the queues that they
/// collected.
pub fn tick(world: &mut World, alloc: Global, moment: u64, to: u64) -> Result<Outcome, NoMemory>
    ensures continues { Continues world.old world.new Any
        (OrStops result (PlaysAlone moment (Step.Tick to))) }
    ensures shards { length world.new.shards ≡ length world.old.shards }
{
    let now = moment.max(to);
    let mut queues = Vec::new(alloc);
    for shard in 0..world.shards() {
        let expired = tick_shard(world, alloc, shard, now)?;
        add_queues(&mut queues, expired.as_slice())?;
    }
    Ok(Outcome::Ticked {
        queues: Listed::from_vec(queues),
    })
}

/// Ticks a shard.
fn tick_shard(
    world: &mut World,
    alloc: Global,
    shard: u32,
    moment: u64,
) -> Result<Listed<Expired>, NoMemory>
    requires index { shard < length world.old.shards }
    ensures continues { Continues world.old world.new Any
        (OrStops result (λ expired. Asks shard (ShardInput.Tick moment) (ShardReply.Ticked expired))) }
    ensures shards { length world.new.shards ≡ length world.old.shards }
{
    match world.ask_shard(alloc, shard, ShardInput::Tick { moment }) {
        ShardReply::Ticked { expired } => Ok(expired),
        ShardReply::NoMemory => Err(NoMemory),
        _ => unreachable!(),
    }
}

/// Appends the queues that were collected.
fn add_queues(queues: &mut Vec<QueueId>, expired: &[Expired]) -> Result<(), NoMemory>
    ensures { OnOk result (queues.new.items ≡ queues.old.items ++ map queue_of expired.now) }
{
    for one in expired {
        queues.push(one.queue)?;
    }
    Ok(())
}
