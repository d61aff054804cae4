//! The flow of a registration.

ghost use Rattle.std.specs.Prelude.{◌≡◌, ◌<◌, [], length};
ghost use Rattle.zs_script.specs.Scripts.{AreInOrder};
ghost use Rattle.zs_script.specs.declared.step.Step.{Step};
ghost use Rattle.zm_text.specs.Playing.{CatchesUp, sections};
ghost use Rattle.zw_traces.specs.declared.shard.ShardInput.{ShardInput};
ghost use Rattle.zw_traces.specs.declared.shard.ShardReply.{ShardReply};
ghost use Rattle.zm_play.specs.Flows.{Any, Asks, Completes, Continues, Finishes, IsReady, MayCatchUp, MayComplete, MayDelete, MayFinish, OrStops, PlaysAlone, Registers, WasOpened, least_of};

use crate::fetching::fetch_needed;
use crate::pushing::catch_up;
use crate::queue_lines::open_queue;
use ev_base::{Listed, NoMemory, QueueId, UserId};
use ev_types::{Section, Types};
use rg_flow::{Flow, Need};
use std::alloc::Global;
use zm_text::Outcome;
use zw_traces::{FetchedSection, ShardInput, ShardReply};
use zw_world::World;

/// Registers a user at a moment, at the shard that serves it.
pub fn register(
    world: &mut World,
    alloc: Global,
    moment: u64,
    user: UserId,
    types: Types,
    asked: Listed<Section>,
) -> Result<Outcome, NoMemory>
    requires in_order { AreInOrder asked }
    requires ready { IsReady world.old Any }
    ensures continues { Continues world.old world.new Any
        (OrStops result (PlaysAlone moment (Step.Register user types asked))) }
    ensures shards { length world.new.shards ≡ length world.old.shards }
{
    let flow = Flow::start(alloc, asked.as_slice(), world.commits())?;
    match open_queue(world, alloc, moment, user, types, asked)? {
        Outcome::Opened { queue, position } => fill(world, alloc, user, flow, queue, position),
        refused => Ok(refused),
    }
}

/// Fetches the sections that the flow of an opened queue needs, and finishes the queue. Where a fetch
/// is refused, the queue is deleted.
fn fill(
    world: &mut World,
    alloc: Global,
    user: UserId,
    mut flow: Flow,
    queue: QueueId,
    have: u64,
) -> Result<Outcome, NoMemory>
    requires in_order { AreInOrder flow.asked }
    requires none { flow.parts ≡ [] }
    requires ready { IsReady world.old (WasOpened user flow queue have) }
    ensures continues { Continues world.old world.new (WasOpened user flow queue have)
        (OrStops result (Registers user flow.asked queue have)) }
    ensures shards { length world.new.shards ≡ length world.old.shards }
{
    let shard = world.serving(user);
    let all = fetch_needed(world, alloc, user, &mut flow, have)?;
    if all {
        return complete(world, alloc, shard, flow, queue, have);
    }
    delete(world, alloc, shard, user, queue);
    Ok(Outcome::FetchRefused)
}

/// Brings a shard the notices that a flow needs, and finishes the queue with its sections.
fn complete(
    world: &mut World,
    alloc: Global,
    shard: u32,
    flow: Flow,
    queue: QueueId,
    have: u64,
) -> Result<Outcome, NoMemory>
    requires index { shard < length world.old.shards }
    requires ready { IsReady world.old (MayComplete shard flow queue have) }
    ensures continues { Continues world.old world.new (MayComplete shard flow queue have)
        (OrStops result (Completes shard flow queue have)) }
    ensures shards { length world.new.shards ≡ length world.old.shards }
{
    push_needed(world, alloc, shard, &flow, have)?;
    finish(world, alloc, shard, queue, flow.into_parts())
}

/// Brings a shard at a position the notices that a flow needs, which has its sections.
fn push_needed(
    world: &mut World,
    alloc: Global,
    shard: u32,
    flow: &Flow,
    have: u64,
) -> Result<u64, NoMemory>
    requires index { shard < length world.old.shards }
    requires whole { sections flow.now.parts ≡ flow.now.asked }
    requires ready { IsReady world.old (MayCatchUp shard (least_of flow.now) have) }
    ensures continues { Continues world.old world.new (MayCatchUp shard (least_of flow.now) have)
        (OrStops result (λ reached before after.
        CatchesUp shard (least_of flow.now) have before reached after)) }
    ensures shards { length world.new.shards ≡ length world.old.shards }
{
    match flow.need(have) {
        Need::PushTo(least) => catch_up(world, alloc, shard, least, have),
        _ => Ok(have),
    }
}

/// Finishes an opening queue of a shard that has caught up. Among the notices may have been one that
/// ended the queue.
fn finish(
    world: &mut World,
    alloc: Global,
    shard: u32,
    queue: QueueId,
    parts: Listed<FetchedSection>,
) -> Result<Outcome, NoMemory>
    requires index { shard < length world.old.shards }
    requires ready { IsReady world.old (MayFinish shard queue parts) }
    ensures continues { Continues world.old world.new (MayFinish shard queue parts)
        (OrStops result (Finishes shard queue parts)) }
    ensures shards { length world.new.shards ≡ length world.old.shards }
{
    match world.ask_shard(alloc, shard, ShardInput::Finish { queue, parts }) {
        ShardReply::Finished {
            state,
            last_event_id,
            reached,
        } => Ok(Outcome::Finished {
            reached,
            queue,
            last_event_id,
            state,
        }),
        ShardReply::BadQueue => Ok(Outcome::BadQueue),
        ShardReply::NoMemory => Err(NoMemory),
        _ => unreachable!(),
    }
}

/// Deletes a user's opening queue.
fn delete(world: &mut World, alloc: Global, shard: u32, user: UserId, queue: QueueId)
    requires index { shard < length world.old.shards }
    requires ready { IsReady world.old (MayDelete shard user queue) }
    ensures continues { Continues world.old world.new (MayDelete shard user queue)
        (Asks shard (ShardInput.Delete user queue) ShardReply.Deleted) }
    ensures shards { length world.new.shards ≡ length world.old.shards }
{
    match world.ask_shard(alloc, shard, ShardInput::Delete { user, queue }) {
        ShardReply::Deleted => {}
        _ => unreachable!(),
    }
}
