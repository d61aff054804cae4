//! What is asked of a queue that is held: its items, and its deletion.

ghost use Rattle.std.specs.Prelude.{◌≡◌, ℕ, length};
ghost use Rattle.zs_script.specs.declared.step.Step.{Step};
ghost use Rattle.zm_play.specs.Flows.{Any, Continues, OrStops, PlaysAlone};

use ev_base::{NoMemory, QueueId, UserId};
use std::alloc::Global;
use zm_text::Outcome;
use zw_traces::{ShardInput, ShardReply};
use zw_world::World;

/// Asks the user's shard at a moment for the items of a queue above an id, and with `beat` for a
/// heartbeat where there is none.
pub fn poll(
    world: &mut World,
    alloc: Global,
    moment: u64,
    user: UserId,
    queue: QueueId,
    after: i64,
    beat: bool,
) -> Result<Outcome, NoMemory>
    ensures continues { Continues world.old world.new Any
        (OrStops result (PlaysAlone moment (Step.Poll user queue after beat))) }
    ensures shards { length world.new.shards ≡ length world.old.shards }
{
    let shard = world.serving(user);
    match world.ask_shard(
        alloc,
        shard,
        ShardInput::Poll {
            user,
            queue,
            after,
            moment,
            beat,
        },
    ) {
        ShardReply::Answer { items, reached } => Ok(Outcome::Answered {
            reached,
            queue,
            items,
        }),
        ShardReply::Empty { reached } => Ok(Outcome::Empty { reached }),
        ShardReply::BadQueue => Ok(Outcome::BadQueue),
        ShardReply::NotSent { greatest } => Ok(Outcome::NotSent { greatest }),
        ShardReply::Pruned { newest } => Ok(Outcome::Pruned { newest }),
        ShardReply::NoMemory => Err(NoMemory),
        _ => unreachable!(),
    }
}

/// Deletes a queue of a user.
pub fn delete_queue(world: &mut World, alloc: Global, user: UserId, queue: QueueId) -> Outcome
    ensures continues { (moment : ℕ) → Continues world.old world.new Any
        (PlaysAlone moment (Step.DeleteQueue user queue) result) }
    ensures shards { length world.new.shards ≡ length world.old.shards }
{
    let shard = world.serving(user);
    match world.ask_shard(alloc, shard, ShardInput::Delete { user, queue }) {
        ShardReply::Deleted => Outcome::Deleted,
        ShardReply::BadQueue => Outcome::BadQueue,
        _ => unreachable!(),
    }
}
