//! Plays one step over a world.

ghost use Rattle.std.specs.Prelude.{◌≡◌, OnOk, length, true};
ghost use Rattle.zs_script.specs.Scripts.{MayPlay, shards_after};
ghost use Rattle.zw_traces.specs.Histories.{History};
ghost use Rattle.zw_world.specs.Worlds.{WorldRepresents};
ghost use Rattle.zm_play.specs.Flows.{Any, Continues, IsReady, OrStops, PlaysAlone, is_alone};
ghost use Rattle.zm_play.specs.Parts.{Forgets};
ghost use Rattle.zm_play.specs.Played.{IsStanding, StepsOn};

use crate::committing::{announce, commit};
use crate::fetched::{FetchedParts, forget_ended};
use crate::fetching::view;
use crate::polling::{delete_queue, poll};
use crate::pushing::{locate, push, push_from};
use crate::queue_lines::{fetch_part, finish_queue, open_queue};
use crate::registering::register;
use crate::sharding::begin_over;
use crate::ticking::tick;
use ev_base::{NoMemory, QueueId};
use std::alloc::Global;
use zm_text::Outcome;
use zs_script::Step;
use zw_world::World;

/// Plays a step at a moment.
pub fn play_step(
    world: &mut World,
    fetched: &mut FetchedParts,
    alloc: Global,
    moment: u64,
    step: Step,
) -> Result<Outcome, NoMemory>
    requires may { MayPlay (length world.old.shards) step }
    requires standing { IsStanding world.old fetched.old }
    ensures steps { StepsOn moment step world.old fetched.old world.new fetched.new result }
    ensures shards { OnOk result
        (length world.new.shards ≡ shards_after step (length world.old.shards)) }
{
    match step {
        Step::Shards { count } => begin_over(world, fetched, alloc, count),
        Step::Fetch { queue, section } => fetch_part(world, fetched, alloc, queue, section),
        Step::Finish { queue } => finish_queue(world, fetched, alloc, queue),
        step => play_and_forget(world, fetched, alloc, moment, step),
    }
}

/// Plays a step of one line, and forgets what was fetched for the queues that it ended.
fn play_and_forget(
    world: &mut World,
    fetched: &mut FetchedParts,
    alloc: Global,
    moment: u64,
    step: Step,
) -> Result<Outcome, NoMemory>
    requires alone { is_alone step ≡ true }
    requires may { MayPlay (length world.old.shards) step }
    requires standing { IsStanding world.old fetched.old }
    ensures steps { StepsOn moment step world.old fetched.old world.new fetched.new result }
    ensures shards { OnOk result (length world.new.shards ≡ length world.old.shards) }
{
    let deleted = deleted_by(&step);
    let outcome = play_alone(world, alloc, moment, step)?;
    forget_gone(world, fetched, deleted, &outcome);
    Ok(outcome)
}

/// The queue that a step is to delete.
fn deleted_by(step: &Step) -> Option<QueueId> {
    match step {
        Step::DeleteQueue { queue, .. } => Some(*queue),
        _ => None,
    }
}

/// Forgets what was fetched for a queue that was deleted, and for those that a tick collected.
fn forget_gone(
    world: &World,
    fetched: &mut FetchedParts,
    deleted: Option<QueueId>,
    outcome: &Outcome,
)
    ensures { (history : History) → WorldRepresents world.now history
        → Forgets history fetched.old fetched.new }
{
    if let Outcome::Ticked { queues } = outcome {
        forget_ended(world, fetched, queues.as_slice());
    } else if let Some(queue) = deleted {
        forget_ended(world, fetched, &[queue]);
    }
}

/// Plays a step of one line.
fn play_alone(
    world: &mut World,
    alloc: Global,
    moment: u64,
    step: Step,
) -> Result<Outcome, NoMemory>
    requires alone { is_alone step ≡ true }
    requires may { MayPlay (length world.old.shards) step }
    requires ready { IsReady world.old Any }
    ensures continues { Continues world.old world.new Any
        (OrStops result (PlaysAlone moment step)) }
    ensures shards { length world.new.shards ≡ length world.old.shards }
{
    match step {
        Step::Command { actor, command } => commit(world, alloc, moment, actor, command),
        Step::NoticeAll => Ok(Outcome::Noticed {
            count: announce(world, alloc),
        }),
        Step::Push { shard } => push(world, alloc, shard),
        Step::PushFrom { shard, first } => push_from(world, alloc, shard, first),
        Step::OpenQueue { user, types, asked } => {
            open_queue(world, alloc, moment, user, types, asked)
        }
        Step::Register { user, types, asked } => register(world, alloc, moment, user, types, asked),
        Step::Poll {
            user,
            queue,
            after,
            beat,
        } => poll(world, alloc, moment, user, queue, after, beat),
        Step::DeleteQueue { user, queue } => Ok(delete_queue(world, alloc, user, queue)),
        Step::Tick { moment: to } => tick(world, alloc, moment, to),
        Step::Locate { shard } => Ok(Outcome::At {
            position: locate(world, alloc, shard),
        }),
        Step::View { user } => view(world, alloc, user),
        Step::Shards { .. } | Step::Fetch { .. } | Step::Finish { .. } => unreachable!(),
    }
}
