//! The lines that register a queue piece by piece: it is opened, sections are fetched for it, and
//! it is finished with them.

ghost use Rattle.std.specs.Prelude.{◌≡◌, ℕ, length};
ghost use Rattle.zs_script.specs.declared.step.Step.{Step};
ghost use Rattle.zm_play.specs.Flows.{Any, Continues, OrStops, PlaysAlone};
ghost use Rattle.zm_play.specs.Played.{StepsOn};

use crate::fetched::{FetchedParts, take_parts};
use crate::fetching::fetch_one;
use ev_base::{Listed, NoMemory, QueueId, UserId};
use ev_types::{Section, Types};
use std::alloc::Global;
use zm_text::{Outcome, SALT};
use zw_traces::{ShardInput, ShardReply};
use zw_world::World;

/// Opens a queue at a moment, at the shard that serves the user.
pub fn open_queue(
    world: &mut World,
    alloc: Global,
    moment: u64,
    user: UserId,
    types: Types,
    asked: Listed<Section>,
) -> Result<Outcome, NoMemory>
    ensures continues { Continues world.old world.new Any
        (OrStops result (PlaysAlone moment (Step.OpenQueue user types asked))) }
    ensures shards { length world.new.shards ≡ length world.old.shards }
{
    let shard = world.serving(user);
    let salt = SALT;
    match world.ask_shard(
        alloc,
        shard,
        ShardInput::Start {
            user,
            salt,
            moment,
            types,
            asked,
        },
    ) {
        ShardReply::Opened { queue, position } => Ok(Outcome::Opened { queue, position }),
        ShardReply::OpensSpent => Ok(Outcome::OpensSpent),
        ShardReply::TooManyQueues => Ok(Outcome::TooManyQueues),
        ShardReply::NoMemory => Err(NoMemory),
        _ => unreachable!(),
    }
}

/// Fetches a section for a queue in registration.
pub fn fetch_part(
    world: &mut World,
    fetched: &mut FetchedParts,
    alloc: Global,
    queue: QueueId,
    section: Section,
) -> Result<Outcome, NoMemory>
    ensures steps { (moment : ℕ) → StepsOn moment (Step.Fetch queue section)
        world.old fetched.old world.new fetched.new result }
    ensures shards { length world.new.shards ≡ length world.old.shards }
{
    if !world.is_opening(queue) {
        fetched.forget(queue);
        return Ok(Outcome::BadQueue);
    }
    match fetch_one(world, alloc, queue.user, section)? {
        Some(part) => {
            let at = part.at;
            fetched.put(alloc, queue, part)?;
            Ok(Outcome::Fetched { section, at })
        }
        None => Ok(Outcome::FetchRefused),
    }
}

/// Finishes a queue in registration with the sections that were fetched for it. Where one is
/// missing, or the shard wasn't brought what they need, they are kept.
pub fn finish_queue(
    world: &mut World,
    fetched: &mut FetchedParts,
    alloc: Global,
    queue: QueueId,
) -> Result<Outcome, NoMemory>
    ensures steps { (moment : ℕ) → StepsOn moment (Step.Finish queue)
        world.old fetched.old world.new fetched.new result }
    ensures shards { length world.new.shards ≡ length world.old.shards }
{
    let parts = take_parts(world, fetched, alloc, queue);
    let shard = world.serving(queue.user);
    match world.ask_shard(alloc, shard, ShardInput::Finish { queue, parts }) {
        ShardReply::Finished {
            state,
            last_event_id,
            reached,
        } => Ok(Outcome::Finished {
            reached,
            queue,
            last_event_id,
            state,
        }),
        ShardReply::BadQueue => Ok(Outcome::BadQueue),
        ShardReply::MissingSection { section, parts } => {
            fetched.keep(queue, parts)?;
            Ok(Outcome::MissingSection { section })
        }
        ShardReply::NotPushed { have, need, parts } => {
            fetched.keep(queue, parts)?;
            Ok(Outcome::NotPushed { have, need })
        }
        ShardReply::NoMemory => Err(NoMemory),
        _ => unreachable!(),
    }
}
