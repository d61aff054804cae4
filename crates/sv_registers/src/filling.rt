//! Filling queues that were opened.

ghost use Rattle.std.specs.Prelude.{◌≡◌, []};
ghost use Rattle.sv_calls.specs.Flows.{Goes, IsReady};
ghost use Rattle.sv_registers.specs.Fetches.{latest};
ghost use Rattle.sv_registers.specs.Registrations.{Completes, EndsAs, Fills, Finishes, InRegistration};

use crate::fetching::fetch_all;
use crate::opening::Opened;
use crate::registration::Registered;
use ev_base::{Listed, NoMemory, QueueId, UserId};
use ev_time::Gate;
use ev_types::Section;
use std::alloc::Global;
use std::sync::Wait;
use sv_calls::catch_up;
use zw_backend::Backend;
use zw_traces::{FetchedSection, ShardInput, ShardReply};

/// Fetches the sections that were asked for, brings the shard to the latest fetch and to the commits
/// that the user has seen, and finishes the queue.
pub fn fill<R: Wait, B: Backend, G: Gate>(
    rt: &R,
    backend: &B,
    alloc: Global,
    pass: &mut B::Pass,
    shard: u32,
    user: UserId,
    opened: Opened,
    asked: &[Section],
    commits: u64,
    gate: &mut G,
) -> Registered
    requires ready { IsReady (B.represents backend.now pass.old)
        (InRegistration shard user opened.queue []) }
    ensures { Goes (B.represents backend.now pass.old) (InRegistration shard user opened.queue [])
        (Fills shard user opened asked.now commits result) (B.represents backend.now pass.new) }
{
    match fetch_all(backend, alloc, pass, user, asked, gate) {
        Ok(Some(parts)) => {
            complete(
                rt, backend, alloc, pass, shard, user, opened, parts, commits, gate,
            )
        }
        Ok(None) => Registered::FetchRefused,
        Err(NoMemory) => Registered::NoMemory,
    }
}

// Brings the shard up to date, and finishes the queue with its sections.
fn complete<R: Wait, B: Backend, G: Gate>(
    rt: &R,
    backend: &B,
    alloc: Global,
    pass: &mut B::Pass,
    shard: u32,
    user: UserId,
    opened: Opened,
    parts: Listed<FetchedSection>,
    commits: u64,
    gate: &mut G,
) -> Registered
    requires ready { IsReady (B.represents backend.now pass.old)
        (InRegistration shard user opened.queue parts) }
    ensures { Goes (B.represents backend.now pass.old) (InRegistration shard user opened.queue parts)
        (Completes shard opened parts commits result) (B.represents backend.now pass.new) }
{
    let need = commits.max(latest(parts.as_slice()));
    match catch_up(rt, backend, alloc, pass, shard, opened.position, need, gate) {
        Ok(_) => finish(backend, alloc, pass, shard, user, opened.queue, parts, gate),
        Err(NoMemory) => Registered::NoMemory,
    }
}

// The latest commit at which a part was fetched.
fn latest(parts: &[FetchedSection]) -> u64
    ensures { result ≡ latest parts.now }
{
    let mut latest = 0;
    for part in parts {
        latest = latest.max(part.at);
    }
    latest
}

fn finish<B: Backend, G: Gate>(
    backend: &B,
    alloc: Global,
    pass: &mut B::Pass,
    shard: u32,
    user: UserId,
    queue: QueueId,
    parts: Listed<FetchedSection>,
    gate: &mut G,
) -> Registered
    requires ready { IsReady (B.represents backend.now pass.old)
        (InRegistration shard user queue parts) }
    ensures { Goes (B.represents backend.now pass.old) (InRegistration shard user queue parts)
        (Finishes shard queue parts result) (B.represents backend.now pass.new) }
{
    registered_in(
        queue,
        backend.ask_shard(
            alloc,
            pass,
            shard,
            ShardInput::Finish { queue, parts },
            gate,
        ),
    )
}

// What a reply to a finish tells; any other reply stands for out of memory.
fn registered_in(queue: QueueId, reply: ShardReply) -> Registered
    ensures { EndsAs queue reply result }
{
    match reply {
        ShardReply::Finished {
            state,
            last_event_id,
            ..
        } => Registered::Finished {
            queue,
            last_event_id,
            state,
        },
        ShardReply::BadQueue => Registered::BadQueue { queue },
        _ => Registered::NoMemory,
    }
}
