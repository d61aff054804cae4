//! The events of a queue.

ghost use Rattle.std.specs.Prelude.{◌≡◌, IfOk};
ghost use Rattle.zw_traces.specs.declared.shard.ShardReply.{ShardReply};
ghost use Rattle.zw_backend.specs.Backends.{IsKnown};
ghost use Rattle.sv_calls.specs.Flows.{Any, Goes, HasShard, IsReady};
ghost use Rattle.sv_polls.specs.Polls.{CatchesUpTo, Locates, PollsEvents};

use crate::poll::Poll;
use crate::polling::poll_on;
use ev_base::NoMemory;
use ev_time::{Clock, Gate};
use std::alloc::Global;
use std::sync::Wait;
use sv_calls::{catch_up, serving};
use zw_backend::Backend;
use zw_traces::{ShardInput, ShardReply};

/// Brings the shard that serves a user to so many commits as the user has seen, and then polls.
pub fn poll_events<R: Wait, B: Backend, C: Clock, G: Gate>(
    rt: &R,
    backend: &B,
    alloc: Global,
    pass: &mut B::Pass,
    poll: Poll,
    commits: u64,
    clock: &mut C,
    gate: &mut G,
) -> Result<ShardReply, NoMemory>
    requires ready { IsKnown (B.represents backend.now pass.old) }
    ensures { Goes (B.represents backend.now pass.old) Any
        (PollsEvents poll commits (C.coming clock.old) (C.coming clock.new) result)
        (B.represents backend.now pass.new) }
{
    let shard = serving(backend, pass, poll.user);
    catch_up_to(rt, backend, alloc, pass, shard, commits, gate)?;
    Ok(poll_on(rt, backend, alloc, pass, shard, poll, clock, gate))
}

// Brings a shard to so many commits from where it stands.
fn catch_up_to<R: Wait, B: Backend, G: Gate>(
    rt: &R,
    backend: &B,
    alloc: Global,
    pass: &mut B::Pass,
    shard: u32,
    commits: u64,
    gate: &mut G,
) -> Result<u64, NoMemory>
    requires ready { IsReady (B.represents backend.now pass.old) (HasShard shard) }
    ensures { Goes (B.represents backend.now pass.old) (HasShard shard)
        (CatchesUpTo shard commits result) (B.represents backend.now pass.new) }
{
    let have = locate(backend, alloc, pass, shard, gate)?;
    catch_up(rt, backend, alloc, pass, shard, have, commits, gate)
}

// Asks a shard how many notices were pushed to it.
fn locate<B: Backend, G: Gate>(
    backend: &B,
    alloc: Global,
    pass: &mut B::Pass,
    shard: u32,
    gate: &mut G,
) -> Result<u64, NoMemory>
    requires ready { IsReady (B.represents backend.now pass.old) (HasShard shard) }
    ensures { Goes (B.represents backend.now pass.old) (HasShard shard) (Locates shard result)
        (B.represents backend.now pass.new) }
{
    position_in(backend.ask_shard(alloc, pass, shard, ShardInput::Locate, gate))
}

fn position_in(reply: ShardReply) -> Result<u64, NoMemory>
    ensures { IfOk result (λ position. reply ≡ ShardReply.At position) }
{
    match reply {
        ShardReply::At { position } => Ok(position),
        _ => Err(NoMemory),
    }
}
