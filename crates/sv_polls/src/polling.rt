//! Polls that wait.

ghost use Rattle.sv_calls.specs.Flows.{Goes, IsReady, IsServing};
ghost use Rattle.sv_polls.specs.Polls.{PollsOn};

use crate::poll::{Poll, is_due, poll_once, told};
use ev_time::{Clock, Gate};
use std::alloc::Global;
use std::sync::Wait;
use zw_backend::Backend;
use zw_traces::ShardReply;

/// Asks until there is something to tell, unless the poll doesn't wait.
pub fn poll_on<R: Wait, B: Backend, C: Clock, G: Gate>(
    rt: &R,
    backend: &B,
    alloc: Global,
    pass: &mut B::Pass,
    shard: u32,
    poll: Poll,
    clock: &mut C,
    gate: &mut G,
) -> ShardReply
    requires ready { IsReady (B.represents backend.now pass.old) (IsServing poll.user shard) }
    ensures { Goes (B.represents backend.now pass.old) (IsServing poll.user shard)
        (PollsOn shard poll (C.coming clock.old) (C.coming clock.new) result)
        (B.represents backend.now pass.new) }
{
    let first = poll_once(backend, alloc, pass, shard, poll, poll.moment, false, gate);
    if poll.dont_block {
        return first;
    }
    if let Some(reply) = told(first) {
        return reply;
    }
    for _ in rt.forever() {
        backend.pause(pass, shard);
        let moment = clock.now();
        let beat = is_due(poll.moment, moment);
        let next = poll_once(backend, alloc, pass, shard, poll, moment, beat, gate);
        if let Some(reply) = told(next) {
            return reply;
        }
    }
    unreachable!()
}
