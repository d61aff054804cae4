//! One poll.

ghost use Rattle.std.specs.Prelude.{◌≡◌};
ghost use Rattle.zw_traces.specs.declared.shard.ShardInput.{ShardInput};
ghost use Rattle.zw_traces.specs.declared.shard.ShardReply.{ShardReply};
ghost use Rattle.sv_calls.specs.Flows.{Goes, IsReady, IsServing};
ghost use Rattle.sv_polls.specs.Polls.{AsksOnce, Tells, is_due};

use ev_base::{QueueId, UserId};
use ev_time::Gate;
use std::alloc::Global;
use zw_backend::Backend;
use zw_traces::{ShardInput, ShardReply};

/// After so many seconds without an event a heartbeat is due.
const HEARTBEAT_SECONDS: u64 = 45;

/// What a user asks of a queue at a moment: the events above an id. With `dont_block` it doesn't wait
/// for one.
#[derive(Clone, Copy, Debug, PartialEq, Eq)]
pub struct Poll {
    pub user: UserId,
    pub queue: QueueId,
    pub after: i64,
    pub dont_block: bool,
    pub moment: u64,
}

/// Asks the shard that serves the user, at a moment.
pub fn poll_once<B: Backend, G: Gate>(
    backend: &B,
    alloc: Global,
    pass: &mut B::Pass,
    shard: u32,
    poll: Poll,
    moment: u64,
    beat: bool,
    gate: &mut G,
) -> ShardReply
    requires ready { IsReady (B.represents backend.now pass.old) (IsServing poll.user shard) }
    ensures { Goes (B.represents backend.now pass.old) (IsServing poll.user shard)
        (AsksOnce shard poll moment beat result) (B.represents backend.now pass.new) }
{
    let input = ShardInput::Poll {
        user: poll.user,
        queue: poll.queue,
        after: poll.after,
        moment,
        beat,
    };
    backend.ask_shard(alloc, pass, shard, input, gate)
}

/// Whether a poll that began at a moment is due a heartbeat.
pub fn is_due(began: u64, now: u64) -> bool
    ensures { result ≡ is_due began now }
{
    now.saturating_sub(began) >= HEARTBEAT_SECONDS
}

/// The reply, unless there was nothing to tell.
pub fn told(reply: ShardReply) -> Option<ShardReply>
    ensures { Tells reply result }
{
    match reply {
        ShardReply::Empty { .. } => None,
        reply => Some(reply),
    }
}
