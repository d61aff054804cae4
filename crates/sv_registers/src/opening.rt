//! Opening and deleting queues.

ghost use Rattle.std.specs.Prelude.{◌≡◌};
ghost use Rattle.sv_calls.specs.Flows.{Goes, IsReady, IsServing};
ghost use Rattle.sv_registers.specs.Openings.{Deletes, Opens, Tells};

use crate::registration::Registered;
use ev_base::{Listed, QueueId, UserId};
use ev_time::Gate;
use ev_types::{Section, Types};
use std::alloc::Global;
use zw_backend::Backend;
use zw_traces::{ShardInput, ShardReply};

/// What a user asks for at a moment: a queue for these types, and these sections of the view.
#[derive(Debug, Drop)]
pub struct Registration {
    pub user: UserId,
    pub types: Types,
    pub asked: Listed<Section>,
    pub moment: u64,
    pub salt: u64,
}

/// A queue, and how many notices its shard had when it was opened.
#[derive(Clone, Copy, Debug, PartialEq, Eq)]
pub struct Opened {
    pub queue: QueueId,
    pub position: u64,
}

/// Opens a queue at the shard that serves the user.
pub fn open_queue<B: Backend, G: Gate>(
    backend: &B,
    alloc: Global,
    pass: &mut B::Pass,
    shard: u32,
    asking: Registration,
    gate: &mut G,
) -> Result<Opened, Registered>
    requires ready { IsReady (B.represents backend.now pass.old) (IsServing asking.user shard) }
    ensures { Goes (B.represents backend.now pass.old) (IsServing asking.user shard)
        (Opens shard asking result) (B.represents backend.now pass.new) }
{
    let input = ShardInput::Start {
        user: asking.user,
        salt: asking.salt,
        moment: asking.moment,
        types: asking.types,
        asked: asking.asked,
    };
    opened_in(backend.ask_shard(alloc, pass, shard, input, gate))
}

// What a reply to an opening tells.
fn opened_in(reply: ShardReply) -> Result<Opened, Registered>
    ensures { Tells reply result }
{
    match reply {
        ShardReply::Opened { queue, position } => Ok(Opened { queue, position }),
        ShardReply::OpensSpent => Err(Registered::OpensSpent),
        ShardReply::TooManyQueues => Err(Registered::TooManyQueues),
        _ => Err(Registered::NoMemory),
    }
}

/// Deletes a queue of the user.
pub fn delete_queue<B: Backend, G: Gate>(
    backend: &B,
    alloc: Global,
    pass: &mut B::Pass,
    shard: u32,
    user: UserId,
    queue: QueueId,
    gate: &mut G,
)
    requires ready { IsReady (B.represents backend.now pass.old) (IsServing user shard) }
    ensures { Goes (B.represents backend.now pass.old) (IsServing user shard)
        (Deletes shard user queue) (B.represents backend.now pass.new) }
{
    backend.ask_shard(alloc, pass, shard, ShardInput::Delete { user, queue }, gate);
}
