//! Whole registrations.

ghost use Rattle.std.specs.Prelude.{◌≡◌, [], IfOk};
ghost use Rattle.zw_backend.specs.Backends.{IsKnown};
ghost use Rattle.sv_calls.specs.Flows.{Any, Goes, IsReady};
ghost use Rattle.sv_registers.specs.Registrations.{FillsOrDeletes, InRegistration, Registers, is_given_up};

use crate::filling::fill;
use crate::opening::{Opened, Registration, delete_queue, open_queue};
use ev_base::{QueueId, UserId};
use ev_time::Gate;
use ev_types::{Section, State};
use std::alloc::{AllocError, Global};
use std::sync::Wait;
use sv_calls::serving;
use zw_backend::Backend;

/// How a registration ended.
#[derive(Debug, Drop)]
pub enum Registered {
    Finished {
        queue: QueueId,
        last_event_id: i64,
        state: State,
    },
    /// The queue was ended meanwhile.
    BadQueue {
        queue: QueueId,
    },
    FetchRefused,
    TooManyQueues,
    OpensSpent,
    NoMemory,
}

impl Registered {
    /// Whether the queue that was opened is to be deleted.
    pub fn is_given_up(&self) -> bool
        ensures { result ≡ is_given_up self.now }
    {
        match self {
            Registered::FetchRefused | Registered::NoMemory => true,
            Registered::Finished { .. }
            | Registered::BadQueue { .. }
            | Registered::TooManyQueues
            | Registered::OpensSpent => false,
        }
    }
}

/// Registers a user who has seen so many commits.
pub fn register<R: Wait, B: Backend, G: Gate>(
    rt: &R,
    backend: &B,
    alloc: Global,
    pass: &mut B::Pass,
    asking: Registration,
    commits: u64,
    gate: &mut G,
) -> Registered
    requires ready { IsKnown (B.represents backend.now pass.old) }
    ensures { Goes (B.represents backend.now pass.old) Any (Registers asking commits result)
        (B.represents backend.now pass.new) }
{
    let Ok(asked) = copied(alloc, asking.asked.as_slice()) else {
        return Registered::NoMemory;
    };
    let user = asking.user;
    let shard = serving(backend, pass, user);
    match open_queue(backend, alloc, pass, shard, asking, gate) {
        Ok(opened) => {
            fill_or_delete(
                rt, backend, alloc, pass, shard, user, opened, &asked, commits, gate,
            )
        }
        Err(refused) => refused,
    }
}

fn copied(alloc: Global, sections: &[Section]) -> Result<Vec<Section>, AllocError>
    ensures { IfOk result (λ copy. copy.items ≡ sections.now) }
{
    sections.to_vec(alloc)
}

// Fills a queue that was opened, and deletes it where that is given up.
fn fill_or_delete<R: Wait, B: Backend, G: Gate>(
    rt: &R,
    backend: &B,
    alloc: Global,
    pass: &mut B::Pass,
    shard: u32,
    user: UserId,
    opened: Opened,
    asked: &[Section],
    commits: u64,
    gate: &mut G,
) -> Registered
    requires ready { IsReady (B.represents backend.now pass.old)
        (InRegistration shard user opened.queue []) }
    ensures { Goes (B.represents backend.now pass.old) (InRegistration shard user opened.queue [])
        (FillsOrDeletes shard user opened asked.now commits result)
        (B.represents backend.now pass.new) }
{
    let filled = fill(
        rt, backend, alloc, pass, shard, user, opened, asked, commits, gate,
    );
    if filled.is_given_up() {
        delete_queue(backend, alloc, pass, shard, user, opened.queue, gate);
    }
    filled
}
