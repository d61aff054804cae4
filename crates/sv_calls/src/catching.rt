//! Catching up.

ghost use Rattle.sv_calls.specs.Flows.{Goes, HasShard, IsReady};
ghost use Rattle.sv_calls.specs.Pushing.{CatchesUp};

use crate::rounds::push_next;
use ev_base::NoMemory;
use ev_time::Gate;
use std::alloc::Global;
use std::sync::Wait;
use zw_backend::Backend;

/// Brings a shard that has so many notices more, until it has as many as needed. Answers how many it
/// has then.
pub fn catch_up<R: Wait, B: Backend, G: Gate>(
    rt: &R,
    backend: &B,
    alloc: Global,
    pass: &mut B::Pass,
    shard: u32,
    have: u64,
    need: u64,
    gate: &mut G,
) -> Result<u64, NoMemory>
    requires ready { IsReady (B.represents backend.now pass.old) (HasShard shard) }
    ensures { Goes (B.represents backend.now pass.old) (HasShard shard)
        (CatchesUp shard have need result) (B.represents backend.now pass.new) }
{
    let mut reached = have;
    for _ in rt.forever() {
        if need <= reached {
            return Ok(reached);
        }
        reached = push_next(backend, alloc, pass, shard, reached + 1, gate)?;
    }
    unreachable!()
}
