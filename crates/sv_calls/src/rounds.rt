//! Rounds of notices.

ghost use Rattle.std.specs.Prelude.{◌≡◌, ◌≤◌, ℕ, ⊤, IfOk};
ghost use Rattle.zw_traces.specs.declared.realm.RealmReply.{RealmReply};
ghost use Rattle.zw_traces.specs.declared.shard.ShardReply.{ShardReply};
ghost use Rattle.sv_calls.specs.Flows.{Goes, HasShard, IsReady};
ghost use Rattle.sv_calls.specs.Pushing.{MayPush, PushesNext, PushesTaken, TakesNext};

use ev_base::{Listed, NoMemory};
use ev_time::Gate;
use ev_types::Notice;
use std::alloc::Global;
use zw_backend::Backend;
use zw_traces::{RealmInput, RealmReply, ShardInput, ShardReply};

/// Announces all commits, and brings a shard notices from this one on: as many as are taken at once.
/// Answers how many the shard has then.
pub fn push_next<B: Backend, G: Gate>(
    backend: &B,
    alloc: Global,
    pass: &mut B::Pass,
    shard: u32,
    first: u64,
    gate: &mut G,
) -> Result<u64, NoMemory>
    requires first { 1 ≤ first }
    requires ready { IsReady (B.represents backend.now pass.old) (HasShard shard) }
    ensures { Goes (B.represents backend.now pass.old) (HasShard shard)
        (PushesNext shard first result) (B.represents backend.now pass.new) }
{
    let notices = take_next(backend, alloc, pass, first)?;
    push_taken(backend, alloc, pass, shard, first, notices, gate)
}

// Announces all commits, and takes notices from this one on.
fn take_next<B: Backend>(
    backend: &B,
    alloc: Global,
    pass: &mut B::Pass,
    first: u64,
) -> Result<Listed<Notice>, NoMemory>
    requires first { 1 ≤ first }
    requires ready { IsReady (B.represents backend.now pass.old) (λ seen. ⊤) }
    ensures { Goes (B.represents backend.now pass.old) (λ seen. ⊤) (TakesNext first result)
        (B.represents backend.now pass.new) }
{
    backend.ask_realm(alloc, pass, RealmInput::NoticeAll);
    notices_in(backend.ask_realm(alloc, pass, RealmInput::Take { first }))
}

// Pushes notices that were taken.
fn push_taken<B: Backend, G: Gate>(
    backend: &B,
    alloc: Global,
    pass: &mut B::Pass,
    shard: u32,
    first: u64,
    notices: Listed<Notice>,
    gate: &mut G,
) -> Result<u64, NoMemory>
    requires ready { IsReady (B.represents backend.now pass.old) (MayPush shard first notices) }
    ensures { Goes (B.represents backend.now pass.old) (MayPush shard first notices)
        (PushesTaken shard first notices result) (B.represents backend.now pass.new) }
{
    let input = ShardInput::Push { first, notices };
    position_in(backend.ask_shard(alloc, pass, shard, input, gate))
}

// The notices that were taken: there are none where there is no memory.
fn notices_in(reply: RealmReply) -> Result<Listed<Notice>, NoMemory>
    ensures { IfOk result (λ list. (from : ℕ) × (reply ≡ RealmReply.Notices from list)) }
{
    match reply {
        RealmReply::Notices { list, .. } => Ok(list),
        _ => Err(NoMemory),
    }
}

// The position that was pushed to, likewise.
fn position_in(reply: ShardReply) -> Result<u64, NoMemory>
    ensures { IfOk result (λ position. reply ≡ ShardReply.Pushed position) }
{
    match reply {
        ShardReply::Pushed { position } => Ok(position),
        _ => Err(NoMemory),
    }
}
