//! The core of a shard.

ghost use Rattle.std.specs.Prelude.{◌≡◌, List, [], ◌∷◌};
ghost use Rattle.zw_traces.specs.declared.shard.ShardStep.{ShardStep};
ghost use Rattle.zw_traces.specs.Account.{is_opening_phase};
ghost use Rattle.zw_traces.specs.KeptAccount.{Represents};
ghost use Rattle.zw_traces.specs.ShardTrace.{ShardAnswers, given_rows};
ghost use Rattle.zw_traces.specs.ShardTrace.{pushed_events, shard_account};
ghost use Rattle.q_shard.specs.HeldQueues.{account_in, seen};
ghost use Rattle.q_shard.specs.ShardInputs.{IsProper};

use crate::shard::Shard;
use ev_base::QueueId;
use std::alloc::Global;
use std::marker::Model;
use zw_traces::{ShardInput, ShardReply};

/// The core of a shard: the number of notices pushed, its queues, and how many queues each user
/// opened. Some trace of right replies made them.
#[derive(Drop)]
pub struct ShardCore {
    shard: Shard,
}

impl Model for ShardCore {
    ghost use Rattle.std.specs.Prelude.{List};
    ghost use Rattle.zw_traces.specs.declared.shard.ShardStep.{ShardStep};
    ghost use Rattle.zw_traces.specs.KeptAccount.{Represents};
    ghost use Rattle.q_shard.specs.HeldQueues.{ShardState, seen};

    ghost Value = { ShardState };

    ghost view = { λ core. core.shard };

    ghost invariant = { λ core. (trace : List ShardStep) × Represents (seen core.shard) trace };
}

impl ShardCore {
    /// A shard to which no notice was pushed, with no queue. Takes no memory.
    pub fn new(alloc: Global) -> ShardCore
        ensures { Represents (seen result) [] }
    {
        ShardCore {
            shard: Shard::new(alloc),
        }
    }

    /// How many notices were pushed.
    pub fn position(&self) -> u64
        ensures { result ≡ self.now.position }
    {
        self.shard.position()
    }

    /// Whether the queue is in registration. Takes no memory, and is no step.
    pub fn is_opening(&self, queue: QueueId) -> bool
        ensures { result ≡ is_opening_phase (account_in self.now.queues queue).phase }
    {
        self.shard.is_opening(queue)
    }

    /// Answers an input, as is right by the shard's own steps before it.
    pub fn step(&mut self, alloc: Global, input: ShardInput) -> ShardReply
        requires { IsProper input }
        ensures known { (trace : List ShardStep) × Represents (seen self.old) trace }
        ensures reply { (trace : List ShardStep) → Represents (seen self.old) trace
            → ShardAnswers (shard_account pushed_events trace) given_rows input result }
        ensures represents { (trace : List ShardStep) → Represents (seen self.old) trace
            → Represents (seen self.new) (record { input = input; reply = result } ∷ trace) }
    {
        self.shard.answer(alloc, input)
    }
}
