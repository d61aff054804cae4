//! The calls by which a realm and its shards are asked.

ghost use Rattle.std.specs.Prelude.{◌≡◌, ◌≤◌, ◌<◌, length};
ghost use Rattle.zw_traces.specs.RealmTrace.{commits};
ghost use Rattle.q_shard.specs.ShardInputs as to_shard;
ghost use Rattle.zw_realm.specs.CoreStates as to_realm;
ghost use Rattle.zw_backend.specs.Seen.{Call, Seen, of_realm, of_shard};
ghost use Rattle.zw_backend.specs.Backends.{After, IsKnown, IsWho, Learns, MayAsk, Meet, Parted, StaysSeen};

use ev_base::UserId;
use ev_time::Gate;
use std::alloc::Global;
use zw_traces::{RealmInput, RealmReply, ShardInput, ShardReply};

/// Who has an e-mail address and a key.
#[derive(Clone, Copy, Debug, PartialEq, Eq)]
pub enum Who {
    /// The user, and how many commits the realm had then.
    User { user: UserId, commits: u64 },
    /// No active user.
    Nobody,
}

/// A realm and its shards, which are asked through a pass. A pass has seen a beginning of one
/// history, in which its own steps are marked. A user is served by the shard whose index is the
/// user's number modulo their count.
///
/// The calls may wait for others, who make steps meanwhile.
pub trait Backend {
    type Pass: Drop;

    // What a pass may have seen.
    ghost represents: { Self → Self.Pass → Seen → Type 0 };

    /// The number of shards.
    fn shards(&self, pass: &Self::Pass) -> u32
        ensures count { (seen : Seen) → represents self.now pass.now seen
            → result ≡ length seen.shards }
        ensures some { 1 ≤ result }
        ensures few { result ≤ 16 };

    /// Asks the realm.
    fn ask_realm(&self, alloc: Global, pass: &mut Self::Pass, input: RealmInput) -> RealmReply
        requires known { IsKnown (represents self.now pass.old) }
        requires proper { to_realm.IsProper input }
        ensures { After (represents self.now pass.old)
            (of_realm (record { input = input; reply = result })) (represents self.now pass.new) };

    /// Asks the shard with this index. The gate is told once inside each push.
    fn ask_shard<G: Gate>(
        &self,
        alloc: Global,
        pass: &mut Self::Pass,
        shard: u32,
        input: ShardInput,
        gate: &mut G,
    ) -> ShardReply
        requires may { MayAsk (represents self.now pass.old) shard input }
        requires proper { to_shard.IsProper input }
        ensures { After (represents self.now pass.old)
            (of_shard shard (record { input = input; reply = result }))
            (represents self.now pass.new) };

    /// Tells which active user has this e-mail address and this key. It is no step, and takes no
    /// memory.
    fn who(&self, pass: &mut Self::Pass, email: &str, key: &str) -> Who
        requires { IsKnown (represents self.now pass.old) }
        ensures { Learns (represents self.now pass.old) (IsWho email.now key.now result)
            (represents self.now pass.new) };

    /// A number of commits that the realm has reached. It is no step.
    fn published(&self, pass: &mut Self::Pass) -> u64
        requires { IsKnown (represents self.now pass.old) }
        ensures { Learns (represents self.now pass.old) (λ trace. result ≡ commits trace)
            (represents self.now pass.new) };

    /// Lets others go on. It is no step.
    fn pause(&self, pass: &mut Self::Pass, shard: u32)
        requires { IsKnown (represents self.now pass.old) }
        ensures { StaysSeen (represents self.now pass.old) (represents self.now pass.new) };
}

/// A backend whose passes can be given to other threads.
pub trait Shared: Backend {
    /// A pass that has seen the same, and has made no step.
    fn split(&self, pass: &mut Self::Pass) -> Self::Pass
        requires { IsKnown (Self.represents self.now pass.old) }
        ensures same { StaysSeen (Self.represents self.now pass.old)
            (Self.represents self.now pass.new) }
        ensures parted { Parted (Self.represents self.now pass.old)
            (Self.represents self.now result) };

    /// Takes in another pass, with what it has seen and the steps that it made.
    fn join(&self, into: &mut Self::Pass, other: Self::Pass)
        requires into { IsKnown (Self.represents self.now into.old) }
        requires other { IsKnown (Self.represents self.now other) }
        ensures { Meet (Self.represents self.now into.old) (Self.represents self.now other)
            (Self.represents self.now into.new) };
}
