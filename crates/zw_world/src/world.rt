//! A realm and its shards.

ghost use Rattle.std.specs.Prelude.{◌≡◌, ◌≤◌, ◌<◌, IfOk, length};
ghost use Rattle.zw_traces.specs.RealmTrace.{RealmAnswers};
ghost use Rattle.zw_traces.specs.Account.{is_opening_phase};
ghost use Rattle.zw_traces.specs.ShardTrace.{ShardAnswers, account_of, given_rows, pushed_events, shard_account};
ghost use Rattle.zw_traces.specs.Histories.{History, opening_history, shard_of, trace_at, with_realm_step, with_shard_step};
ghost use Rattle.q_shard.specs.ShardInputs as of_shard;
ghost use Rattle.zw_realm.specs.CoreStates as of_realm;
ghost use Rattle.zw_world.specs.Worlds.{MayReply, ShardMayReply, WorldRepresents};

use ev_base::{NoMemory, QueueId, UserId};
use q_shard::ShardCore;
use std::alloc::Global;
use std::marker::Model;
use zw_realm::RealmCore;
use zw_traces::{RealmInput, RealmReply, ShardInput, ShardReply};

/// A realm and its shards. A user is served by the shard whose index is the user's number modulo
/// their count.
#[derive(Drop)]
pub struct World {
    realm: RealmCore,
    shards: Vec<ShardCore>,
}

impl Model for World {
    ghost use Rattle.std.specs.Prelude.{◌<◌, ◌≤◌, length};
    ghost use Rattle.zw_world.specs.Worlds.{IsSound, WorldState};

    ghost Value = { WorldState };

    ghost view = { λ world. record { realm = world.realm; shards = world.shards.items } };

    ghost invariant = { λ world. (1 ≤ length world.shards.items) × (length world.shards.items ≤ 16)
        × IsSound (record { realm = world.realm; shards = world.shards.items }) };
}

impl World {
    /// A world with an opening realm and so many shards, 1 to 16.
    pub fn new(alloc: Global, shards: u32) -> Result<World, NoMemory>
        requires some { 1 ≤ shards }
        requires few { shards ≤ 16 }
        ensures { IfOk result (λ world. WorldRepresents world (opening_history shards)) }
    {
        let mut cores = Vec::new(alloc);
        for _shard in 0..shards {
            cores.push(ShardCore::new(alloc))?;
        }
        Ok(World {
            realm: RealmCore::new(alloc)?,
            shards: cores,
        })
    }

    /// The number of shards.
    pub fn shards(&self) -> u32
        ensures count { result ≡ length self.now.shards }
        ensures some { 1 ≤ result }
        ensures few { result ≤ 16 }
    {
        self.shards.len() as u32
    }

    /// How many commits the realm announced.
    pub fn announced(&self) -> u64
        ensures { result ≡ self.now.realm.announced }
    {
        self.realm.announced()
    }

    /// How many commits the realm has.
    pub fn commits(&self) -> u64
        ensures { result ≡ length self.now.realm.notices }
    {
        self.realm.commits()
    }

    /// The realm.
    pub fn realm(&self) -> &RealmCore
        ensures { result.now ≡ self.now.realm }
    {
        &self.realm
    }

    /// The realm, and the shards by their indices.
    pub fn into_cores(self) -> (RealmCore, Vec<ShardCore>)
        ensures realm { result.0 ≡ self.realm }
        ensures shards { result.1.items ≡ self.shards }
    {
        (self.realm, self.shards)
    }

    /// The index of the shard that serves a user.
    pub fn serving(&self, user: UserId) -> u32
        ensures index { result ≡ shard_of (length self.now.shards) user }
        ensures below { result < length self.now.shards }
    {
        user.0 % self.shards()
    }

    /// Whether the queue is in registration. Takes no memory, and is no step.
    pub fn is_opening(&self, queue: QueueId) -> bool
        ensures { (history : History) → WorldRepresents self.now history
            → result ≡ is_opening_phase (account_of pushed_events queue
            (trace_at (shard_of (length self.now.shards) queue.user) history.shards)).phase }
    {
        let shard = self.serving(queue.user);
        self.shards[shard as usize].is_opening(queue)
    }

    /// Asks the realm, whose answer is right after its steps before.
    pub fn ask_realm(&mut self, alloc: Global, input: RealmInput) -> RealmReply
        requires { of_realm.IsProper input }
        ensures shards { length self.new.shards ≡ length self.old.shards }
        ensures kind { MayReply input result }
        ensures reply { (history : History) → WorldRepresents self.old history → RealmAnswers history.realm input result }
        ensures represents { (history : History) → WorldRepresents self.old history
            → WorldRepresents self.new (with_realm_step input result history) }
    {
        self.realm.step(alloc, input)
    }

    /// Asks a shard, whose answer is right by its own steps before.
    pub fn ask_shard(&mut self, alloc: Global, shard: u32, input: ShardInput) -> ShardReply
        requires index { shard < length self.old.shards }
        requires proper { of_shard.IsProper input }
        ensures shards { length self.new.shards ≡ length self.old.shards }
        ensures kind { ShardMayReply input result }
        ensures reply { (history : History) → WorldRepresents self.old history
            → ShardAnswers (shard_account pushed_events (trace_at shard history.shards))
            given_rows input result }
        ensures represents { (history : History) → WorldRepresents self.old history
            → WorldRepresents self.new (with_shard_step shard input result history) }
    {
        self.shards[shard as usize].step(alloc, input)
    }
}
