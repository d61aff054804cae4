//! A backend that nobody else asks.

ghost use Rattle.std.specs.Prelude.{◌≡◌, ◌<◌, length};
ghost use Rattle.zw_traces.specs.Histories.{History};
ghost use Rattle.zw_backend.specs.Seen.{Seen};
ghost use Rattle.zw_backend.specs.Backends.{AloneRepresents};

use crate::backend::{Backend, Who};
use crate::lookup::user_with;
use ev_time::Gate;
use std::alloc::Global;
use zw_traces::{RealmInput, RealmReply, ShardInput, ShardReply};
use zw_world::World;

/// A backend whose pass is the world itself.
#[derive(Clone, Copy, Debug)]
pub struct Alone;

impl Backend for Alone {
    type Pass = World;

    ghost represents = { λ alone world seen. AloneRepresents world seen };

    fn shards(&self, pass: &World) -> u32 {
        pass.shards()
    }

    fn ask_realm(&self, alloc: Global, pass: &mut World, input: RealmInput) -> RealmReply {
        pass.ask_realm(alloc, input)
    }

    fn ask_shard<G: Gate>(
        &self,
        alloc: Global,
        pass: &mut World,
        shard: u32,
        input: ShardInput,
        gate: &mut G,
    ) -> ShardReply {
        if let ShardInput::Push { .. } = &input {
            gate.inside_push(shard);
        }
        pass.ask_shard(alloc, shard, input)
    }

    fn who(&self, pass: &mut World, email: &str, key: &str) -> Who {
        match user_with(pass.realm().realm(), email, key) {
            Some(user) => Who::User {
                user,
                commits: pass.commits(),
            },
            None => Who::Nobody,
        }
    }

    fn published(&self, pass: &mut World) -> u64 {
        pass.commits()
    }

    fn pause(&self, _pass: &mut World, _shard: u32) {}
}
