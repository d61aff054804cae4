//! The player of a script's steps.

ghost use Rattle.std.specs.Prelude.{◌≡◌, [], IfOk, OnErr, OnOk, length};
ghost use Rattle.zs_script.specs.Scripts.{MayPlay, moment_after, shards_after};
ghost use Rattle.zw_traces.specs.Histories.{opening_history};
ghost use Rattle.zm_play.specs.Played.{Follows, Played, Stopped};

use crate::fetched::FetchedParts;
use crate::playing::play_step;
use ev_base::NoMemory;
use std::alloc::Global;
use std::marker::Model;
use zm_text::Outcome;
use zs_script::Step;
use zw_world::World;

/// Plays the steps of a script over a world, at moments that the steps let go on. It keeps the
/// sections that were fetched for queues in registration.
#[derive(Drop)]
pub struct Player {
    world: World,
    moment: u64,
    fetched: FetchedParts,
}

impl Model for Player {
    ghost use Rattle.zm_play.specs.Played.{IsStanding, PlayerState};

    ghost Value = { PlayerState };

    ghost view = { λ player. record {
      world = player.world;
      moment = player.moment;
      fetched = player.fetched;
    } };

    ghost invariant = { λ player. IsStanding player.world player.fetched };
}

impl Player {
    /// A player over a world with one shard and no step, at the beginning of time.
    pub fn new(alloc: Global) -> Result<Player, NoMemory>
        ensures follows { IfOk result (λ player. Follows player [] (opening_history 1)) }
        ensures shards { IfOk result (λ player. length player.world.shards ≡ 1) }
    {
        Ok(Player {
            world: World::new(alloc, 1)?,
            moment: 0,
            fetched: FetchedParts::new(alloc),
        })
    }

    /// How many shards the world has.
    pub fn shards(&self) -> u32
        ensures { result ≡ length self.now.world.shards }
    {
        self.world.shards()
    }

    /// Plays a step and tells what comes of it. After out of memory the world represents a history
    /// that extends the one before.
    pub fn play(&mut self, alloc: Global, step: Step) -> Result<Outcome, NoMemory>
        requires { MayPlay (length self.old.world.shards) step }
        ensures played { IfOk result (λ outcome. Played self.old self.new step outcome) }
        ensures stopped { OnErr result (Stopped self.old self.new) }
        ensures shards { OnOk result
            (length self.new.world.shards ≡ shards_after step (length self.old.world.shards)) }
    {
        let moment = self.moment;
        self.moment = next_moment(&step, moment);
        play_step(&mut self.world, &mut self.fetched, alloc, moment, step)
    }
}

/// The moment after a step.
fn next_moment(step: &Step, moment: u64) -> u64
    ensures { result ≡ moment_after step.now moment }
{
    match step {
        Step::Tick { moment: to } => moment.max(*to),
        _ => moment,
    }
}
