//! Beginning over another number of shards.

ghost use Rattle.std.specs.Prelude.{◌≡◌, ◌≤◌, ℕ, OnOk, length};
ghost use Rattle.zs_script.specs.declared.step.Step.{Step};
ghost use Rattle.zm_play.specs.Played.{StepsOn};

use crate::fetched::FetchedParts;
use ev_base::NoMemory;
use std::alloc::Global;
use zm_text::Outcome;
use zw_world::World;

/// Makes a new world of so many shards, for which nothing is fetched. On out of memory the old one
/// stays.
pub fn begin_over(
    world: &mut World,
    fetched: &mut FetchedParts,
    alloc: Global,
    count: u32,
) -> Result<Outcome, NoMemory>
    requires some { 1 ≤ count }
    requires few { count ≤ 16 }
    ensures steps { (moment : ℕ) → StepsOn moment (Step.Shards count)
        world.old fetched.old world.new fetched.new result }
    ensures shards { OnOk result (length world.new.shards ≡ count) }
{
    *world = World::new(alloc, count)?;
    *fetched = FetchedParts::new(alloc);
    Ok(Outcome::Sharded { count })
}
