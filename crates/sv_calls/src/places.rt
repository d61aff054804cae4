//! Which shard serves a user.

ghost use Rattle.zw_backend.specs.Seen.{Seen};
ghost use Rattle.sv_calls.specs.Flows.{IsServing};

use ev_base::UserId;
use zw_backend::Backend;

/// The index of the shard that serves a user.
pub fn serving<B: Backend>(backend: &B, pass: &B::Pass, user: UserId) -> u32
    ensures { (seen : Seen) → B.represents backend.now pass.now seen → IsServing user result seen }
{
    user.0 % backend.shards(pass)
}
