//! What the realm and the shards may be asked, what they may answer, and which answers are right:
//! traces of the steps of a realm and of a shard, and legal histories.
#![tactic(auto)]

mod realm;
mod shard;

pub use realm::{RealmInput, RealmReply, RealmStep};
pub use shard::{FetchedSection, ShardInput, ShardReply, ShardStep};
