//! The queues of a shard, in the order of their opening.

ghost use Rattle.std.specs.Prelude.{List, ◌≡◌, ◌≤◌, ◌&&◌, ◌||◌, ◌++◌, [], ◌∷◌};
ghost use Rattle.std.specs.Prelude.{IfOk, None, Some, count_by, filter, map, not, true};
ghost use Rattle.indexmap.specs.IndexMap.{spare};
ghost use Rattle.std.specs.List.{filter_map, list_any};
ghost use Rattle.ev_base.specs.declared.ids.UserId.{UserId};
ghost use Rattle.std.specs.Map.{lookup};
ghost use Rattle.zw_traces.specs.Account.{Account, is_due, is_held};
ghost use Rattle.zw_traces.specs.Account.{is_over, same_queue, same_user};
ghost use Rattle.zw_traces.specs.ShardTrace.{QueueDeletes, QueueFinishes, QueuePolls, given_rows};
ghost use Rattle.q_queue.specs.Polled.{polled};
ghost use Rattle.ev_types.specs.declared.notice.Notice.{Notice};
ghost use Rattle.q_shard.specs.HeldQueues.{AreEnded, IsChangedBy, account_in, accounts_of, accounts_without};
ghost use Rattle.q_shard.specs.HeldQueues.{expiries_in, finished_account, settled_entry};
ghost use Rattle.q_shard.specs.HeldQueues.{staged_entry, stays_of};

use crate::held::Held;
use crate::told::tell;
use ev_base::{Expired, Listed, NoMemory, QueueId, UserId};
use ev_types::Notice;
use indexmap::{IndexMap, IndexSet};
use q_queue::Pushed;
use std::alloc::Global;
use zw_traces::{FetchedSection, ShardReply};

/// The queues by their ids.
pub type Queues = IndexMap<QueueId, Held>;

/// How many of the queues are a user's.
pub fn held_by(queues: &[QueueId], user: UserId) -> usize
    ensures { result ≡ count_by (λ queue. same_user user queue.user) queues.now }
{
    queues.iter().filter(|queue| user == queue.user).count()
}

/// Makes ready, in each queue, what the notices tell its user.
pub fn stage_all(queues: &mut Queues, alloc: Global, notices: &[Notice]) -> Result<(), NoMemory>
    ensures ok { IfOk result (λ _. queues.new.entries
        ≡ map (staged_entry notices.now) queues.old.entries) }
    ensures accounts { accounts_of queues.new.entries ≡ accounts_of queues.old.entries }
{
    let told = tell(alloc, queues.keys().as_slice(), notices)?;
    for at in 0..queues.len() {
        let (queue, held) = queues.pair_mut(at);
        held.stage(alloc, queue.user, &told)?;
    }
    Ok(())
}

/// Drops what is staged in each queue.
pub fn unstage_all(queues: &mut Queues)
    ensures { accounts_of queues.new.entries ≡ accounts_of queues.old.entries }
{
    for at in 0..queues.len() {
        let (_, held) = queues.pair_mut(at);
        held.unstage();
    }
}

/// Pushes what is staged to each queue. Those that overran are gone, and those whose user is among
/// the ended ones.
pub fn settle_all(queues: &mut Queues, ended: &IndexSet<UserId>)
    ensures { (notices : List Notice) → AreEnded ended.now.keys notices
        → accounts_of queues.new.entries
        ≡ filter_map (settled_entry notices) queues.old.entries }
{
    queues.retain(
        |queue: &QueueId, held: &mut Held| -> bool
            ensures lives { result
                ≡ not (list_any (same_user queue.now.user) ended.entry.now.keys
                || is_over held.old.staged) }
            ensures account { result ≡ true → held.new.account ≡ held.old.staged }
        { !ended.contains(&queue.user) && matches!(held.settle(), Pushed::Kept) },
    );
}

/// The users of whom the notices tell that they were deactivated.
pub fn ended_users(alloc: Global, notices: &[Notice]) -> Result<IndexSet<UserId>, NoMemory>
    ensures { IfOk result (λ users. AreEnded users.keys notices.now) }
{
    let mut users = IndexSet::new(alloc);
    for notice in notices {
        if let Some(user) = notice.ends {
            users.insert(user)?;
        }
    }
    Ok(users)
}

/// What is told of the queues that a tick at this moment collects, in the order of their opening.
pub fn expiries(queues: &Queues, alloc: Global, moment: u64) -> Result<Vec<Expired>, NoMemory>
    ensures { IfOk result (λ list. list.items
        ≡ expiries_in (accounts_of queues.now.entries) moment (accounts_of queues.now.entries)) }
{
    let staying = staying_users(queues, alloc, moment)?;
    let mut list = Vec::new(alloc);
    for entry in queues.iter() {
        let (queue, held) = entry;
        if held.is_due(moment) {
            list.push(Expired {
                queue: *queue,
                moment,
                last_of_user: !staying.contains(&queue.user),
            })?;
        }
    }
    Ok(list)
}

// The users of whom a queue stays at a tick at this moment.
fn staying_users(queues: &Queues, alloc: Global, moment: u64) -> Result<IndexSet<UserId>, NoMemory>
    ensures { IfOk result (λ users. (user : UserId) → list_any (same_user user) users.keys
        ≡ stays_of user moment (accounts_of queues.now.entries)) }
{
    let mut users = IndexSet::new(alloc);
    for entry in queues.iter() {
        let (queue, held) = entry;
        if !held.is_due(moment) {
            users.insert(queue.user)?;
        }
    }
    Ok(users)
}

/// Drops the queues that a tick at this moment collects.
pub fn collect(queues: &mut Queues, moment: u64)
    ensures { accounts_of queues.new.entries
        ≡ filter (λ entry. not (is_due moment entry.1)) (accounts_of queues.old.entries) }
{
    queues.retain(
        |_queue: &QueueId, held: &mut Held| -> bool
            ensures { (result ≡ not (is_due moment held.old.account)) × (held.new ≡ held.old) }
        { !held.is_due(moment) },
    );
}

/// Answers a poll of a queue.
pub fn poll(
    queues: &mut Queues,
    alloc: Global,
    user: UserId,
    queue: QueueId,
    after: i64,
    moment: u64,
    beat: bool,
    position: u64,
) -> ShardReply
    ensures reply { QueuePolls queue.user (account_in (accounts_of queues.old.entries) queue)
        position user after beat result }
    ensures accounts { IsChangedBy queue (polled after moment beat result) result
        (accounts_of queues.old.entries) (accounts_of queues.new.entries) }
{
    let Some(held) = queues.get_mut(&queue) else {
        return ShardReply::BadQueue;
    };
    held.poll(alloc, queue.user, user, after, moment, beat, position)
}

/// Ends the registration of a queue.
pub fn finish(
    queues: &mut Queues,
    alloc: Global,
    queue: QueueId,
    parts: Listed<FetchedSection>,
    position: u64,
) -> ShardReply
    ensures reply { QueueFinishes queue.user (account_in (accounts_of queues.old.entries) queue)
        position given_rows parts result }
    ensures accounts { IsChangedBy queue (finished_account result) result
        (accounts_of queues.old.entries) (accounts_of queues.new.entries) }
{
    let Some(held) = queues.get_mut(&queue) else {
        return ShardReply::BadQueue;
    };
    held.finish(alloc, queue.user, parts, position)
}

/// Drops a queue of the user.
pub fn delete(queues: &mut Queues, user: UserId, queue: QueueId) -> ShardReply
    requires { (a : Account) → lookup (same_queue queue) (accounts_of queues.old.entries) ≡ Some a
        → is_held a ≡ true }
    ensures reply { QueueDeletes queue.user (account_in (accounts_of queues.old.entries) queue)
        0 user result }
    ensures accounts { accounts_of queues.new.entries
        ≡ accounts_without queue result (accounts_of queues.old.entries) }
{
    if queue.user != user {
        return ShardReply::BadQueue;
    }
    let Some(_) = queues.shift_remove(&queue) else {
        return ShardReply::BadQueue;
    };
    ShardReply::Deleted
}

/// Adds a queue behind the others.
pub fn add(queues: &mut Queues, queue: QueueId, held: Held)
    requires room { 1 ≤ spare queues.old }
    requires absent { lookup (same_queue queue) queues.old.entries ≡ None }
    ensures { accounts_of queues.new.entries
        ≡ accounts_of queues.old.entries ++ (queue, held.account) ∷ [] }
{
    queues.insert(queue, held).unwrap();
}
