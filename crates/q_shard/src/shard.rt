//! What a shard holds, and what it answers by that.

ghost use Rattle.std.specs.Prelude.{◌≡◌, ◌≤◌, ◌+◌, ◌-◌, ◌<◌, ◌^◌, []};
ghost use Rattle.std.specs.Prelude.{OnOk, if◌then◌else◌, length, max};
ghost use Rattle.indexmap.specs.IndexMap.{spare};
ghost use Rattle.ev_base.specs.declared.ids.UserId.{UserId};
ghost use Rattle.zw_traces.specs.Account as of_account;
ghost use Rattle.zw_traces.specs.Account.{is_opening_phase, same_user};
ghost use Rattle.zw_traces.specs.KeptAccount.{kept_shard, shard_after};
ghost use Rattle.zw_traces.specs.ShardTrace.{ShardAnswers, given_rows, pushed_events};
ghost use Rattle.q_shard.specs.HeldQueues.{account_in, opens_in, seen};
ghost use Rattle.q_shard.specs.ShardInputs.{AreNumbered, IsProper};

use crate::held::Held;
use crate::queues::{
    self, Queues, collect, ended_users, expiries, held_by, settle_all, stage_all, unstage_all,
};
use ev_base::{Listed, NoMemory, QueueId, UserId};
use ev_types::{Notice, Section, Types};
use indexmap::IndexMap;
use std::alloc::Global;
use std::marker::Model;
use zw_traces::{FetchedSection, ShardInput, ShardReply};

// A user may hold no more queues that are opening or live.
const MAX_QUEUES_OF_USER: usize = 32;

/// What a shard holds: the number of notices pushed, its queues, and how many queues each user
/// opened.
#[derive(Drop)]
pub struct Shard {
    position: u64,
    opens: IndexMap<UserId, u32>,
    queues: Queues,
}

impl Model for Shard {
    ghost use Rattle.q_shard.specs.HeldQueues.{AreHeld, ShardState, accounts_of, opens_in};

    ghost Value = { ShardState };

    ghost view = { λ it. record {
      position = it.position;
      opens = it.opens.entries;
      queues = accounts_of it.queues.entries;
    } };

    ghost invariant = { λ it. AreHeld (opens_in it.opens.entries) (accounts_of it.queues.entries) };
}

impl Shard {
    pub fn new(alloc: Global) -> Shard
        ensures { result ≡ record { position = 0; opens = []; queues = [] } }
    {
        Shard {
            position: 0,
            opens: IndexMap::new(alloc),
            queues: IndexMap::new(alloc),
        }
    }

    pub fn position(&self) -> u64
        ensures { result ≡ self.now.position }
    {
        self.position
    }

    pub fn is_opening(&self, queue: QueueId) -> bool
        ensures { result ≡ is_opening_phase (account_in self.now.queues queue).phase }
    {
        let Some(held) = self.queues.get(&queue) else {
            return false;
        };
        held.is_opening()
    }

    /// Answers an input, as is right by what the shard holds.
    pub fn answer(&mut self, alloc: Global, input: ShardInput) -> ShardReply
        requires { IsProper input }
        ensures reply { ShardAnswers (seen self.old) given_rows input result }
        ensures shard { seen self.new
            ≡ kept_shard (shard_after pushed_events input result (seen self.old)) }
    {
        match input {
            ShardInput::Start {
                user,
                salt,
                moment,
                types,
                asked,
            } => self.start(alloc, user, salt, moment, types, asked),
            ShardInput::Push { first, notices } => self.push(alloc, first, notices),
            ShardInput::Finish { queue, parts } => self.finish(alloc, queue, parts),
            ShardInput::Poll {
                user,
                queue,
                after,
                moment,
                beat,
            } => self.poll(alloc, user, queue, after, moment, beat),
            ShardInput::Delete { user, queue } => self.delete(user, queue),
            ShardInput::Tick { moment } => self.tick(alloc, moment),
            ShardInput::Locate => self.locate(),
        }
    }

    fn start(
        &mut self,
        alloc: Global,
        user: UserId,
        salt: u64,
        moment: u64,
        types: Types,
        asked: Listed<Section>,
    ) -> ShardReply
        ensures reply { ShardAnswers (seen self.old) given_rows
            (ShardInput.Start user salt moment types asked) result }
        ensures shard { seen self.new ≡ kept_shard (shard_after pushed_events
            (ShardInput.Start user salt moment types asked) result (seen self.old)) }
    {
        let number = opens_of(&self.opens, user);
        if number == u32::MAX {
            return ShardReply::OpensSpent;
        }
        if held_by(self.queues.keys().as_slice(), user) >= MAX_QUEUES_OF_USER {
            return ShardReply::TooManyQueues;
        }
        let Ok(()) = reserve(&mut self.opens, &mut self.queues) else {
            return ShardReply::NoMemory;
        };
        let queue = QueueId { user, number, salt };
        let position = self.position;
        set_opens(&mut self.opens, user, number + 1);
        queues::add(
            &mut self.queues,
            queue,
            Held::start(alloc, types, asked, position, moment),
        );
        ShardReply::Opened { queue, position }
    }

    fn push(&mut self, alloc: Global, first: u64, notices: Listed<Notice>) -> ShardReply
        requires { AreNumbered first notices }
        ensures reply { ShardAnswers (seen self.old) given_rows
            (ShardInput.Push first notices) result }
        ensures shard { seen self.new ≡ kept_shard (shard_after pushed_events
            (ShardInput.Push first notices) result (seen self.old)) }
    {
        if first > self.position && first - self.position > 1 {
            return ShardReply::Gap {
                have: self.position,
                first,
            };
        }
        let (new, reached) = new_notices(self.position, first, notices.as_slice());
        let Ok(ended) = ended_users(alloc, new) else {
            return ShardReply::NoMemory;
        };
        let Ok(()) = stage_all(&mut self.queues, alloc, new) else {
            unstage_all(&mut self.queues);
            return ShardReply::NoMemory;
        };
        settle_all(&mut self.queues, &ended);
        self.position = reached;
        ShardReply::Pushed { position: reached }
    }

    fn finish(&mut self, alloc: Global, queue: QueueId, parts: Listed<FetchedSection>) -> ShardReply
        ensures reply { ShardAnswers (seen self.old) given_rows
            (ShardInput.Finish queue parts) result }
        ensures shard { seen self.new ≡ kept_shard (shard_after pushed_events
            (ShardInput.Finish queue parts) result (seen self.old)) }
    {
        let position = self.position;
        queues::finish(&mut self.queues, alloc, queue, parts, position)
    }

    fn poll(
        &mut self,
        alloc: Global,
        user: UserId,
        queue: QueueId,
        after: i64,
        moment: u64,
        beat: bool,
    ) -> ShardReply
        ensures reply { ShardAnswers (seen self.old) given_rows
            (ShardInput.Poll user queue after moment beat) result }
        ensures shard { seen self.new ≡ kept_shard (shard_after pushed_events
            (ShardInput.Poll user queue after moment beat) result (seen self.old)) }
    {
        let position = self.position;
        queues::poll(
            &mut self.queues,
            alloc,
            user,
            queue,
            after,
            moment,
            beat,
            position,
        )
    }

    fn delete(&mut self, user: UserId, queue: QueueId) -> ShardReply
        ensures reply { ShardAnswers (seen self.old) given_rows
            (ShardInput.Delete user queue) result }
        ensures shard { seen self.new ≡ kept_shard (shard_after pushed_events
            (ShardInput.Delete user queue) result (seen self.old)) }
    {
        queues::delete(&mut self.queues, user, queue)
    }

    fn tick(&mut self, alloc: Global, moment: u64) -> ShardReply
        ensures reply { ShardAnswers (seen self.old) given_rows
            (ShardInput.Tick moment) result }
        ensures shard { seen self.new ≡ kept_shard (shard_after pushed_events
            (ShardInput.Tick moment) result (seen self.old)) }
    {
        let Ok(expired) = expiries(&self.queues, alloc, moment) else {
            return ShardReply::NoMemory;
        };
        collect(&mut self.queues, moment);
        ShardReply::Ticked {
            expired: Listed::from_vec(expired),
        }
    }

    fn locate(&mut self) -> ShardReply
        ensures reply { ShardAnswers (seen self.old) given_rows ShardInput.Locate result }
        ensures shard { seen self.new
            ≡ kept_shard (shard_after pushed_events ShardInput.Locate result (seen self.old)) }
    {
        ShardReply::At {
            position: self.position,
        }
    }
}

// How many queues a user opened.
fn opens_of(opens: &IndexMap<UserId, u32>, user: UserId) -> u32
    ensures value { result ≡ opens_in opens.now.entries user }
    ensures fits { result < 2 ^ 32 }
{
    match opens.get(&user) {
        Some(count) => *count,
        None => 0,
    }
}

// The notices that were not pushed yet, and the position after them.
fn new_notices(position: u64, first: u64, notices: &[Notice]) -> (&[Notice], u64)
    requires numbered { AreNumbered first notices.now }
    requires due { first ≤ position + 1 }
    ensures notices { result.0.now ≡ of_account.new_notices position first notices.now }
    ensures reached { result.1 ≡ max position (first + length notices.now - 1) }
{
    let past = if first > position {
        0
    } else {
        (position - first).saturating_add(1)
    };
    if past >= notices.len() as u64 {
        return (&[], position);
    }
    let last = &notices[notices.len() - 1];
    (&notices[past as usize..], last.number)
}

// Makes room for one queue more, and for one user more.
fn reserve(opens: &mut IndexMap<UserId, u32>, queues: &mut Queues) -> Result<(), NoMemory>
    ensures room { OnOk result ((1 ≤ spare opens.new) × (1 ≤ spare queues.new)) }
    ensures opens { opens.new.entries ≡ opens.old.entries }
    ensures queues { queues.new.entries ≡ queues.old.entries }
{
    opens.reserve(1)?;
    queues.reserve(1)?;
    Ok(())
}

// Notes how many queues the user opened.
fn set_opens(opens: &mut IndexMap<UserId, u32>, user: UserId, count: u32)
    requires { 1 ≤ spare opens.old }
    ensures { (other : UserId) → opens_in opens.new.entries other
        ≡ (if same_user other user then count else opens_in opens.old.entries other) }
{
    opens.insert(user, count).unwrap();
}
