//! A queue that is opening or live.

ghost use Rattle.std.specs.Prelude.{◌≡◌, ◌+◌, ◌||◌, nat_lt, ◌≤◌, ◌<◌, ◌↔◌, ◌∷◌, [], IfErr, IfOk, length, true};
ghost use Rattle.ev_base.specs.declared.ids.UserId.{UserId};
ghost use Rattle.zw_traces.specs.Account.{after_finish, after_handing_out, id_of, is_due, is_live_phase, is_opening_phase, is_over, items_of, items_to_give, max_ids, max_kept, opened_account, with_events, with_moment};
ghost use Rattle.ev_groups.specs.Items.{events_of};
ghost use Rattle.zw_traces.specs.KeptAccount.{without_pruned};
ghost use Rattle.zw_traces.specs.ShardTrace.{AnswersItems, QueuePolls, shown_items};
ghost use Rattle.q_queue.specs.declared.queue.Pushed.TheVariants as pushed;
ghost use Rattle.zw_traces.specs.IsKept.{IsKept};
ghost use Rattle.q_queue.specs.Polled.{after_heartbeat, answered, heartbeat, polled};

use crate::ids::{count_of, id_of, is_below_all};
use crate::items::{
    add, add_all, count_up_to, events_of, greatest_id, shown_heartbeat, shown_items,
};
use crate::staging::{Staged, staged_events};
use ev_base::{Listed, NoMemory, UserId};
use ev_types::{Event, Item, Section, Types};
use std::alloc::Global;
use std::marker::Model;
use zw_traces::ShardReply;

/// A queue keeps at most these items; with more it overruns.
const MAX_KEPT: usize = 10_000;

/// A queue gives at most these ids, which are the integers that a double holds exactly.
const MAX_IDS: u64 = 9_007_199_254_740_992;

/// A queue that isn't asked for these seconds is due to be collected.
const MAX_IDLE: u64 = 600;

/// What became of events that were staged.
#[derive(Clone, Copy, Debug, PartialEq, Eq)]
pub enum Pushed {
    Kept,
    /// With them the queue would keep more items, or give more ids, than it may.
    Overrun,
}

/// A queue that is opening or live: its account, without the pruned items, and beside it what a push
/// is to make of it. Of the numbers and items of the account it relies on `IsKept` alone.
#[derive(Drop)]
pub struct Queue {
    is_live: bool,
    types: Types,
    asked: Listed<Section>,
    position: u64,
    next: u64,
    items: Vec<(u64, Event)>,
    // how many of the items were there at the latest answer or finish
    cut: usize,
    given: u64,
    pruned: u64,
    last: u64,
    staged: Staged,
}

impl Model for Queue {
    ghost use Rattle.q_queue.specs.QueueValue.{QueueValue};

    ghost Value = { QueueValue };

    ghost use Rattle.q_queue.specs.Stored.{IsStored, account_of, staged_of};

    ghost view = { λ it. record {
      account = account_of it;
      staged = staged_of it;
    } };

    ghost invariant = { IsStored };
}

impl Queue {
    /// A queue that was just opened, after `position` notices. It takes no memory.
    pub fn start(
        alloc: Global,
        types: Types,
        asked: Listed<Section>,
        position: u64,
        moment: u64,
    ) -> Queue
        ensures account { result.account ≡ opened_account types asked position moment }
    {
        Queue {
            is_live: false,
            types,
            asked,
            position,
            next: 0,
            items: Vec::new(alloc),
            cut: 0,
            given: 0,
            pruned: 0,
            last: moment,
            staged: Staged::nothing(alloc, 0, 0),
        }
    }

    /// The kinds of events that the queue receives.
    pub fn types(&self) -> &Types
        ensures { result.now ≡ self.now.account.types }
    {
        &self.types
    }

    /// The sections that its registration is to answer.
    pub fn asked(&self) -> &[Section]
        ensures { result.now ≡ self.now.account.asked }
    {
        self.asked.as_slice()
    }

    pub fn is_live(&self) -> bool
        ensures live { result ≡ is_live_phase self.now.account.phase }
        ensures is_kept { IsKept self.now.account }
    {
        self.is_live
    }

    /// Whether a tick at this moment collects the queue.
    pub fn is_due(&self, moment: u64) -> bool
        ensures { result ≡ is_due moment self.now.account }
    {
        moment >= MAX_IDLE && self.last <= moment - MAX_IDLE
    }

    /// Makes ready what a push brings, in place of what was staged before, and takes all memory that
    /// `settle` needs. It costs what is brought and the items behind the first one that takes a
    /// change in.
    pub fn stage(&mut self, alloc: Global, events: Vec<Event>) -> Result<(), NoMemory>
        ensures ok { IfOk result
            (λ _. self.new.staged ≡ with_events events.items self.old.account) }
        ensures account { self.new.account ≡ self.old.account }
    {
        let staged = staged_events(alloc, &self.items[self.cut..], self.next, events)?;
        self.items.reserve(staged.items.len())?;
        self.staged = staged;
        Ok(())
    }

    /// Drops what is staged.
    pub fn unstage(&mut self)
        ensures account { self.new.account ≡ self.old.account }
        ensures staged { self.new.staged ≡ self.old.account }
    {
        let open = self.items.len() - self.cut;
        self.staged = Staged::nothing(*self.items.allocator(), open, self.next);
    }

    /// Takes what is staged into the queue. After an overrun the queue is as it was. It takes no
    /// memory.
    pub fn settle(&mut self) -> Pushed
        ensures overrun { (result ≡ pushed.Overrun) ↔ (is_over self.old.staged ≡ true) }
        ensures kept { result ≡ pushed.Kept → self.new.account ≡ self.old.staged }
        ensures same { result ≡ pushed.Overrun → self.new.account ≡ self.old.account }
        ensures is_kept { IsKept self.old.account }
    {
        if self.overruns() {
            return Pushed::Overrun;
        }
        self.items.truncate(self.cut + self.staged.from);
        add_all(&mut self.items, &mut self.staged.items);
        self.next = self.staged.next;
        let open = self.items.len() - self.cut;
        self.staged = Staged::nothing(*self.items.allocator(), open, self.next);
        Pushed::Kept
    }

    // Whether what is staged makes too many items, or uses too many ids.
    fn overruns(&self) -> bool
        ensures { result ≡ is_over self.now.staged }
    {
        self.cut + self.staged.from + self.staged.items.len() > MAX_KEPT
            || self.staged.next > MAX_IDS
    }

    /// Answers the items above `after`, and drops those up to it. With `beat`, a heartbeat is added
    /// and answered where there is none. A refused poll changes nothing; neither it nor an empty one
    /// takes memory.
    pub fn poll(
        &mut self,
        alloc: Global,
        owner: UserId,
        asker: UserId,
        after: i64,
        moment: u64,
        beat: bool,
        reached: u64,
    ) -> ShardReply
        ensures reply { QueuePolls owner self.old.account reached asker after beat result }
        ensures account { self.new.account ≡ polled after moment beat result self.old.account }
        ensures is_kept { IsKept self.old.account }
    {
        if !self.is_live || owner != asker {
            return ShardReply::BadQueue;
        }
        let count = count_of(after);
        if self.given < count {
            return ShardReply::NotSent {
                greatest: id_of(self.given),
            };
        }
        if is_below_all(after) || count < self.pruned {
            return ShardReply::Pruned {
                newest: id_of(self.pruned),
            };
        }
        self.answer(alloc, count, moment, beat, reached)
    }

    // What a poll answers that acknowledges the first `count` ids.
    fn answer(
        &mut self,
        alloc: Global,
        count: u64,
        moment: u64,
        beat: bool,
        reached: u64,
    ) -> ShardReply
        requires pruned { self.old.account.pruned ≤ count }
        requires given { count ≤ self.old.account.given }
        ensures reply { (user : UserId) → AnswersItems user self.old.account reached
            (items_to_give count beat self.old.account) result }
        ensures account { self.new.account ≡ answered count moment beat result self.old.account }
    {
        let acknowledged = count_up_to(&self.items, count);
        if acknowledged < self.items.len() {
            let Ok(items) = shown_items(alloc, &self.items[acknowledged..]) else {
                return ShardReply::NoMemory;
            };
            self.hand_out(count, moment);
            return ShardReply::Answer { items, reached };
        }
        if !beat || self.next >= MAX_IDS {
            self.hand_out(count, moment);
            return ShardReply::Empty { reached };
        }
        match self.give_heartbeat(alloc, moment) {
            Ok(items) => ShardReply::Answer { items, reached },
            Err(_) => ShardReply::NoMemory,
        }
    }

    // Counts the items above the acknowledged ones as given, and drops the others.
    fn hand_out(&mut self, count: u64, moment: u64)
        requires pruned { self.old.account.pruned ≤ count }
        requires given { count ≤ self.old.account.given }
        ensures { self.new.account
            ≡ without_pruned (with_moment moment (after_handing_out count self.old.account)) }
    {
        let acknowledged = count_up_to(&self.items, count);
        self.pruned = greatest_id(self.pruned, &self.items[..acknowledged]);
        self.given = greatest_id(self.given, &self.items[acknowledged..]);
        self.items.drain(..acknowledged);
        self.cut = self.items.len();
        self.last = self.last.max(moment);
        self.staged = Staged::nothing(*self.items.allocator(), 0, self.next);
    }

    // Adds a heartbeat, and drops all items before it.
    fn give_heartbeat(&mut self, alloc: Global, moment: u64) -> Result<Listed<Item>, NoMemory>
        requires { self.old.account.next < max_ids }
        ensures list { IfOk result
            (λ list. list ≡ shown_items (heartbeat self.old.account.next ∷ [])) }
        ensures account { IfOk result
            (λ _. self.new.account ≡ after_heartbeat moment self.old.account) }
        ensures err { IfErr result (λ _. self.new.account ≡ self.old.account) }
    {
        let id = self.next + 1;
        let list = shown_heartbeat(alloc, id)?;
        self.items.reserve(1)?;
        self.pruned = greatest_id(self.pruned, &self.items);
        self.items.clear();
        add(&mut self.items, id, Event::Heartbeat);
        self.next = id;
        self.given = id;
        self.cut = 1;
        self.last = self.last.max(moment);
        self.staged = Staged::nothing(alloc, 0, id);
        Ok(list)
    }

    /// Copies of the events of all items, in the order of their ids.
    pub fn events(&self, alloc: Global) -> Result<Vec<Event>, NoMemory>
        ensures { IfOk result (λ events. events.items ≡ events_of (items_of self.now.account)) }
    {
        events_of(alloc, &self.items)
    }

    /// Makes an opening queue live, drops all its items, and returns the id of the last. It takes
    /// no memory.
    pub fn finish(&mut self) -> i64
        requires { is_opening_phase self.old.account.phase ≡ true }
        ensures last { result ≡ id_of self.old.account.next }
        ensures account { self.new.account ≡ without_pruned (after_finish self.old.account) }
        ensures is_kept { IsKept self.old.account }
    {
        self.is_live = true;
        self.pruned = greatest_id(self.pruned, &self.items);
        self.given = self.next;
        self.items.clear();
        self.cut = 0;
        self.staged = Staged::nothing(*self.items.allocator(), 0, self.next);
        id_of(self.next)
    }
}
