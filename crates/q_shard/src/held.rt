//! A queue that a shard holds.

ghost use Rattle.std.specs.Prelude.{◌≡◌, ℕ, ◌↔◌, [], IfOk, true};
ghost use Rattle.ev_base.specs.declared.ids.UserId.{UserId};
ghost use Rattle.ev_types.specs.OneSection.{rows_of};
ghost use Rattle.ev_types.specs.Sections.{sections_of};
ghost use Rattle.ev_types.specs.declared.section.Section.{Section};
ghost use Rattle.zw_traces.specs.Account.{is_due, is_held, is_opening_phase, is_over};
ghost use Rattle.zw_traces.specs.Account.{opened_account, with_events};
ghost use Rattle.zw_traces.specs.ShardTrace.{QueueFinishes, QueuePolls, given_rows};
ghost use Rattle.q_shard.specs.Hearing.{events_heard};
ghost use Rattle.q_shard.specs.HeldQueues.{finished_account, staged_held};
ghost use Rattle.q_queue.specs.declared.queue.Pushed.TheVariants as pushed;
ghost use Rattle.q_queue.specs.Polled.{polled};

use crate::told::{Told, received_by};
use ev_base::{Listed, NoMemory, UserId};
use ev_types::{Event, Section, State, Types};
use q_queue::{Pushed, Queue};
use rg_flow::{finished_state, first_missing, needed};
use std::alloc::Global;
use std::marker::Model;
use zw_traces::{FetchedSection, ShardReply};

/// An opening or live queue.
///
/// Events that are to be pushed to several queues are first staged in each, which may take memory,
/// and then settled, which takes none.
#[derive(Drop)]
pub struct Held {
    queue: Queue,
}

impl Model for Held {
    ghost use Rattle.q_shard.specs.HeldQueues.{HeldQueue};

    ghost Value = { HeldQueue };

    ghost view = { λ it. record { account = it.queue.account; staged = it.queue.staged } };
}

impl Held {
    /// A queue that was just opened.
    pub fn start(
        alloc: Global,
        types: Types,
        asked: Listed<Section>,
        position: u64,
        moment: u64,
    ) -> Held
        ensures { result.account ≡ opened_account types asked position moment }
    {
        Held {
            queue: Queue::start(alloc, types, asked, position, moment),
        }
    }

    pub fn is_opening(&self) -> bool
        ensures { result ≡ is_opening_phase self.now.account.phase }
    {
        !self.queue.is_live()
    }

    /// Whether a tick at this moment collects the queue.
    pub fn is_due(&self, moment: u64) -> bool
        ensures { result ≡ is_due moment self.now.account }
    {
        self.queue.is_due(moment)
    }

    /// Stages those of the events that the user hears which the queue receives, in place of what was
    /// staged before.
    pub fn stage<'a>(
        &mut self,
        alloc: Global,
        user: UserId,
        told: &Told<'a>,
    ) -> Result<(), NoMemory>
        ensures ok { IfOk result (λ _. self.new
            ≡ staged_held (events_heard told.now.entries user) self.old) }
        ensures account { self.new.account ≡ self.old.account }
    {
        let events = received_by(told, alloc, user, self.queue.types())?;
        self.queue.stage(alloc, events)
    }

    /// Drops what is staged.
    pub fn unstage(&mut self)
        ensures { self.new.account ≡ self.old.account }
    {
        self.queue.unstage();
    }

    /// Pushes what is staged. The queue is gone where it overran.
    pub fn settle(&mut self) -> Pushed
        ensures overrun { (result ≡ pushed.Overrun) ↔ (is_over self.old.staged ≡ true) }
        ensures kept { result ≡ pushed.Kept → self.new.account ≡ self.old.staged }
    {
        self.queue.settle()
    }

    /// Answers a poll of the queue of this owner.
    pub fn poll(
        &mut self,
        alloc: Global,
        owner: UserId,
        asker: UserId,
        after: i64,
        moment: u64,
        beat: bool,
        reached: u64,
    ) -> ShardReply
        ensures reply { QueuePolls owner self.old.account reached asker after beat result }
        ensures account { self.new.account ≡ polled after moment beat result self.old.account }
    {
        self.queue
            .poll(alloc, owner, asker, after, moment, beat, reached)
    }

    /// Ends the registration: applies the queue's events to the parts, and makes the queue live.
    pub fn finish(
        &mut self,
        alloc: Global,
        user: UserId,
        parts: Listed<FetchedSection>,
        reached: u64,
    ) -> ShardReply
        ensures reply { QueueFinishes user self.old.account reached given_rows parts result }
        ensures account { self.new.account ≡ finished_account result self.old.account }
    {
        if self.queue.is_live() {
            return ShardReply::BadQueue;
        }
        if let Some(section) = first_missing(self.queue.asked(), parts.as_slice()) {
            return ShardReply::MissingSection { section, parts };
        }
        let need = needed(self.queue.asked(), parts.as_slice());
        if reached < need {
            return ShardReply::NotPushed {
                have: reached,
                need,
                parts,
            };
        }
        let Ok(state) = self.state(alloc, parts) else {
            return ShardReply::NoMemory;
        };
        ShardReply::Finished {
            state,
            last_event_id: self.queue.finish(),
            reached,
        }
    }

    // The asked sections, with the queue's events applied.
    fn state(&self, alloc: Global, parts: Listed<FetchedSection>) -> Result<State, NoMemory>
        ensures { IfOk result (λ state. (user : UserId) (place : ℕ) (which : Section)
            → rows_of which (sections_of state)
            ≡ given_rows user self.now.account place parts which) }
    {
        let events = self.queue.events(alloc)?;
        finished_state(self.queue.asked(), parts, events)
    }
}
