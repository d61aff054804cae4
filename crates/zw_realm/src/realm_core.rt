//! The core of a realm, which answers its inputs one at a time.

ghost use Rattle.std.specs.Prelude.{◌≡◌, ◌+◌, ◌≤◌, IfOk, List, OnErr, [], ◌∷◌, length};
ghost use Rattle.zr_types.specs.declared.command.Command.{Command};
ghost use Rattle.zr_types.specs.Checks.{IsChangeOf, WasChecked};
ghost use Rattle.zw_traces.specs.declared.realm.RealmStep.{RealmStep};
ghost use Rattle.zw_traces.specs.RealmTrace.{RealmAnswers};
ghost use Rattle.zw_realm.specs.CoreStates.{IsProper, RealmRepresents};
ghost use Rattle.zw_realm.specs.CoreSteps.{IsCoreStep, LaysNotice, notices_from};

use crate::checking::check;
use crate::noticing::notice;
use cmd_rules::commit_change;
use ev_base::{ExactClone, Listed, NoMemory, UserId};
use ev_types::{Notice, Section};
use std::alloc::Global;
use std::marker::Model;
use zr_realm::Realm;
use zr_types::{Change, Command, CommitFault, Committed};
use zr_view::{FetchFault, fetch};
use zw_traces::{RealmInput, RealmReply};

/// No more notices than these are handed out at once.
const MAX_TAKEN: usize = 256;

/// The core of a realm: its tables, and the notices of its commits.
#[derive(Drop)]
pub struct RealmCore {
    realm: Realm,
    notices: Vec<Notice>,
    announced: u64,
}

impl Model for RealmCore {
    ghost use Rattle.std.specs.Prelude.{◌≡◌, ◌≤◌, length};
    ghost use Rattle.zw_views.specs.Laws.{IsCounted};
    ghost use Rattle.zw_realm.specs.CoreStates.{CoreState};

    ghost Value = { CoreState };

    ghost view = { λ core. record {
      realm = core.realm.state;
      notices = core.notices.items;
      announced = core.announced;
    } };

    ghost invariant = { λ core. IsCounted core.realm.state
        × (core.realm.state.commits ≡ length core.notices.items)
        × (core.announced ≤ length core.notices.items) };
}

impl RealmCore {
    /// A realm before any commit.
    pub fn new(alloc: Global) -> Result<RealmCore, NoMemory>
        ensures { IfOk result (λ core. RealmRepresents core []) }
    {
        Ok(RealmCore {
            realm: Realm::new(alloc)?,
            notices: Vec::new(alloc),
            announced: 0,
        })
    }

    /// The realm as it is after all commits.
    pub fn realm(&self) -> &Realm
        ensures { result.now.state ≡ self.now.realm }
    {
        &self.realm
    }

    /// How many commits there were.
    pub fn commits(&self) -> u64
        ensures { result ≡ length self.now.notices }
    {
        self.notices.len() as u64
    }

    /// How many commits were announced.
    pub fn announced(&self) -> u64
        ensures { result ≡ self.now.announced }
    {
        self.announced
    }

    /// Answers an input, as is right after the steps before it.
    pub fn step(&mut self, alloc: Global, input: RealmInput) -> RealmReply
        requires { IsProper input }
        ensures reply { (trace : List RealmStep) → RealmRepresents self.old trace
            → RealmAnswers trace input result }
        ensures represents { (trace : List RealmStep) → RealmRepresents self.old trace
            → RealmRepresents self.new (record { input = input; reply = result } ∷ trace) }
    {
        match input {
            RealmInput::Commit {
                actor,
                moment,
                command,
            } => self.commit(alloc, actor, moment, command),
            RealmInput::Fetch { user, section } => self.fetch(alloc, user, section),
            RealmInput::NoticeAll => self.notice_all(),
            RealmInput::Take { first } => self.take(alloc, first),
        }
    }

    fn commit(&mut self, alloc: Global, actor: UserId, moment: u64, command: Command) -> RealmReply
        ensures { IsCoreStep self.old (RealmInput.Commit actor moment command) result self.new }
    {
        match check(alloc, &self.realm, actor, moment, command) {
            Ok(change) => self.commit_checked(alloc, change),
            Err(CommitFault::Refused(why)) => RealmReply::Refused(why),
            Err(CommitFault::NoMemory) => RealmReply::NoMemory,
        }
    }

    // Commits what a check accepted.
    fn commit_checked(&mut self, alloc: Global, change: Change) -> RealmReply
        requires { WasChecked self.old.realm change }
        ensures { (command : Command) → IsChangeOf self.old.realm command change
            → IsCoreStep self.old (RealmInput.Commit change.actor change.moment command)
            result self.new }
    {
        match self.lay(alloc, change) {
            Ok(made) => RealmReply::Committed(made),
            Err(NoMemory) => RealmReply::NoMemory,
        }
    }

    // Makes a change and lays its notice. All that takes memory comes before the change, so that out of
    // memory leaves the core as it was.
    fn lay(&mut self, alloc: Global, change: Change) -> Result<Committed, NoMemory>
        requires { WasChecked self.old.realm change }
        ensures ok { IfOk result (λ made. (command : Command)
            → IsChangeOf self.old.realm command change
            → LaysNotice self.old change.actor change.moment command made self.new) }
        ensures err { OnErr result (self.new ≡ self.old) }
    {
        let notice = notice(alloc, &self.realm, &change)?;
        self.notices.reserve(1)?;
        let made = commit_change(alloc, &mut self.realm, change)?;
        self.notices.push_reserved(notice);
        Ok(made)
    }

    fn fetch(&self, alloc: Global, user: UserId, section: Section) -> RealmReply
        ensures { IsCoreStep self.now (RealmInput.Fetch user section) result self.now }
    {
        match fetch(alloc, &self.realm, user, section) {
            Ok(rows) => RealmReply::Section {
                rows,
                at: self.commits(),
            },
            Err(FetchFault::Unknown) => RealmReply::FetchRefused,
            Err(FetchFault::NoMemory) => RealmReply::NoMemory,
        }
    }

    fn notice_all(&mut self) -> RealmReply
        ensures { IsCoreStep self.old RealmInput.NoticeAll result self.new }
    {
        let count = self.notices.len() as u64;
        self.announced = count;
        RealmReply::Noticed { count }
    }

    fn take(&self, alloc: Global, first: u64) -> RealmReply
        requires { 1 ≤ first }
        ensures { IsCoreStep self.now (RealmInput.Take first) result self.now }
    {
        match self.notices_from(alloc, first) {
            Ok(list) => RealmReply::Notices {
                first,
                list: Listed::from_vec(list),
            },
            Err(NoMemory) => RealmReply::NoMemory,
        }
    }

    // Copies of the announced notices, from the one with this number on.
    fn notices_from(&self, alloc: Global, first: u64) -> Result<Vec<Notice>, NoMemory>
        requires { 1 ≤ first }
        ensures { IfOk result (λ list. list.items ≡ notices_from self.now first) }
    {
        let start = self.announced.min(first - 1) as usize;
        let count = (self.announced as usize - start).min(MAX_TAKEN);
        let mut list = Vec::with_capacity(alloc, count)?;
        for notice in &self.notices[start..start + count] {
            list.push(copied(notice)?)?;
        }
        Ok(list)
    }
}

fn copied<T: ExactClone>(value: &T) -> Result<T, NoMemory>
    ensures { IfOk result (λ copy. copy ≡ value.now) }
{
    Ok(value.clone()?)
}
