//! The lines that are no commands: of shards, notices, queues, time and views.

ghost use Rattle.std.specs.Prelude.{◌≡◌, List, [], IfOk};
ghost use Rattle.ev_types.specs.declared.kind.Types.{Types};
ghost use Rattle.ev_types.specs.declared.section.Section.{Section};
ghost use Rattle.zs_words.specs.Lists.{IsFetch, IsTypes};
ghost use Rattle.zs_words.specs.Numbers.{IsMoment, IsNoticeNumber, IsQueue, IsShard, IsUser};
ghost use Rattle.zs_words.specs.Names.{IsSection};
ghost use Rattle.zs_words.specs.Readings.{Reads, pointed};
ghost use Rattle.zs_script.specs.declared.step.Step.TheVariants.{DeleteQueue, Fetch, Finish, Locate, NoticeAll, OpenQueue, Push, PushFrom, Register, Tick, View};
ghost use Rattle.zs_script.specs.Grammar.{AskingSpells, One, PollSpells, PushSpells, ShardsSpells, Two};
ghost use Rattle.zs_script.specs.Readings.{ReadsStep, asked_for};

use crate::step::{Setting, Step};
use ev_base::{Listed, UserId};
use ev_types::{Section, Types};
use std::alloc::{AllocError, Global};
use zs_words::{
    LineFault, fetch_of, is_fetch, is_types, read_event_number, read_moment, read_name,
    read_notice_number, read_queue, read_shard, read_shard_count, read_user, types_of,
};

pub(crate) fn read_shards(setting: Setting, words: &[&[u8]]) -> Result<Step, LineFault>
    ensures { ReadsStep (ShardsSpells setting (pointed words.now)) result }
{
    if !setting.is_first {
        return Err(LineFault::NotAStep);
    }
    let [count] = *words else {
        return Err(LineFault::NotAStep);
    };
    let Some(count) = read_shard_count(count) else {
        return Err(LineFault::NotAStep);
    };
    Ok(Step::Shards { count })
}

pub(crate) fn read_notice(words: &[&[u8]]) -> Result<Step, LineFault>
    ensures { ReadsStep (λ step. (pointed words.now ≡ []) × (step ≡ NoticeAll)) result }
{
    if words.is_empty() {
        Ok(Step::NoticeAll)
    } else {
        Err(LineFault::NotAStep)
    }
}

pub(crate) fn read_push(setting: Setting, words: &[&[u8]]) -> Result<Step, LineFault>
    ensures { ReadsStep (PushSpells setting (pointed words.now)) result }
{
    if words.len() == 1 {
        read_push_all(setting.shards, words)
    } else {
        read_push_from(setting.shards, words)
    }
}

fn read_push_all(shards: u32, words: &[&[u8]]) -> Result<Step, LineFault>
    ensures { ReadsStep (One (IsShard shards) Push (pointed words.now)) result }
{
    let [shard] = *words else {
        return Err(LineFault::NotAStep);
    };
    let Some(shard) = read_shard(shards, shard) else {
        return Err(LineFault::NotAStep);
    };
    Ok(Step::Push { shard })
}

fn read_push_from(shards: u32, words: &[&[u8]]) -> Result<Step, LineFault>
    ensures { ReadsStep (Two (IsShard shards) IsNoticeNumber PushFrom (pointed words.now)) result }
{
    let [shard, first] = *words else {
        return Err(LineFault::NotAStep);
    };
    let (Some(shard), Some(first)) = (read_shard(shards, shard), read_notice_number(first)) else {
        return Err(LineFault::NotAStep);
    };
    Ok(Step::PushFrom { shard, first })
}

/// Whose queue is asked for, with which types and sections.
#[derive(Drop)]
pub(crate) struct Asked {
    pub(crate) user: UserId,
    pub(crate) types: Types,
    pub(crate) sections: Listed<Section>,
}

pub(crate) fn read_open(alloc: Global, words: &[&[u8]]) -> Result<Step, LineFault>
    ensures { ReadsStep (AskingSpells OpenQueue (pointed words.now)) result }
{
    let asked = read_asked(alloc, words)?;
    Ok(Step::OpenQueue {
        user: asked.user,
        types: asked.types,
        asked: asked.sections,
    })
}

pub(crate) fn read_register(alloc: Global, words: &[&[u8]]) -> Result<Step, LineFault>
    ensures { ReadsStep (AskingSpells Register (pointed words.now)) result }
{
    let asked = read_asked(alloc, words)?;
    Ok(Step::Register {
        user: asked.user,
        types: asked.types,
        asked: asked.sections,
    })
}

fn read_asked(alloc: Global, words: &[&[u8]]) -> Result<Asked, LineFault>
    ensures { Reads (AskingSpells asked_for (pointed words.now)) result }
{
    let [user, types, fetch] = *words else {
        return Err(LineFault::NotAStep);
    };
    let Some(user) = read_user(user) else {
        return Err(LineFault::NotAStep);
    };
    if !is_types(types) {
        return Err(LineFault::NotAStep);
    }
    if !is_fetch(fetch) {
        return Err(LineFault::NotAStep);
    }
    Ok(asked_of(alloc, user, types, fetch)?)
}

/// What this user asks for, with words for types and for what is fetched.
fn asked_of(alloc: Global, user: UserId, types: &[u8], fetch: &[u8]) -> Result<Asked, AllocError>
    requires is_types { (sent : Types) × IsTypes types.now sent }
    requires is_fetch { (asked : List Section) × IsFetch Types.All fetch.now asked }
    ensures { IfOk result (λ whole. (sent : Types) × (asked : List Section) ×
        IsTypes types.now sent × IsFetch sent fetch.now asked
        × (whole ≡ asked_for user sent asked)) }
{
    Ok(Asked {
        user,
        types: types_of(alloc, types)?,
        sections: fetch_of(alloc, types, fetch)?,
    })
}

pub(crate) fn read_fetch(words: &[&[u8]]) -> Result<Step, LineFault>
    ensures { ReadsStep (Two IsQueue IsSection Fetch (pointed words.now)) result }
{
    let [queue, section] = *words else {
        return Err(LineFault::NotAStep);
    };
    let Some(queue) = read_queue(queue) else {
        return Err(LineFault::NotAStep);
    };
    let Some(section) = read_name(section) else {
        return Err(LineFault::NotAStep);
    };
    Ok(Step::Fetch { queue, section })
}

pub(crate) fn read_finish(words: &[&[u8]]) -> Result<Step, LineFault>
    ensures { ReadsStep (One IsQueue Finish (pointed words.now)) result }
{
    let [queue] = *words else {
        return Err(LineFault::NotAStep);
    };
    let Some(queue) = read_queue(queue) else {
        return Err(LineFault::NotAStep);
    };
    Ok(Step::Finish { queue })
}

/// A poll, with a heartbeat or without.
pub(crate) fn read_poll(beat: bool, words: &[&[u8]]) -> Result<Step, LineFault>
    ensures { ReadsStep (PollSpells beat (pointed words.now)) result }
{
    let [user, queue, after] = *words else {
        return Err(LineFault::NotAStep);
    };
    let Some(user) = read_user(user) else {
        return Err(LineFault::NotAStep);
    };
    let Some(queue) = read_queue(queue) else {
        return Err(LineFault::NotAStep);
    };
    let Some(after) = read_event_number(after) else {
        return Err(LineFault::NotAStep);
    };
    Ok(Step::Poll {
        user,
        queue,
        after,
        beat,
    })
}

pub(crate) fn read_delete_queue(words: &[&[u8]]) -> Result<Step, LineFault>
    ensures { ReadsStep (Two IsUser IsQueue DeleteQueue (pointed words.now)) result }
{
    let [user, queue] = *words else {
        return Err(LineFault::NotAStep);
    };
    let Some(user) = read_user(user) else {
        return Err(LineFault::NotAStep);
    };
    let Some(queue) = read_queue(queue) else {
        return Err(LineFault::NotAStep);
    };
    Ok(Step::DeleteQueue { user, queue })
}

pub(crate) fn read_tick(words: &[&[u8]]) -> Result<Step, LineFault>
    ensures { ReadsStep (One IsMoment Tick (pointed words.now)) result }
{
    let [moment] = *words else {
        return Err(LineFault::NotAStep);
    };
    let Some(moment) = read_moment(moment) else {
        return Err(LineFault::NotAStep);
    };
    Ok(Step::Tick { moment })
}

pub(crate) fn read_where(setting: Setting, words: &[&[u8]]) -> Result<Step, LineFault>
    ensures { ReadsStep (One (IsShard setting.shards) Locate (pointed words.now)) result }
{
    let [shard] = *words else {
        return Err(LineFault::NotAStep);
    };
    let Some(shard) = read_shard(setting.shards, shard) else {
        return Err(LineFault::NotAStep);
    };
    Ok(Step::Locate { shard })
}

pub(crate) fn read_view(words: &[&[u8]]) -> Result<Step, LineFault>
    ensures { ReadsStep (One IsUser View (pointed words.now)) result }
{
    let [user] = *words else {
        return Err(LineFault::NotAStep);
    };
    let Some(user) = read_user(user) else {
        return Err(LineFault::NotAStep);
    };
    Ok(Step::View { user })
}
