//! The words of a line, and the step that they spell.

ghost use Rattle.std.specs.Prelude.{◌≡◌, ◌<◌, length, MatchOption};
ghost use Rattle.zs_script.specs.Grammar.{ArgumentsSpell, CommandSpells, RestSpells, words_of};
ghost use Rattle.zs_script.specs.Readings.{ReadsStep, ReadsWords};
ghost use Rattle.zs_words.specs.Readings.{Reads, pointed};

use crate::marks::{read_flags, read_reaction_add, read_reaction_remove};
use crate::people::{
    read_realm_update, read_user_add, read_user_deactivate, read_user_reactivate, read_user_role,
    read_user_update,
};
use crate::posts::{read_delete, read_edit_content, read_move, read_send_dm, read_send_stream};
use crate::queues::{
    read_delete_queue, read_fetch, read_finish, read_notice, read_open, read_poll, read_push,
    read_register, read_shards, read_tick, read_view, read_where,
};
use crate::step::{Setting, Step};
use crate::streams::{
    read_stream_archive, read_stream_create, read_stream_privacy, read_stream_update,
    read_sub_property, read_subscribe, read_unsubscribe,
};
use arrayvec::ArrayVec;
use std::alloc::Global;
use zr_types::Command;
use zs_words::{CommandName, LineFault, LineName, read_name, read_user};

/// The most words that a line has.
const MAX_WORDS: usize = 6;

/// The words of a line that has no more than any line has.
pub(crate) fn split_words(line: &[u8]) -> Option<ArrayVec<&[u8], MAX_WORDS>>
    ensures { MatchOption result
        (6 < length (words_of line.now))
        (λ words. pointed words.items ≡ words_of line.now) }
{
    let mut words = ArrayVec::new();
    for word in line.split(|byte| *byte == b' ') {
        if words.try_push(word).is_err() {
            return None;
        }
    }
    Some(words)
}

/// The step that words spell.
pub(crate) fn read_words(
    alloc: Global,
    setting: Setting,
    words: &[&[u8]],
) -> Result<Step, LineFault>
    ensures { ReadsWords setting (pointed words.now) result }
{
    let [first, rest @ ..] = words else {
        return Err(LineFault::NotAStep);
    };
    let Some(name) = read_name(*first) else {
        return Err(LineFault::NotAStep);
    };
    read_rest(alloc, setting, name, rest)
}

/// The step that the words after the line's name spell.
fn read_rest(
    alloc: Global,
    setting: Setting,
    name: LineName,
    words: &[&[u8]],
) -> Result<Step, LineFault>
    ensures { ReadsStep (RestSpells setting name (pointed words.now)) result }
{
    match name {
        LineName::Command(command) => read_by_actor(alloc, command, words),
        LineName::Shards => read_shards(setting, words),
        LineName::Notice => read_notice(words),
        LineName::Push => read_push(setting, words),
        LineName::Open => read_open(alloc, words),
        LineName::Fetch => read_fetch(words),
        LineName::Finish => read_finish(words),
        LineName::Register => read_register(alloc, words),
        LineName::Poll => read_poll(false, words),
        LineName::Beat => read_poll(true, words),
        LineName::DeleteQueue => read_delete_queue(words),
        LineName::Tick => read_tick(words),
        LineName::Where => read_where(setting, words),
        LineName::View => read_view(words),
    }
}

fn read_by_actor(alloc: Global, name: CommandName, words: &[&[u8]]) -> Result<Step, LineFault>
    ensures { ReadsStep (CommandSpells name (pointed words.now)) result }
{
    let [actor, arguments @ ..] = words else {
        return Err(LineFault::NotAStep);
    };
    let Some(actor) = read_user(*actor) else {
        return Err(LineFault::NotAStep);
    };
    Ok(Step::Command {
        actor,
        command: read_command(alloc, name, arguments)?,
    })
}

/// The command of this name that its arguments spell.
fn read_command(alloc: Global, name: CommandName, words: &[&[u8]]) -> Result<Command, LineFault>
    ensures { Reads (ArgumentsSpell name (pointed words.now)) result }
{
    match name {
        CommandName::RealmUpdate => read_realm_update(alloc, words),
        CommandName::UserAdd => read_user_add(alloc, words),
        CommandName::UserUpdate => read_user_update(alloc, words),
        CommandName::UserRole => read_user_role(words),
        CommandName::UserDeactivate => read_user_deactivate(words),
        CommandName::UserReactivate => read_user_reactivate(words),
        CommandName::StreamCreate => read_stream_create(alloc, words),
        CommandName::StreamUpdate => read_stream_update(alloc, words),
        CommandName::StreamPrivacy => read_stream_privacy(words),
        CommandName::StreamArchive => read_stream_archive(words),
        CommandName::Subscribe => read_subscribe(words),
        CommandName::Unsubscribe => read_unsubscribe(words),
        CommandName::SubProperty => read_sub_property(alloc, words),
        CommandName::SendStream => read_send_stream(alloc, words),
        CommandName::SendDm => read_send_dm(alloc, words),
        CommandName::EditContent => read_edit_content(alloc, words),
        CommandName::Move => read_move(alloc, words),
        CommandName::Delete => read_delete(words),
        CommandName::Flags => read_flags(alloc, words),
        CommandName::ReactionAdd => read_reaction_add(alloc, words),
        CommandName::ReactionRemove => read_reaction_remove(alloc, words),
    }
}
