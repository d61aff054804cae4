//! The arguments of the commands that change messages.

ghost use Rattle.std.specs.Prelude.{◌≡◌, ℕ, List, [], ◌∷◌, IfOk};
ghost use Rattle.zr_types.specs.declared.command.Command.{Command};
ghost use Rattle.zr_types.specs.declared.command.PostCommand.{PostCommand};
ghost use Rattle.zr_types.specs.declared.command.StreamRef.{StreamRef};
ghost use Rattle.zs_words.specs.declared.names.CommandName.{CommandName};
ghost use Rattle.zs_words.specs.Lists.{IsIds, IsUsers};
ghost use Rattle.zs_words.specs.Readings.{Reads, pointed};
ghost use Rattle.zs_words.specs.StreamRefs.{IsStreamRef};
ghost use Rattle.zs_words.specs.Texts.{IsText};
ghost use Rattle.zs_script.specs.Grammar.{ArgumentsSpell, Three, Two};

use std::alloc::{AllocError, Global};
use zr_types::{Command, PostCommand};
use zs_words::{
    LineFault, is_ids, is_stream_ref, is_text, read_message, read_name, read_stream, read_text,
    stream_ref_of, text_of, users_of,
};

pub(crate) fn read_send_stream(alloc: Global, words: &[&[u8]]) -> Result<Command, LineFault>
    ensures { Reads (ArgumentsSpell CommandName.SendStream (pointed words.now)) result }
{
    let [to, topic, content] = *words else {
        return Err(LineFault::NotAStep);
    };
    if !is_stream_ref(to) {
        return Err(LineFault::NotAStep);
    }
    if !is_text(topic) {
        return Err(LineFault::NotAStep);
    }
    if !is_text(content) {
        return Err(LineFault::NotAStep);
    }
    Ok(send_stream(alloc, to, topic, content)?)
}

fn send_stream(
    alloc: Global,
    to: &[u8],
    topic: &[u8],
    content: &[u8],
) -> Result<Command, AllocError>
    requires to_is_stream_ref { (stream : StreamRef) × IsStreamRef to.now stream }
    requires topic_is_text { (text : List ℕ) × IsText topic.now text }
    requires content_is_text { (text : List ℕ) × IsText content.now text }
    ensures { IfOk result (Three IsStreamRef IsText IsText
        (λ to topic content. Command.Posts (PostCommand.SendStream to topic content))
        (to.now ∷ topic.now ∷ content.now ∷ [])) }
{
    Ok(Command::Posts(PostCommand::SendStream {
        to: stream_ref_of(alloc, to)?,
        topic: text_of(alloc, topic)?,
        content: text_of(alloc, content)?,
    }))
}

pub(crate) fn read_send_dm(alloc: Global, words: &[&[u8]]) -> Result<Command, LineFault>
    ensures { Reads (ArgumentsSpell CommandName.SendDm (pointed words.now)) result }
{
    let [users, content] = *words else {
        return Err(LineFault::NotAStep);
    };
    if !is_ids(users) {
        return Err(LineFault::NotAStep);
    }
    if !is_text(content) {
        return Err(LineFault::NotAStep);
    }
    Ok(send_dm(alloc, users, content)?)
}

fn send_dm(alloc: Global, users: &[u8], content: &[u8]) -> Result<Command, AllocError>
    requires users_are_ids { (ids : List ℕ) × IsIds users.now ids }
    requires content_is_text { (text : List ℕ) × IsText content.now text }
    ensures { IfOk result (Two IsUsers IsText
        (λ users content. Command.Posts (PostCommand.SendDm users content))
        (users.now ∷ content.now ∷ [])) }
{
    Ok(Command::Posts(PostCommand::SendDm {
        users: users_of(alloc, users)?,
        content: text_of(alloc, content)?,
    }))
}

pub(crate) fn read_edit_content(alloc: Global, words: &[&[u8]]) -> Result<Command, LineFault>
    ensures { Reads (ArgumentsSpell CommandName.EditContent (pointed words.now)) result }
{
    let [message, content] = *words else {
        return Err(LineFault::NotAStep);
    };
    let Some(message) = read_message(message) else {
        return Err(LineFault::NotAStep);
    };
    let content = read_text(alloc, content)?;
    Ok(Command::Posts(PostCommand::EditContent { message, content }))
}

pub(crate) fn read_move(alloc: Global, words: &[&[u8]]) -> Result<Command, LineFault>
    ensures { Reads (ArgumentsSpell CommandName.Move (pointed words.now)) result }
{
    let [message, stream, topic, mode] = *words else {
        return Err(LineFault::NotAStep);
    };
    let (Some(message), Some(stream), Some(mode)) = (
        read_message(message),
        read_stream(stream),
        read_name(mode),
    ) else {
        return Err(LineFault::NotAStep);
    };
    let topic = read_text(alloc, topic)?;
    Ok(Command::Posts(PostCommand::Move {
        message,
        stream: Some(stream),
        topic: Some(topic),
        mode,
    }))
}

pub(crate) fn read_delete(words: &[&[u8]]) -> Result<Command, LineFault>
    ensures { Reads (ArgumentsSpell CommandName.Delete (pointed words.now)) result }
{
    let [message] = *words else {
        return Err(LineFault::NotAStep);
    };
    let Some(message) = read_message(message) else {
        return Err(LineFault::NotAStep);
    };
    Ok(Command::Posts(PostCommand::Delete { message }))
}
