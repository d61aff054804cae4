//! The arguments of the commands that change streams and subscriptions.

ghost use Rattle.std.specs.Prelude.{◌≡◌, ℕ, List, [], ◌∷◌, IfOk};
ghost use Rattle.zr_types.specs.declared.command.Command.{Command};
ghost use Rattle.zr_types.specs.declared.command.StreamCommand.{StreamCommand};
ghost use Rattle.zr_types.specs.declared.command.SubField.{SubField};
ghost use Rattle.zs_words.specs.declared.names.CommandName.{CommandName};
ghost use Rattle.zs_script.specs.Grammar.{ArgumentsSpell, Two, ValueSpells};
ghost use Rattle.zs_words.specs.Readings.{Reads, pointed};
ghost use Rattle.zs_words.specs.Texts.{IsText};

use ev_base::Privacy;
use std::alloc::{AllocError, Global};
use zr_types::{Command, StreamCommand, SubField};
use zs_words::{
    LineFault, SubProperty, is_text, read_name, read_stream, read_text, read_user, text_of,
};

pub(crate) fn read_stream_create(alloc: Global, words: &[&[u8]]) -> Result<Command, LineFault>
    ensures { Reads (ArgumentsSpell CommandName.StreamCreate (pointed words.now)) result }
{
    let [name, description, privacy] = *words else {
        return Err(LineFault::NotAStep);
    };
    let Some(privacy) = read_name(privacy) else {
        return Err(LineFault::NotAStep);
    };
    if !is_text(name) {
        return Err(LineFault::NotAStep);
    }
    if !is_text(description) {
        return Err(LineFault::NotAStep);
    }
    Ok(stream_create(alloc, name, description, privacy)?)
}

fn stream_create(
    alloc: Global,
    name: &[u8],
    description: &[u8],
    privacy: Privacy,
) -> Result<Command, AllocError>
    requires name_is_text { (text : List ℕ) × IsText name.now text }
    requires description_is_text { (text : List ℕ) × IsText description.now text }
    ensures { IfOk result (Two IsText IsText
        (λ name description. Command.Streams (StreamCommand.Create name description privacy))
        (name.now ∷ description.now ∷ [])) }
{
    Ok(Command::Streams(StreamCommand::Create {
        name: text_of(alloc, name)?,
        description: text_of(alloc, description)?,
        privacy,
    }))
}

pub(crate) fn read_stream_update(alloc: Global, words: &[&[u8]]) -> Result<Command, LineFault>
    ensures { Reads (ArgumentsSpell CommandName.StreamUpdate (pointed words.now)) result }
{
    let [stream, property, value] = *words else {
        return Err(LineFault::NotAStep);
    };
    let (Some(stream), Some(property)) = (read_stream(stream), read_name(property)) else {
        return Err(LineFault::NotAStep);
    };
    let value = read_text(alloc, value)?;
    Ok(Command::Streams(StreamCommand::Update {
        stream,
        property,
        value,
    }))
}

pub(crate) fn read_stream_privacy(words: &[&[u8]]) -> Result<Command, LineFault>
    ensures { Reads (ArgumentsSpell CommandName.StreamPrivacy (pointed words.now)) result }
{
    let [stream, privacy] = *words else {
        return Err(LineFault::NotAStep);
    };
    let (Some(stream), Some(privacy)) = (read_stream(stream), read_name(privacy)) else {
        return Err(LineFault::NotAStep);
    };
    Ok(Command::Streams(StreamCommand::SetPrivacy { stream, privacy }))
}

pub(crate) fn read_stream_archive(words: &[&[u8]]) -> Result<Command, LineFault>
    ensures { Reads (ArgumentsSpell CommandName.StreamArchive (pointed words.now)) result }
{
    let [stream] = *words else {
        return Err(LineFault::NotAStep);
    };
    let Some(stream) = read_stream(stream) else {
        return Err(LineFault::NotAStep);
    };
    Ok(Command::Streams(StreamCommand::Archive { stream }))
}

pub(crate) fn read_subscribe(words: &[&[u8]]) -> Result<Command, LineFault>
    ensures { Reads (ArgumentsSpell CommandName.Subscribe (pointed words.now)) result }
{
    let [stream, user] = *words else {
        return Err(LineFault::NotAStep);
    };
    let (Some(stream), Some(user)) = (read_stream(stream), read_user(user)) else {
        return Err(LineFault::NotAStep);
    };
    Ok(Command::Streams(StreamCommand::Subscribe { stream, user }))
}

pub(crate) fn read_unsubscribe(words: &[&[u8]]) -> Result<Command, LineFault>
    ensures { Reads (ArgumentsSpell CommandName.Unsubscribe (pointed words.now)) result }
{
    let [stream, user] = *words else {
        return Err(LineFault::NotAStep);
    };
    let (Some(stream), Some(user)) = (read_stream(stream), read_user(user)) else {
        return Err(LineFault::NotAStep);
    };
    Ok(Command::Streams(StreamCommand::Unsubscribe { stream, user }))
}

pub(crate) fn read_sub_property(alloc: Global, words: &[&[u8]]) -> Result<Command, LineFault>
    ensures { Reads (ArgumentsSpell CommandName.SubProperty (pointed words.now)) result }
{
    let [stream, property, value] = *words else {
        return Err(LineFault::NotAStep);
    };
    let (Some(stream), Some(property)) = (read_stream(stream), read_name(property)) else {
        return Err(LineFault::NotAStep);
    };
    Ok(Command::Streams(StreamCommand::SubProperty {
        stream,
        value: read_value(alloc, property, value)?,
    }))
}

/// The value of a property of a subscription.
fn read_value(alloc: Global, property: SubProperty, word: &[u8]) -> Result<SubField, LineFault>
    ensures { Reads (ValueSpells property word.now) result }
{
    match property {
        SubProperty::Color => Ok(SubField::Color(read_text(alloc, word)?)),
        SubProperty::IsMuted => match read_name(word) {
            Some(muted) => Ok(SubField::IsMuted(muted)),
            None => Err(LineFault::NotAStep),
        },
        SubProperty::PinToTop => match read_name(word) {
            Some(pinned) => Ok(SubField::PinToTop(pinned)),
            None => Err(LineFault::NotAStep),
        },
    }
}
