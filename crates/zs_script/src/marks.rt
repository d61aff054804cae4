//! The arguments of the commands that change what users marked messages with.

ghost use Rattle.std.specs.Prelude.{◌≡◌, ℕ, List, [], ◌∷◌, IfOk};
ghost use Rattle.zs_words.specs.declared.names.CommandName.{CommandName};
ghost use Rattle.zs_words.specs.Readings.{Reads, pointed};
ghost use Rattle.zs_script.specs.Grammar.{ArgumentsSpell};

use std::alloc::Global;
use zr_types::{Command, MarkCommand};
use zs_words::{LineFault, Operation, read_message, read_messages, read_name, read_text};

pub(crate) fn read_flags(alloc: Global, words: &[&[u8]]) -> Result<Command, LineFault>
    ensures { Reads (ArgumentsSpell CommandName.Flags (pointed words.now)) result }
{
    let [operation, flag, messages] = *words else {
        return Err(LineFault::NotAStep);
    };
    let (Some(operation), Some(flag)) = (read_name::<Operation>(operation), read_name(flag)) else {
        return Err(LineFault::NotAStep);
    };
    let messages = read_messages(alloc, messages)?;
    Ok(Command::Marks(MarkCommand::Flags {
        add: operation.adds(),
        flag,
        messages,
    }))
}

pub(crate) fn read_reaction_add(alloc: Global, words: &[&[u8]]) -> Result<Command, LineFault>
    ensures { Reads (ArgumentsSpell CommandName.ReactionAdd (pointed words.now)) result }
{
    let [message, emoji] = *words else {
        return Err(LineFault::NotAStep);
    };
    let Some(message) = read_message(message) else {
        return Err(LineFault::NotAStep);
    };
    let emoji = read_text(alloc, emoji)?;
    Ok(Command::Marks(MarkCommand::ReactionAdd { message, emoji }))
}

pub(crate) fn read_reaction_remove(alloc: Global, words: &[&[u8]]) -> Result<Command, LineFault>
    ensures { Reads (ArgumentsSpell CommandName.ReactionRemove (pointed words.now)) result }
{
    let [message, emoji] = *words else {
        return Err(LineFault::NotAStep);
    };
    let Some(message) = read_message(message) else {
        return Err(LineFault::NotAStep);
    };
    let emoji = read_text(alloc, emoji)?;
    Ok(Command::Marks(MarkCommand::ReactionRemove { message, emoji }))
}
