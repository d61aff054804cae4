//! What requests ask of flags and reactions.

ghost use Rattle.std.specs.Prelude.{◌≡◌};
ghost use Rattle.hw_routes.specs.Marks as spec;
ghost use Rattle.hw_values.specs.Readings.{Gives};

use crate::actions::MarkAction;
use crate::alternatives::path_message;
use ev_base::{Flag, Listed, MessageId, PlainText};
use hw_values::{Form, Param, ValueFault};
use std::alloc::Global;
use zr_types::MarkCommand;
use zs_words::Operation;

pub fn mark_command(
    alloc: Global,
    action: MarkAction,
    path: &[u8],
    form: &Form,
) -> Result<MarkCommand, ValueFault>
    ensures { Gives result (spec.mark_command action path.now form.now) }
{
    match action {
        MarkAction::ChangeFlags => change_flags(alloc, form),
        MarkAction::AddReaction => add_reaction(alloc, path, form),
        MarkAction::RemoveReaction => remove_reaction(alloc, path, form),
    }
}

#[tactic(auto, unfolding(crate::specs::Marks::change_flags))]
fn change_flags(alloc: Global, form: &Form) -> Result<MarkCommand, ValueFault>
    ensures { Gives result (spec.change_flags form.now) }
{
    let messages = form.needed::<Listed<MessageId>>(alloc, Param::Messages)?;
    let operation = form.needed::<Operation>(alloc, Param::Operation)?;
    let flag = form.needed::<Flag>(alloc, Param::Flag)?;
    Ok(MarkCommand::Flags {
        add: operation.adds(),
        flag,
        messages,
    })
}

#[tactic(auto, unfolding(crate::specs::Marks::add_reaction))]
fn add_reaction(alloc: Global, path: &[u8], form: &Form) -> Result<MarkCommand, ValueFault>
    ensures { Gives result (spec.add_reaction path.now form.now) }
{
    let message = path_message(path)?;
    let emoji = form.needed::<PlainText>(alloc, Param::EmojiName)?;
    Ok(MarkCommand::ReactionAdd { message, emoji })
}

#[tactic(auto, unfolding(crate::specs::Marks::remove_reaction))]
fn remove_reaction(alloc: Global, path: &[u8], form: &Form) -> Result<MarkCommand, ValueFault>
    ensures { Gives result (spec.remove_reaction path.now form.now) }
{
    let message = path_message(path)?;
    let emoji = form.needed::<PlainText>(alloc, Param::EmojiName)?;
    Ok(MarkCommand::ReactionRemove { message, emoji })
}
