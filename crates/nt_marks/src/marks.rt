//! The notice of a change of flags and reactions.

ghost use Rattle.std.specs.Prelude.{◌≡◌, ◌+◌, ◌++◌, IfOk, true};
ghost use Rattle.ev_base.specs.declared.ids.UserId.{UserId};
ghost use Rattle.ev_types.specs.Audiences.{events_for};
ghost use Rattle.ev_types.specs.Changes.{changes_between};
ghost use Rattle.ev_types.specs.declared.event.Event.{Event};
ghost use Rattle.zr_realm.specs.Parts.{messages_of};
ghost use Rattle.zr_types.specs.Checks.{IsChangeOf, WasChecked};
ghost use Rattle.zr_types.specs.Effects.{after_command};
ghost use Rattle.zr_types.specs.declared.command.Command.{Command};
ghost use Rattle.zw_traces.specs.RealmTrace.{deactivated_by};
ghost use Rattle.zw_views.specs.Views.{view_of};
ghost use Rattle.nt_rules.specs.Kinds.{is_of_marks};
ghost use Rattle.nt_marks.specs.MarkParts.{mark_parts, reaction_parts, texts_in};

use crate::flags::push_flags;
use ev_base::{Listed, MessageId, NoMemory, Text, UserId};
use ev_types::{Event, Notice, Part};
use nt_parts::push_to_readers;
use std::alloc::Global;
use zr_realm::{Realm, tables_are_sorted};
use zr_types::{Change, Command, MarkCommand};

/// Tells each user number what a change of flags or reactions will change in its view. The change
/// was made by a check on this realm.
pub fn notice(alloc: Global, before: &Realm, change: &Change) -> Result<Notice, NoMemory>
    requires marks { is_of_marks change.now.command ≡ true }
    requires checked { WasChecked before.now.state change.now }
    ensures number { IfOk result (λ notice. notice.number ≡ before.now.state.commits + 1) }
    ensures ends { IfOk result (λ notice. notice.ends ≡ deactivated_by change.now.command) }
    ensures tells { (command : Command) → IsChangeOf before.now.state command change.now
        → IfOk result (λ notice. (user : UserId) → events_for user notice
        ≡ changes_between (view_of before.now.state.tables user) (view_of (after_command
        change.now.actor change.now.moment command before.now.state).tables user)) }
{
    tables_are_sorted(before);
    let Command::Marks(command) = &change.command else {
        unreachable!()
    };
    let texts = change.texts.as_slice();
    let numbers = change.ids.as_slice();
    let parts = mark_parts(alloc, before, change.actor, command, texts, numbers)?;
    Ok(Notice {
        number: before.commits() + 1,
        ends: None,
        parts: Listed::from_vec(parts),
    })
}

fn mark_parts(
    alloc: Global,
    realm: &Realm,
    actor: UserId,
    command: &MarkCommand,
    texts: &[Text],
    numbers: &[u32],
) -> Result<Vec<Part>, NoMemory>
    requires { texts.now ≡ texts_in command.now }
    ensures { IfOk result (λ parts. parts.items
        ≡ mark_parts realm.now.state.tables actor (messages_of numbers.now) command.now) }
{
    let mut parts = Vec::new(alloc);
    match command {
        MarkCommand::Flags { add, flag, .. } => {
            push_flags(realm, actor, *flag, *add, numbers, &mut parts)?
        }
        MarkCommand::ReactionAdd { message, .. } => {
            push_reaction_added(realm, actor, *message, &texts[0], &mut parts)?
        }
        MarkCommand::ReactionRemove { message, .. } => {
            push_reaction_removed(realm, actor, *message, &texts[0], &mut parts)?
        }
    }
    Ok(parts)
}

fn push_reaction_added(
    realm: &Realm,
    user: UserId,
    message: MessageId,
    emoji: &Text,
    parts: &mut Vec<Part>,
) -> Result<(), NoMemory>
    ensures { IfOk result (λ _. parts.new.items ≡ parts.old.items ++ reaction_parts
        realm.now.state.tables message (Event.ReactionAdd message user emoji.now)) }
{
    let emoji = emoji.clone()?;
    push_to_readers(
        realm,
        message,
        Event::ReactionAdd {
            message,
            user,
            emoji,
        },
        parts,
    )
}

fn push_reaction_removed(
    realm: &Realm,
    user: UserId,
    message: MessageId,
    emoji: &Text,
    parts: &mut Vec<Part>,
) -> Result<(), NoMemory>
    ensures { IfOk result (λ _. parts.new.items ≡ parts.old.items ++ reaction_parts
        realm.now.state.tables message (Event.ReactionRemove message user emoji.now)) }
{
    let emoji = emoji.clone()?;
    push_to_readers(
        realm,
        message,
        Event::ReactionRemove {
            message,
            user,
            emoji,
        },
        parts,
    )
}
