//! For which reasons of its own each command is refused, in the order of the rules.

ghost use Rattle.std.specs.Prelude.{◌≡◌, ◌&&◌, is_some};
ghost use Rattle.std.specs.List.{list_all, list_any};
ghost use Rattle.zr_types.specs.declared.command.Command.TheVariants.{Marks};
ghost use Rattle.zr_types.specs.declared.command.MarkCommand.TheVariants as of_marks;
ghost use Rattle.zr_types.specs.Tables.{receipt_of};
ghost use Rattle.zr_types.specs.Commands.{differs};
ghost use Rattle.zr_types.specs.Visibility.{sees_message};
ghost use Rattle.zr_types.specs.Refusals.{first_reason, own_reasons};

use crate::flagged::differs;
use crate::reactions::reaction_emoji;
use ev_base::{Flag, MessageId, PlainText, UserId};
use zr_realm::Realm;
use zr_types::Refusal;

pub fn refusal_of_flags(
    realm: &Realm,
    actor: UserId,
    add: bool,
    flag: Flag,
    messages: &[MessageId],
) -> Option<Refusal>
    ensures { result ≡ first_reason (own_reasons realm.now.state actor
        (Marks (of_marks.Flags add flag messages.now))) }
{
    if !has_all(realm, actor, messages) {
        return Some(Refusal::NoSuchMessage);
    }
    if !has_differing(realm, actor, flag, add, messages) {
        return Some(Refusal::AlreadySo);
    }
    None
}

// Whether the user sees each of the messages, and got it.
fn has_all(realm: &Realm, user: UserId, messages: &[MessageId]) -> bool
    ensures { result ≡ list_all (λ message. sees_message realm.now.state.tables user message
        && is_some (receipt_of realm.now.state.tables user message)) messages.now }
{
    messages.iter().all(|message| realm.sees_message(user, *message)
        && realm.has_receipt(user, *message))
}

// Whether the flag of one of the messages isn't so already.
fn has_differing(realm: &Realm, user: UserId, flag: Flag, add: bool, messages: &[MessageId]) -> bool
    ensures { result ≡ list_any (differs realm.now.state.tables user flag add) messages.now }
{
    messages
        .iter()
        .any(|message| differs(realm, user, flag, add, *message))
}

pub fn refusal_of_reaction_add(
    realm: &Realm,
    actor: UserId,
    message: MessageId,
    emoji: &PlainText,
) -> Option<Refusal>
    ensures { result ≡ first_reason (own_reasons realm.now.state actor
        (Marks (of_marks.ReactionAdd message emoji.now))) }
{
    if !realm.sees_message(actor, message) {
        return Some(Refusal::NoSuchMessage);
    }
    if reaction_emoji(realm, actor, message, emoji.as_str()).is_some() {
        return Some(Refusal::AlreadySo);
    }
    None
}
