//! A command is checked against a realm. What the check makes of it can be applied.

ghost use Rattle.std.specs.Prelude.{◌≡◌, ◌+◌, [], ◌∷◌, nat_lt, length, true, IfOk, OnErr};
ghost use Rattle.zr_types.specs.declared.command.Command.TheVariants.{Marks};
ghost use Rattle.zr_types.specs.declared.command.MarkCommand.TheVariants as of_marks;
ghost use Rattle.zr_types.specs.Visibility.{is_active_user};
ghost use Rattle.zr_types.specs.Refusals.{max_reactions, refusal};
ghost use Rattle.zr_types.specs.Checks.{ids_of, stored_texts};
ghost use Rattle.zr_types.specs.Commits.{IsChecked, IsCommitted, refusal_in};

use crate::flagged::{are_too_many, differing_numbers};
use crate::reactions::reaction_emoji;
use crate::refusals;
use cmd_rules::{GivenText, accept, accepted_texts, commit_change, is_past, pass_limit};
use ev_base::{Listed, MessageId, NoMemory, PlainText, Text, TextKind, UserId};
use std::alloc::Global;
use zr_realm::Realm;
use zr_types::{Change, Command, CommitFault, Committed, MarkCommand, Refusal};

// How many reactions there may be.
const MAX_REACTIONS: usize = 1_000_000;

/// What the command changes, where the actor may do it at this moment. The realm stays as it is.
pub fn check(
    alloc: Global,
    realm: &Realm,
    actor: UserId,
    moment: u64,
    command: MarkCommand,
) -> Result<Change, CommitFault>
    ensures accepted { IfOk result (λ change.
        IsChecked realm.now.state actor moment (Marks command) change) }
    ensures refused { refusal_in result ≡ refusal realm.now.state actor (Marks command) }
{
    let texts = texts_to_store(alloc, realm, actor, &command)?;
    let ids = ids_to_change(alloc, realm, actor, &command)?;
    Ok(Change {
        actor,
        moment,
        command: Command::Marks(command),
        texts,
        ids,
    })
}

/// Checks the command and makes the change. The realm stays as it is where there is none.
pub fn commit(
    alloc: Global,
    realm: &mut Realm,
    actor: UserId,
    moment: u64,
    command: MarkCommand,
) -> Result<Committed, CommitFault>
    ensures accepted { IfOk result (λ made. IsCommitted realm.old.state realm.new.state
        actor moment (Marks command) made) }
    ensures refused { refusal_in result ≡ refusal realm.old.state actor (Marks command) }
    ensures unchanged { OnErr result (realm.new.state ≡ realm.old.state) }
{
    let change = check(alloc, realm, actor, moment, command)?;
    Ok(commit_change(alloc, realm, change)?)
}

// The texts of a command that nothing refuses.
fn texts_to_store(
    alloc: Global,
    realm: &Realm,
    actor: UserId,
    command: &MarkCommand,
) -> Result<Listed<Text>, CommitFault>
    ensures accepted { IfOk result (λ texts.
        texts ≡ stored_texts realm.now.state.tables actor (Marks command.now)) }
    ensures refused { refusal_in result
        ≡ refusal realm.now.state actor (Marks command.now) }
{
    if !realm.is_active_user(actor) {
        return Err(CommitFault::Refused(Refusal::ActorUnknown));
    }
    match command {
        MarkCommand::Flags {
            add,
            flag,
            messages,
        } => {
            let named = messages.as_slice();
            let own = refusals::refusal_of_flags(realm, actor, *add, *flag, named);
            accepted_texts(alloc, realm, own, &[], are_too_many(named))
        }
        MarkCommand::ReactionAdd { message, emoji } => {
            let own = refusals::refusal_of_reaction_add(realm, actor, *message, emoji);
            let texts = [GivenText::new(TextKind::Emoji, emoji)];
            accepted_texts(alloc, realm, own, &texts, reactions_are_full(realm))
        }
        MarkCommand::ReactionRemove { message, emoji } => {
            texts_of_reaction_remove(alloc, realm, actor, *message, emoji)
        }
    }
}

// The messages whose flag a command changes that nothing refuses.
fn ids_to_change(
    alloc: Global,
    realm: &Realm,
    actor: UserId,
    command: &MarkCommand,
) -> Result<Listed<u32>, NoMemory>
    ensures { IfOk result (λ ids.
        ids ≡ ids_of realm.now.state.tables actor (Marks command.now)) }
{
    match command {
        MarkCommand::Flags {
            add,
            flag,
            messages,
        } => { differing_numbers(alloc, realm, actor, *flag, *add, messages.as_slice()) }
        MarkCommand::ReactionAdd { .. } | MarkCommand::ReactionRemove { .. } => {
            Ok(Listed::from_vec(Vec::new(alloc)))
        }
    }
}

fn reactions_are_full(realm: &Realm) -> bool
    ensures { result ≡ nat_lt max_reactions (length realm.now.state.tables.reactions + 1) }
{
    is_past(MAX_REACTIONS, realm.marks().reactions_rows().len(), 1)
}

fn texts_of_reaction_remove(
    alloc: Global,
    realm: &Realm,
    actor: UserId,
    message: MessageId,
    emoji: &PlainText,
) -> Result<Listed<Text>, CommitFault>
    requires { is_active_user realm.now.state.tables actor ≡ true }
    ensures accepted { IfOk result (λ texts. texts ≡ emoji.now ∷ []) }
    ensures refused { refusal_in result ≡ refusal realm.now.state actor
        (Marks (of_marks.ReactionRemove message emoji.now)) }
{
    let text = accept_reaction_remove(realm, actor, message, emoji)?;
    Ok(one_text(alloc, text)?)
}

// The emoji of the reaction to be removed. It was read when the reaction was added, so it is no bad
// text; its bytes count as those of any other.
fn accept_reaction_remove<'a>(
    realm: &'a Realm,
    actor: UserId,
    message: MessageId,
    emoji: &PlainText,
) -> Result<&'a Text, CommitFault>
    requires { is_active_user realm.now.state.tables actor ≡ true }
    ensures text { IfOk result (λ text. text.now ≡ emoji.now) }
    ensures refused { refusal_in result ≡ refusal realm.now.state actor
        (Marks (of_marks.ReactionRemove message emoji.now)) }
{
    if !realm.sees_message(actor, message) {
        return Err(CommitFault::Refused(Refusal::NoSuchMessage));
    }
    let Some(text) = reaction_emoji(realm, actor, message, emoji.as_str()) else {
        return Err(CommitFault::Refused(Refusal::NotSo));
    };
    let texts = [GivenText::new(TextKind::Emoji, emoji)];
    accept(realm, None, &[], pass_limit(realm.text_bytes(), &texts))?;
    Ok(text)
}

fn one_text(alloc: Global, text: &Text) -> Result<Listed<Text>, NoMemory>
    ensures { IfOk result (λ texts. texts ≡ text.now ∷ []) }
{
    let mut texts = Vec::new(alloc);
    texts.push(text.clone()?)?;
    Ok(Listed::from_vec(texts))
}
