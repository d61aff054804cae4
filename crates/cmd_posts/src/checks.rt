//! A command is checked against a realm. What the check makes of it can be applied.

ghost use Rattle.std.specs.Prelude.{◌≡◌, IfOk, OnErr, true};
ghost use Rattle.zr_types.specs.declared.command.Command.TheVariants.{Posts};
ghost use Rattle.zr_types.specs.declared.command.Mode.{Mode};
ghost use Rattle.zr_types.specs.declared.command.PostCommand.TheVariants as of_posts;
ghost use Rattle.zr_types.specs.Commands.{distinct_users, stream_meant};
ghost use Rattle.zr_types.specs.Visibility.{is_active_user};
ghost use Rattle.zr_types.specs.Refusals.{refusal};
ghost use Rattle.zr_types.specs.Commits.{IsChecked, IsCommitted, refusal_in};
ghost use Rattle.cmd_posts.specs.Resolved.{IsResolved};

use crate::moves::{given_topic, moving, stream_of_message, topic_moved, topics};
use crate::receivers::{is_past_direct, is_past_stream, numbers, stream_receivers, with_sender};
use crate::refusals::{self, are_active, stream_meant};
use cmd_rules::{GivenText, accept, accepted_texts, commit_change, distinct, read_texts};
use ev_base::{Listed, MessageId, PlainText, StreamId, Text, TextKind, UserId};
use std::alloc::Global;
use zr_realm::Realm;
use zr_types::{Change, Command, CommitFault, Committed, Mode, PostCommand, Refusal, StreamRef};

/// What the command changes, where the actor may do it at this moment. The realm stays as it is.
pub fn check(
    alloc: Global,
    realm: &Realm,
    actor: UserId,
    moment: u64,
    command: PostCommand,
) -> Result<Change, CommitFault>
    ensures accepted { IfOk result (λ change.
        IsChecked realm.now.state actor moment (Posts command) change) }
    ensures refused { refusal_in result ≡ refusal realm.now.state actor (Posts command) }
{
    let made = resolve(alloc, realm, actor, command)?;
    Ok(Change {
        actor,
        moment,
        command: Command::Posts(made.command),
        texts: made.texts,
        ids: made.ids,
    })
}

/// Checks the command and makes the change. The realm stays as it is where there is none.
pub fn commit(
    alloc: Global,
    realm: &mut Realm,
    actor: UserId,
    moment: u64,
    command: PostCommand,
) -> Result<Committed, CommitFault>
    ensures accepted { IfOk result (λ made. IsCommitted realm.old.state realm.new.state
        actor moment (Posts command) made) }
    ensures refused { refusal_in result ≡ refusal realm.old.state actor (Posts command) }
    ensures unchanged { OnErr result (realm.new.state ≡ realm.old.state) }
{
    let change = check(alloc, realm, actor, moment, command)?;
    Ok(commit_change(alloc, realm, change)?)
}

/// A command with what it names found, the texts that it stores, and those whom it concerns.
#[derive(Drop)]
pub struct Resolved {
    command: PostCommand,
    texts: Listed<Text>,
    ids: Listed<u32>,
}

// What is made of a command that nothing refuses.
fn resolve(
    alloc: Global,
    realm: &Realm,
    actor: UserId,
    command: PostCommand,
) -> Result<Resolved, CommitFault>
    ensures accepted { IfOk result (IsResolved realm.now.state.tables actor command) }
    ensures refused { refusal_in result ≡ refusal realm.now.state actor (Posts command) }
{
    if !realm.is_active_user(actor) {
        return Err(CommitFault::Refused(Refusal::ActorUnknown));
    }
    match command {
        PostCommand::SendStream { to, topic, content } => {
            send_stream(alloc, realm, actor, to, topic, content)
        }
        PostCommand::SendDm { users, content } => send_dm(alloc, realm, actor, users, content),
        PostCommand::EditContent { message, content } => {
            edit_content(alloc, realm, actor, message, content)
        }
        PostCommand::Move {
            message,
            stream,
            topic,
            mode,
        } => move_messages(alloc, realm, actor, message, stream, topic, mode),
        PostCommand::Delete { message } => delete(alloc, realm, actor, message),
    }
}

fn send_stream(
    alloc: Global,
    realm: &Realm,
    actor: UserId,
    to: StreamRef,
    topic: PlainText,
    content: PlainText,
) -> Result<Resolved, CommitFault>
    requires { is_active_user realm.now.state.tables actor ≡ true }
    ensures accepted { IfOk result (IsResolved realm.now.state.tables actor
        (of_posts.SendStream to topic content)) }
    ensures refused { refusal_in result ≡ refusal realm.now.state actor
        (Posts (of_posts.SendStream to topic content)) }
{
    let stream = accept_send_stream(realm, actor, &to, &topic, &content)?;
    let texts = [
        GivenText::new(TextKind::Topic, &topic),
        GivenText::new(TextKind::Content, &content),
    ];
    let texts = read_texts(alloc, &texts)?;
    let ids = stream_receivers(alloc, realm, actor, stream)?;
    let to = StreamRef::Id(stream);
    Ok(Resolved {
        command: PostCommand::SendStream { to, topic, content },
        texts,
        ids,
    })
}

// The stream of a message that nothing refuses.
fn accept_send_stream(
    realm: &Realm,
    actor: UserId,
    to: &StreamRef,
    topic: &PlainText,
    content: &PlainText,
) -> Result<StreamId, CommitFault>
    requires { is_active_user realm.now.state.tables actor ≡ true }
    ensures accepted { IfOk result (λ stream.
        stream_meant realm.now.state.tables actor to.now ≡ Some stream) }
    ensures refused { refusal_in result ≡ refusal realm.now.state actor
        (Posts (of_posts.SendStream to.now topic.now content.now)) }
{
    let Some(stream) = stream_meant(realm, actor, to) else {
        return Err(CommitFault::Refused(Refusal::NoSuchStream));
    };
    let texts = [
        GivenText::new(TextKind::Topic, topic),
        GivenText::new(TextKind::Content, content),
    ];
    accept(realm, None, &texts, is_past_stream(realm, actor, stream))?;
    Ok(stream)
}

fn send_dm(
    alloc: Global,
    realm: &Realm,
    actor: UserId,
    users: Listed<UserId>,
    content: PlainText,
) -> Result<Resolved, CommitFault>
    requires { is_active_user realm.now.state.tables actor ≡ true }
    ensures accepted { IfOk result (IsResolved realm.now.state.tables actor
        (of_posts.SendDm users content)) }
    ensures refused { refusal_in result ≡ refusal realm.now.state actor
        (Posts (of_posts.SendDm users content)) }
{
    let named = accept_send_dm(realm, actor, users, &content)?;
    let texts = read_texts(alloc, &[GivenText::new(TextKind::Content, &content)])?;
    let recipients = with_sender(named, actor)?;
    let ids = numbers(alloc, &recipients)?;
    let users = Listed::from_vec(recipients);
    Ok(Resolved {
        command: PostCommand::SendDm { users, content },
        texts,
        ids,
    })
}

// The distinct users that a direct message names which nothing refuses.
fn accept_send_dm(
    realm: &Realm,
    actor: UserId,
    users: Listed<UserId>,
    content: &PlainText,
) -> Result<Vec<UserId>, CommitFault>
    requires { is_active_user realm.now.state.tables actor ≡ true }
    ensures accepted { IfOk result (λ named. named.items ≡ distinct_users users) }
    ensures refused { refusal_in result ≡ refusal realm.now.state actor
        (Posts (of_posts.SendDm users content.now)) }
{
    if !are_active(realm, users.as_slice()) {
        return Err(CommitFault::Refused(Refusal::NoSuchUser));
    }
    let named = distinct(users.into_vec());
    let texts = [GivenText::new(TextKind::Content, content)];
    accept(realm, None, &texts, is_past_direct(realm, actor, &named))?;
    Ok(named)
}

fn edit_content(
    alloc: Global,
    realm: &Realm,
    actor: UserId,
    message: MessageId,
    content: PlainText,
) -> Result<Resolved, CommitFault>
    requires { is_active_user realm.now.state.tables actor ≡ true }
    ensures accepted { IfOk result (IsResolved realm.now.state.tables actor
        (of_posts.EditContent message content)) }
    ensures refused { refusal_in result ≡ refusal realm.now.state actor
        (Posts (of_posts.EditContent message content)) }
{
    let own = refusals::refusal_of_edit_content(realm, actor, message, &content);
    let texts = [GivenText::new(TextKind::Content, &content)];
    let texts = accepted_texts(alloc, realm, own, &texts, false)?;
    Ok(Resolved {
        command: PostCommand::EditContent { message, content },
        texts,
        ids: Listed::from_vec(Vec::new(alloc)),
    })
}

fn move_messages(
    alloc: Global,
    realm: &Realm,
    actor: UserId,
    message: MessageId,
    stream: Option<StreamId>,
    topic: Option<PlainText>,
    mode: Mode,
) -> Result<Resolved, CommitFault>
    requires { is_active_user realm.now.state.tables actor ≡ true }
    ensures accepted { IfOk result (IsResolved realm.now.state.tables actor
        (of_posts.Move message stream topic mode)) }
    ensures refused { refusal_in result ≡ refusal realm.now.state actor
        (Posts (of_posts.Move message stream topic mode)) }
{
    accept_move(realm, actor, message, stream, &topic)?;
    let topic = given_topic(alloc, realm, message, topic)?;
    let ids = moving(alloc, realm, message, mode)?;
    let texts = topics(alloc, &topic, ids.len())?;
    Ok(Resolved {
        command: PostCommand::Move {
            message,
            stream: stream.or(stream_of_message(realm, message)),
            topic: Some(topic),
            mode,
        },
        texts,
        ids,
    })
}

fn accept_move(
    realm: &Realm,
    actor: UserId,
    message: MessageId,
    stream: Option<StreamId>,
    topic: &Option<PlainText>,
) -> Result<(), CommitFault>
    requires { is_active_user realm.now.state.tables actor ≡ true }
    ensures { (mode : Mode) → refusal_in result ≡ refusal realm.now.state actor
        (Posts (of_posts.Move message stream topic.now mode)) }
{
    let own = refusals::refusal_of_move(realm, actor, message, stream, topic);
    let moved = GivenText {
        kind: TextKind::Topic,
        text: topic_moved(realm, message, topic),
    };
    accept(realm, own, &[moved], false)
}

fn delete(
    alloc: Global,
    realm: &Realm,
    actor: UserId,
    message: MessageId,
) -> Result<Resolved, CommitFault>
    requires { is_active_user realm.now.state.tables actor ≡ true }
    ensures accepted { IfOk result (IsResolved realm.now.state.tables actor
        (of_posts.Delete message)) }
    ensures refused { refusal_in result ≡ refusal realm.now.state actor
        (Posts (of_posts.Delete message)) }
{
    let own = refusals::refusal_of_delete(realm, actor, message);
    let texts = accepted_texts(alloc, realm, own, &[], false)?;
    Ok(Resolved {
        command: PostCommand::Delete { message },
        texts,
        ids: Listed::from_vec(Vec::new(alloc)),
    })
}
