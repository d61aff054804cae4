//! The notice of a change of messages.

ghost use Rattle.std.specs.Prelude.{◌≡◌, ◌<◌, ◌+◌, ◌^◌, ◌++◌, IfOk, length, replicate, true};
ghost use Rattle.ev_base.specs.declared.ids.UserId.{UserId};
ghost use Rattle.ev_types.specs.Audiences.{events_for};
ghost use Rattle.ev_types.specs.Changes.{changes_between};
ghost use Rattle.zr_realm.specs.Parts.{messages_of, texts_by_ids};
ghost use Rattle.zr_types.specs.Checks.{IsChangeOf, WasChecked};
ghost use Rattle.zr_types.specs.Effects.{after_command, sends};
ghost use Rattle.zr_types.specs.declared.command.Command.{Command};
ghost use Rattle.zw_traces.specs.RealmTrace.{deactivated_by};
ghost use Rattle.zw_views.specs.Views.{view_of};
ghost use Rattle.nt_rules.specs.Kinds.{is_of_posts};
ghost use Rattle.nt_posts.specs.PostParts.{moves_from, parts_of_moves, post_parts};

use crate::rows::{push_deleted, push_edited};
use crate::sent::{Author, push_direct_message, push_stream_message};
use ev_base::{Listed, MessageId, NoMemory, Place, PlainText, StreamId, Text};
use ev_types::{Notice, Part};
use nt_moves::Move;
use std::alloc::Global;
use zr_realm::{Realm, tables_are_sorted, tables_are_sound};
use zr_types::{Change, Command, PostCommand, StreamRef};

/// Tells each user number what a change of messages will change in its view. The change was made by
/// a check on this realm.
pub fn notice(alloc: Global, before: &Realm, change: &Change) -> Result<Notice, NoMemory>
    requires posts { is_of_posts change.now.command ≡ true }
    requires checked { WasChecked before.now.state change.now }
    ensures number { IfOk result (λ notice. notice.number ≡ before.now.state.commits + 1) }
    ensures ends { IfOk result (λ notice. notice.ends ≡ deactivated_by change.now.command) }
    ensures tells { (command : Command) → IsChangeOf before.now.state command change.now
        → IfOk result (λ notice. (user : UserId) → events_for user notice
        ≡ changes_between (view_of before.now.state.tables user) (view_of (after_command
        change.now.actor change.now.moment command before.now.state).tables user)) }
{
    tables_are_sorted(before);
    tables_are_sound(before);
    let Command::Posts(command) = &change.command else {
        unreachable!()
    };
    let author = Author {
        actor: change.actor,
        moment: change.moment,
        sent: before.sent(),
    };
    let (texts, ids) = (change.texts.as_slice(), change.ids.as_slice());
    let parts = post_parts(alloc, before, author, command, texts, ids)?;
    Ok(Notice {
        number: before.commits() + 1,
        ends: None,
        parts: Listed::from_vec(parts),
    })
}

fn post_parts(
    alloc: Global,
    realm: &Realm,
    author: Author,
    command: &PostCommand,
    texts: &[Text],
    ids: &[u32],
) -> Result<Vec<Part>, NoMemory>
    requires texts { texts.now ≡ texts_by_ids (Command.Posts command.now) ids.now }
    requires number { 0 < sends (Command.Posts command.now) → author.sent + 1 < 2 ^ 32 }
    ensures { IfOk result (λ parts. parts.items ≡ post_parts realm.now.state.tables author.actor
        author.moment (record { 0 = author.sent + 1 }) command.now ids.now) }
{
    let mut parts = Vec::new(alloc);
    match command {
        PostCommand::SendStream {
            to: StreamRef::Id(stream),
            ..
        } => push_stream_message(author, *stream, &texts[0], &texts[1], ids, &mut parts)?,
        // A check replaces each name by its stream's number.
        PostCommand::SendStream {
            to: StreamRef::Name(_),
            ..
        } => {}
        PostCommand::SendDm { users, .. } => {
            push_direct_message(author, users, &texts[0], ids, &mut parts)?
        }
        PostCommand::EditContent { message, .. } => {
            push_edited(realm, *message, &texts[0], &mut parts)?
        }
        PostCommand::Move {
            message,
            stream: Some(stream),
            topic: Some(topic),
            ..
        } => push_moves(realm, *message, *stream, topic, texts, ids, &mut parts)?,
        // A check gives both parts of the place.
        PostCommand::Move { .. } => {}
        PostCommand::Delete { message } => push_deleted(realm, *message, &mut parts)?,
    }
    Ok(parts)
}

// The new topic comes once for each message that moves.
fn push_moves(
    realm: &Realm,
    message: MessageId,
    stream: StreamId,
    topic: &PlainText,
    topics: &[Text],
    ids: &[u32],
    parts: &mut Vec<Part>,
) -> Result<(), NoMemory>
    requires { topics.now ≡ replicate (length ids.now) topic.now }
    ensures { IfOk result (λ _. parts.new.items ≡ parts.old.items
        ++ parts_of_moves realm.now.state.tables message stream topic.now (messages_of ids.now)) }
{
    let Some(topic) = topics.first() else {
        return Ok(());
    };
    let moved = messages_of(*parts.allocator(), ids)?;
    push_moves_from(realm, message, stream, topic, &moved, parts)
}

fn messages_of(alloc: Global, ids: &[u32]) -> Result<Vec<MessageId>, NoMemory>
    ensures { IfOk result (λ messages. messages.items ≡ messages_of ids.now) }
{
    Ok(ids.iter().map(|number| MessageId(*number)).collect(alloc)?)
}

// They move from where the named one stands.
fn push_moves_from(
    realm: &Realm,
    message: MessageId,
    stream: StreamId,
    topic: &Text,
    moved: &[MessageId],
    parts: &mut Vec<Part>,
) -> Result<(), NoMemory>
    ensures { IfOk result (λ _. parts.new.items ≡ parts.old.items
        ++ moves_from realm.now.state.tables message stream topic.now moved.now) }
{
    let Some(row) = realm.message(message) else {
        return Ok(());
    };
    let Place::Stream { stream: from, .. } = &row.place else {
        return Ok(());
    };
    let moves = Move {
        from: *from,
        into: stream,
        topic,
        moved,
    };
    nt_moves::push_moves(realm, &moves, parts)
}
