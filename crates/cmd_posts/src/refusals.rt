//! What a command names, and for which reasons of its own it is refused, in the order of the rules.

ghost use Rattle.std.specs.Prelude.{◌≡◌, ◌==◌, false, not, option_copied};
ghost use Rattle.std.specs.List.{list_all};
ghost use Rattle.std.specs.Option.{option_map_or};
ghost use Rattle.ev_rows.specs.Rows.{only_if};
ghost use Rattle.zr_types.specs.declared.command.Command.TheVariants.{Posts};
ghost use Rattle.zr_types.specs.declared.command.Mode.{Mode};
ghost use Rattle.zr_types.specs.declared.command.PostCommand.TheVariants as of_posts;
ghost use Rattle.zr_types.specs.Commands.{stream_meant, stream_named, stream_of_place};
ghost use Rattle.zr_types.specs.Refusals.{first_reason, is_below_moderator, own_reasons};
ghost use Rattle.zr_types.specs.Tables.{message_at};
ghost use Rattle.zr_types.specs.Visibility.{is_active_user, sees_message, sees_stream};

use crate::moves::{is_at_target, stream_of};
use cmd_rules::{is_administrator, is_guest_user};
use ev_base::{MessageId, Place, PlainText, Role, StreamId, UserId};
use zr_realm::Realm;
use zr_types::{Message, Refusal, StreamRef};

/// The stream that is meant, where the user sees it.
pub fn stream_meant(realm: &Realm, user: UserId, to: &StreamRef) -> Option<StreamId>
    ensures { result ≡ stream_meant realm.now.state.tables user to.now }
{
    match to {
        StreamRef::Id(stream) => realm.sees_stream(user, *stream).then_some(*stream),
        StreamRef::Name(name) => stream_named(realm, user, name),
    }
}

// The first stream of this name that the user sees.
fn stream_named(realm: &Realm, user: UserId, name: &PlainText) -> Option<StreamId>
    ensures { result ≡ stream_named realm.now.state.tables user name.now }
{
    let rows = realm.streams().streams_rows();
    rows.iter()
        .find(|row| row.1.name.as_str() == name.as_str() && realm.sees_stream(user, row.0))
        .map(|row| row.0)
}

pub fn are_active(realm: &Realm, users: &[UserId]) -> bool
    ensures { result ≡ list_all (is_active_user realm.now.state.tables) users.now }
{
    users.iter().all(|user| realm.is_active_user(*user))
}

// The row of a message that the user sees. One that is hidden is refused as one that isn't there.
fn seen_message(realm: &Realm, user: UserId, message: MessageId) -> Option<&Message>
    ensures { option_copied result ≡ only_if (sees_message realm.now.state.tables user message)
        (message_at realm.now.state.tables message) }
{
    if !realm.sees_message(user, message) {
        return None;
    }
    realm.message(message)
}

pub fn refusal_of_edit_content(
    realm: &Realm,
    actor: UserId,
    message: MessageId,
    content: &PlainText,
) -> Option<Refusal>
    ensures { result ≡ first_reason (own_reasons realm.now.state actor
        (Posts (of_posts.EditContent message content.now))) }
{
    let Some(row) = seen_message(realm, actor, message) else {
        return Some(Refusal::NoSuchMessage);
    };
    if row.sender.0 != actor.0 {
        return Some(Refusal::NotPermitted);
    }
    if row.content.as_str() == content.as_str() {
        return Some(Refusal::AlreadySo);
    }
    None
}

pub fn refusal_of_move(
    realm: &Realm,
    actor: UserId,
    message: MessageId,
    stream: Option<StreamId>,
    topic: &Option<PlainText>,
) -> Option<Refusal>
    ensures { (mode : Mode) → result ≡ first_reason (own_reasons realm.now.state actor
        (Posts (of_posts.Move message stream topic.now mode))) }
{
    let row = seen_message(realm, actor, message);
    let leaves = row.is_some_and(|row| leaves_its_stream(row, stream));
    if is_guest_user(realm, actor) || (leaves && is_below_moderator(realm, actor)) {
        return Some(Refusal::NotPermitted);
    }
    if stream.is_some_and(|to| !realm.sees_stream(actor, to)) {
        return Some(Refusal::NoSuchStream);
    }
    let Some(row) = row else {
        return Some(Refusal::NoSuchMessage);
    };
    if stream_of(&row.place).is_none() {
        return Some(Refusal::NoSuchMessage);
    }
    if is_at_target(&row.place, stream, topic) {
        return Some(Refusal::AlreadySo);
    }
    None
}

// Whether the message is one of a stream, and this stream isn't another.
fn leaves_its_stream(row: &Message, stream: Option<StreamId>) -> bool
    ensures { result ≡ option_map_or
        (λ from. option_map_or (λ to. not (from.0 == to.0)) stream false)
        (stream_of_place row.now.place) false }
{
    match (stream_of(&row.place), stream) {
        (Some(from), Some(to)) => from.0 != to.0,
        _ => false,
    }
}

fn is_below_moderator(realm: &Realm, user: UserId) -> bool
    ensures { result ≡ is_below_moderator realm.now.state.tables user }
{
    realm
        .user(user)
        .is_some_and(|row| row.role.number() > Role::Moderator.number())
}

pub fn refusal_of_delete(realm: &Realm, actor: UserId, message: MessageId) -> Option<Refusal>
    ensures { result ≡ first_reason (own_reasons realm.now.state actor
        (Posts (of_posts.Delete message))) }
{
    let Some(row) = seen_message(realm, actor, message) else {
        return Some(Refusal::NoSuchMessage);
    };
    if row.sender.0 != actor.0 && !is_administrator(realm, actor) {
        return Some(Refusal::NotPermitted);
    }
    None
}
