//! For which reasons of its own each command is refused, in the order of the rules.

ghost use Rattle.std.specs.Prelude.{◌≡◌, ℕ, bytes_eq, false, List};
ghost use Rattle.std.specs.Option.{option_map_or};
ghost use Rattle.zr_types.specs.declared.command.Command.TheVariants.{Streams};
ghost use Rattle.zr_types.specs.declared.command.StreamCommand.TheVariants as of_streams;
ghost use Rattle.zr_types.specs.Tables.{stream_at, subscription_of};
ghost use Rattle.zr_types.specs.Refusals.{first_reason, has_sub_field, is_taken, is_taken_by, own_reasons, same_privacy, stream_field};

use cmd_rules::{is_administrator, is_guest_user, may_change};
use ev_base::{PlainText, Privacy, StreamId, UserId};
use zr_realm::Realm;
use zr_types::{NameField, Refusal, SubField};

pub fn refusal_of_create(realm: &Realm, actor: UserId, name: &PlainText) -> Option<Refusal>
    ensures { (description : List ℕ) (privacy : Privacy) → result ≡ first_reason
        (own_reasons realm.now.state actor
        (Streams (of_streams.Create name.now description privacy))) }
{
    if is_guest_user(realm, actor) {
        return Some(Refusal::NotPermitted);
    }
    if is_taken(realm, None, name) {
        return Some(Refusal::NameTaken);
    }
    None
}

// Whether an unarchived stream has the name, other than the stream `but`.
fn is_taken(realm: &Realm, but: Option<StreamId>, name: &PlainText) -> bool
    ensures { result ≡ is_taken realm.now.state.tables but name.now }
{
    let rows = realm.streams().streams_rows();
    rows.iter().any(|row| {
        !row.1.archived
            && row.1.name.as_str() == name.as_str()
            && !but.is_some_and(|stream| stream.0 == row.0.0)
    })
}

fn is_taken_by(realm: &Realm, property: NameField, stream: StreamId, value: &PlainText) -> bool
    ensures { result ≡ is_taken_by realm.now.state.tables property stream value.now }
{
    match property {
        NameField::Name => is_taken(realm, Some(stream), value),
        NameField::Description => false,
    }
}

pub fn refusal_of_update(
    realm: &Realm,
    actor: UserId,
    stream: StreamId,
    property: NameField,
    value: &PlainText,
) -> Option<Refusal>
    ensures { result ≡ first_reason (own_reasons realm.now.state actor
        (Streams (of_streams.Update stream property value.now))) }
{
    if !is_administrator(realm, actor) {
        return Some(Refusal::NotPermitted);
    }
    if !realm.sees_stream(actor, stream) {
        return Some(Refusal::NoSuchStream);
    }
    if is_taken_by(realm, property, stream, value) {
        return Some(Refusal::NameTaken);
    }
    if has_value(realm, stream, property, value) {
        return Some(Refusal::AlreadySo);
    }
    None
}

// Whether the stream's field has the value.
fn has_value(realm: &Realm, stream: StreamId, property: NameField, value: &PlainText) -> bool
    ensures { result ≡ option_map_or
        (λ row. bytes_eq (stream_field realm.now.state.tables property row) value.now)
        (stream_at realm.now.state.tables stream) false }
{
    let Some(row) = realm.stream(stream) else {
        return false;
    };
    match property {
        NameField::Name => row.name.as_str() == value.as_str(),
        NameField::Description => row.description.as_str() == value.as_str(),
    }
}

pub fn refusal_of_set_privacy(
    realm: &Realm,
    actor: UserId,
    stream: StreamId,
    privacy: Privacy,
) -> Option<Refusal>
    ensures { result ≡ first_reason (own_reasons realm.now.state actor
        (Streams (of_streams.SetPrivacy stream privacy))) }
{
    if !is_administrator(realm, actor) {
        return Some(Refusal::NotPermitted);
    }
    if !realm.sees_stream(actor, stream) {
        return Some(Refusal::NoSuchStream);
    }
    if has_privacy(realm, stream, privacy) {
        return Some(Refusal::AlreadySo);
    }
    None
}

fn has_privacy(realm: &Realm, stream: StreamId, privacy: Privacy) -> bool
    ensures { result ≡ option_map_or
        (λ row. same_privacy realm.now.state.tables row.privacy privacy)
        (stream_at realm.now.state.tables stream) false }
{
    let Some(row) = realm.stream(stream) else {
        return false;
    };
    row.privacy == privacy
}

pub fn refusal_of_archive(realm: &Realm, actor: UserId, stream: StreamId) -> Option<Refusal>
    ensures { result ≡ first_reason (own_reasons realm.now.state actor
        (Streams (of_streams.Archive stream))) }
{
    if !is_administrator(realm, actor) {
        return Some(Refusal::NotPermitted);
    }
    if !realm.sees_stream(actor, stream) {
        return Some(Refusal::NoSuchStream);
    }
    None
}

pub fn refusal_of_subscribe(
    realm: &Realm,
    actor: UserId,
    stream: StreamId,
    user: UserId,
) -> Option<Refusal>
    ensures { result ≡ first_reason (own_reasons realm.now.state actor
        (Streams (of_streams.Subscribe stream user))) }
{
    if is_guest_user(realm, actor) && actor.0 != user.0 {
        return Some(Refusal::NotPermitted);
    }
    if !realm.is_active_user(user) {
        return Some(Refusal::NoSuchUser);
    }
    if !realm.sees_stream(actor, stream) {
        return Some(Refusal::NoSuchStream);
    }
    if realm.is_subscribed(user, stream) {
        return Some(Refusal::AlreadySo);
    }
    None
}

pub fn refusal_of_unsubscribe(
    realm: &Realm,
    actor: UserId,
    stream: StreamId,
    user: UserId,
) -> Option<Refusal>
    ensures { result ≡ first_reason (own_reasons realm.now.state actor
        (Streams (of_streams.Unsubscribe stream user))) }
{
    if !may_change(realm, actor, user) {
        return Some(Refusal::NotPermitted);
    }
    if !realm.is_active_user(user) {
        return Some(Refusal::NoSuchUser);
    }
    if !realm.sees_stream(actor, stream) {
        return Some(Refusal::NoSuchStream);
    }
    if !realm.is_subscribed(user, stream) {
        return Some(Refusal::NotSo);
    }
    None
}

pub fn refusal_of_sub_property(
    realm: &Realm,
    actor: UserId,
    stream: StreamId,
    value: &SubField,
) -> Option<Refusal>
    ensures { result ≡ first_reason (own_reasons realm.now.state actor
        (Streams (of_streams.SubProperty stream value.now))) }
{
    if !realm.sees_stream(actor, stream) {
        return Some(Refusal::NoSuchStream);
    }
    if has_sub_field(realm, actor, stream, value) {
        return Some(Refusal::AlreadySo);
    }
    if !realm.is_subscribed(actor, stream) {
        return Some(Refusal::NotSo);
    }
    None
}

// Whether the user's subscription has the value.
fn has_sub_field(realm: &Realm, user: UserId, stream: StreamId, value: &SubField) -> bool
    ensures { result ≡ option_map_or (has_sub_field realm.now.state.tables value.now)
        (subscription_of realm.now.state.tables user stream) false }
{
    let Some(row) = realm.subscription(user, stream) else {
        return false;
    };
    match value {
        SubField::Color(color) => color.as_str() == row.color.as_str(),
        SubField::IsMuted(is_muted) => *is_muted == row.is_muted,
        SubField::PinToTop(pin_to_top) => *pin_to_top == row.pin_to_top,
    }
}
