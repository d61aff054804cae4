//! What a command of streams turns.

ghost use Rattle.std.specs.Prelude.{◌≡◌, ◌<◌, ◌+◌, ◌^◌, IfOk, Some, option_map, length};
ghost use Rattle.zr_realm.specs.Room.{new_streams};
ghost use Rattle.zr_types.specs.declared.command.Command.{Command};
ghost use Rattle.zr_types.specs.Effects.{new_subscription, next_stream, stream_with, subscription_with};
ghost use Rattle.zr_types.specs.Tables.{stream_at, subscription_of};
ghost use Rattle.nt_streams.specs.StreamParts.{color_in, texts_in};
ghost use Rattle.nt_streams.specs.Turned.{archived, in_privacy, new_row, new_turn, own_turn, row_turn, turn_of};

use ev_base::{ExactClone, NoMemory, Privacy, StreamId, Text, UserId};
use zr_realm::Realm;
use zr_types::{NameField, Stream, StreamCommand, SubField, Subscription};

/// One stream's row and one user's subscription to it, as they are afterwards.
#[derive(Debug, Drop)]
pub struct Turn {
    pub stream: StreamId,
    pub row: Option<Stream>,
    pub user: UserId,
    pub subscription: Option<Subscription>,
}

/// What an actor's command turns, with its texts.
pub fn turn_of(
    realm: &Realm,
    actor: UserId,
    command: &StreamCommand,
    texts: &[Text],
) -> Result<Turn, NoMemory>
    requires texts { texts.now ≡ texts_in realm.now.state.tables actor command.now }
    requires number { 0 < new_streams (Command.Streams command.now)
        → length realm.now.state.tables.streams + 1 < 2 ^ 32 }
    ensures { IfOk result (λ turn. turn ≡ turn_of realm.now.state.tables actor command.now) }
{
    match command {
        StreamCommand::Create { privacy, .. } => {
            created(realm, actor, &texts[0], &texts[1], *privacy, &texts[2])
        }
        StreamCommand::Update {
            stream,
            property,
            ..
        } => renamed(realm, actor, *stream, *property, &texts[0]),
        StreamCommand::SetPrivacy { stream, privacy } => {
            with_privacy(realm, actor, *stream, *privacy)
        }
        StreamCommand::Archive { stream } => archived(realm, actor, *stream),
        StreamCommand::Subscribe { stream, user } => {
            subscribed(realm, *user, *stream, &texts[0])
        }
        StreamCommand::Unsubscribe { stream, user } => own_turn(realm, *user, *stream, None),
        StreamCommand::SubProperty { stream, value } => {
            with_property(realm, actor, *stream, value, texts)
        }
    }
}

// A new stream, to which the actor subscribes.
fn created(
    realm: &Realm,
    actor: UserId,
    name: &Text,
    description: &Text,
    privacy: Privacy,
    color: &Text,
) -> Result<Turn, NoMemory>
    requires number { length realm.now.state.tables.streams + 1 < 2 ^ 32 }
    requires color { color.now ≡ new_subscription.color }
    ensures { IfOk result (λ turn. turn ≡ new_turn realm.now.state.tables actor
        (new_row name.now description.now privacy)) }
{
    let row = new_row(name, description, privacy)?;
    Ok(Turn {
        stream: next_stream(realm),
        row: Some(row),
        user: actor,
        subscription: Some(new_subscription(color)?),
    })
}

// The number of the next stream.
fn next_stream(realm: &Realm) -> StreamId
    requires { length realm.now.state.tables.streams + 1 < 2 ^ 32 }
    ensures { result ≡ next_stream realm.now.state.tables }
{
    StreamId(realm.streams().streams_rows().len() as u32 + 1)
}

// A new stream, which isn't archived.
fn new_row(name: &Text, description: &Text, privacy: Privacy) -> Result<Stream, NoMemory>
    ensures { IfOk result (λ row. row ≡ new_row name.now description.now privacy) }
{
    Ok(Stream {
        name: name.clone()?,
        description: description.clone()?,
        privacy,
        archived: false,
    })
}

fn new_subscription(color: &Text) -> Result<Subscription, NoMemory>
    requires { color.now ≡ new_subscription.color }
    ensures { IfOk result (λ own. own ≡ new_subscription) }
{
    Ok(Subscription {
        color: color.clone()?,
        is_muted: false,
        pin_to_top: false,
    })
}

fn renamed(
    realm: &Realm,
    actor: UserId,
    stream: StreamId,
    property: NameField,
    value: &Text,
) -> Result<Turn, NoMemory>
    ensures { IfOk result (λ turn. turn ≡ row_turn realm.now.state.tables actor stream
        (option_map (stream_with property value.now) (stream_at realm.now.state.tables stream))) }
{
    let Some(mut row) = row_of(realm, stream)? else {
        return row_turn(realm, actor, stream, None);
    };
    match property {
        NameField::Name => row.name = value.clone()?,
        NameField::Description => row.description = value.clone()?,
    }
    row_turn(realm, actor, stream, Some(row))
}

fn with_privacy(
    realm: &Realm,
    actor: UserId,
    stream: StreamId,
    privacy: Privacy,
) -> Result<Turn, NoMemory>
    ensures { IfOk result (λ turn. turn ≡ row_turn realm.now.state.tables actor stream
        (option_map (in_privacy privacy) (stream_at realm.now.state.tables stream))) }
{
    let Some(mut row) = row_of(realm, stream)? else {
        return row_turn(realm, actor, stream, None);
    };
    row.privacy = privacy;
    row_turn(realm, actor, stream, Some(row))
}

fn archived(realm: &Realm, actor: UserId, stream: StreamId) -> Result<Turn, NoMemory>
    ensures { IfOk result (λ turn. turn ≡ row_turn realm.now.state.tables actor stream
        (option_map archived (stream_at realm.now.state.tables stream))) }
{
    let Some(mut row) = row_of(realm, stream)? else {
        return row_turn(realm, actor, stream, None);
    };
    row.archived = true;
    row_turn(realm, actor, stream, Some(row))
}

fn subscribed(realm: &Realm, user: UserId, stream: StreamId, color: &Text) -> Result<Turn, NoMemory>
    requires { color.now ≡ new_subscription.color }
    ensures { IfOk result
        (λ turn. turn ≡ own_turn realm.now.state.tables user stream (Some new_subscription)) }
{
    let own = new_subscription(color)?;
    own_turn(realm, user, stream, Some(own))
}

fn with_property(
    realm: &Realm,
    actor: UserId,
    stream: StreamId,
    value: &SubField,
    texts: &[Text],
) -> Result<Turn, NoMemory>
    requires { texts.now ≡ color_in value.now }
    ensures { IfOk result (λ turn. turn ≡ own_turn realm.now.state.tables actor stream
        (option_map (subscription_with value.now)
        (subscription_of realm.now.state.tables actor stream))) }
{
    let Some(mut own) = subscription_of(realm, actor, stream)? else {
        return own_turn(realm, actor, stream, None);
    };
    match value {
        SubField::Color(_) => own.color = texts[0].clone()?,
        SubField::IsMuted(is_muted) => own.is_muted = *is_muted,
        SubField::PinToTop(pin_to_top) => own.pin_to_top = *pin_to_top,
    }
    own_turn(realm, actor, stream, Some(own))
}

// A turn that leaves the actor's subscription.
fn row_turn(
    realm: &Realm,
    actor: UserId,
    stream: StreamId,
    row: Option<Stream>,
) -> Result<Turn, NoMemory>
    ensures { IfOk result (λ turn. turn ≡ row_turn realm.now.state.tables actor stream row) }
{
    let subscription = subscription_of(realm, actor, stream)?;
    Ok(Turn {
        stream,
        row,
        user: actor,
        subscription,
    })
}

// A turn that leaves the stream's row.
fn own_turn(
    realm: &Realm,
    user: UserId,
    stream: StreamId,
    subscription: Option<Subscription>,
) -> Result<Turn, NoMemory>
    ensures { IfOk result
        (λ turn. turn ≡ own_turn realm.now.state.tables user stream subscription) }
{
    let row = row_of(realm, stream)?;
    Ok(Turn {
        stream,
        row,
        user,
        subscription,
    })
}

fn row_of(realm: &Realm, stream: StreamId) -> Result<Option<Stream>, NoMemory>
    ensures { IfOk result (λ row. row ≡ stream_at realm.now.state.tables stream) }
{
    match realm.stream(stream) {
        Some(row) => Ok(Some(copied(row)?)),
        None => Ok(None),
    }
}

fn subscription_of(
    realm: &Realm,
    user: UserId,
    stream: StreamId,
) -> Result<Option<Subscription>, NoMemory>
    ensures { IfOk result (λ own. own ≡ subscription_of realm.now.state.tables user stream) }
{
    match realm.subscription(user, stream) {
        Some(own) => Ok(Some(copied(own)?)),
        None => Ok(None),
    }
}

fn copied<T: ExactClone>(value: &T) -> Result<T, NoMemory>
    ensures { IfOk result (λ copy. copy ≡ value.now) }
{
    Ok(value.clone()?)
}
