//! Changes to streams and subscriptions.

ghost use Rattle.std.specs.Prelude.{◌≡◌, ◌≤◌, ◌<◌, ◌+◌, ◌^◌, ◌++◌, ◌∷◌, [], length, true, false, map};
ghost use Rattle.std.specs.BTreeMap.{insert_entry};
ghost use Rattle.ev_rows.specs.Rows.{SortedByKey};
ghost use Rattle.ev_base.specs.Orders.{stream_cmp, user_stream_cmp};
ghost use Rattle.zr_types.specs.declared.command.Command.{Command};
ghost use Rattle.zr_types.specs.declared.streams.Stream.{Stream};
ghost use Rattle.zr_types.specs.Commands.{color_of};
ghost use Rattle.zr_types.specs.Effects.{changed_at, new_subscription, next_stream, stream_effect, stream_with, subscription_with, without};
ghost use Rattle.zr_types.specs.Sound.{CountFrom, stream_number};
ghost use Rattle.zr_realm.specs.Parts.{stream_tables, texts_by_ids};
ghost use Rattle.zr_realm.specs.Room.{new_streams, new_subscriptions};

use crate::texts::Texts;
use ev_base::{Privacy, StreamId, Text, UserId};
use zr_streams::Streams;
use zr_types::{NameField, Stream, StreamCommand, SubField, Subscription};

/// Makes an actor's change of streams and subscriptions, with its texts.
pub fn change_streams(
    streams: &mut Streams,
    actor: UserId,
    command: StreamCommand,
    mut texts: Texts,
)
    requires sorted { SortedByKey stream_cmp streams.old.streams.rows }
    requires subscriptions { SortedByKey user_stream_cmp streams.old.subscriptions.rows }
    requires count { CountFrom stream_number 1 streams.old.streams.rows }
    requires number { 0 < new_streams (Command.Streams command)
        → length streams.old.streams.rows + 1 < 2 ^ 32 }
    requires room { new_streams (Command.Streams command) ≤ streams.old.streams.spare }
    requires more_room { new_subscriptions (Command.Streams command)
        ≤ streams.old.subscriptions.spare }
    requires texts { texts ≡ texts_by_ids (Command.Streams command) [] }
    ensures streams { streams.new.streams.rows
        ≡ (stream_effect actor command (stream_tables streams.old)).streams }
    ensures subscriptions { streams.new.subscriptions.rows
        ≡ (stream_effect actor command (stream_tables streams.old)).subscriptions }
{
    match command {
        StreamCommand::Create { privacy, .. } => {
            let row = new_stream(privacy, &mut texts);
            create_stream(streams, actor, row, texts.take());
        }
        StreamCommand::Update {
            stream,
            property,
            ..
        } => set_stream_field(streams, stream, property, texts.take()),
        StreamCommand::SetPrivacy { stream, privacy } => set_privacy(streams, stream, privacy),
        StreamCommand::Archive { stream } => archive(streams, stream),
        StreamCommand::Subscribe { stream, user } => {
            subscribe(streams, (user, stream), texts.take())
        }
        StreamCommand::Unsubscribe { stream, user } => unsubscribe(streams, (user, stream)),
        StreamCommand::SubProperty { stream, value } => {
            set_subscription_field(streams, (actor, stream), value, texts)
        }
    }
}

// An unarchived stream of the first two texts: its name and its description.
fn new_stream(privacy: Privacy, texts: &mut Texts) -> Stream
    requires { 2 ≤ length texts.old }
    ensures texts { texts.old ≡ result.name ∷ result.description ∷ texts.new }
    ensures privacy { result.privacy ≡ privacy }
    ensures archived { result.archived ≡ false }
{
    Stream {
        name: texts.take(),
        description: texts.take(),
        privacy,
        archived: false,
    }
}

// Puts a stream behind all others, and the actor's subscription to it.
fn create_stream(streams: &mut Streams, actor: UserId, row: Stream, color: Text)
    requires count { CountFrom stream_number 1 streams.old.streams.rows }
    requires number { length streams.old.streams.rows + 1 < 2 ^ 32 }
    requires room { 1 ≤ streams.old.streams.spare }
    requires more_room { 1 ≤ streams.old.subscriptions.spare }
    ensures streams { streams.new.streams.rows ≡ streams.old.streams.rows
        ++ (next_stream (stream_tables streams.old), row) ∷ [] }
    ensures subscriptions { streams.new.subscriptions.rows
        ≡ insert_entry user_stream_cmp streams.old.subscriptions.rows
        (actor, next_stream (stream_tables streams.old))
        (record new_subscription { color = color }) }
{
    let number = streams.streams_rows().len() as u32 + 1;
    let stream = StreamId(number);
    streams.streams_put(stream, row);
    subscribe(streams, (actor, stream), color);
}

fn subscribe(streams: &mut Streams, key: (UserId, StreamId), color: Text)
    requires room { 1 ≤ streams.old.subscriptions.spare }
    ensures subscriptions { streams.new.subscriptions.rows
        ≡ insert_entry user_stream_cmp streams.old.subscriptions.rows key
        (record new_subscription { color = color }) }
    ensures streams { streams.new.streams ≡ streams.old.streams }
{
    let row = Subscription {
        color,
        is_muted: false,
        pin_to_top: false,
    };
    streams.subscriptions_put(key, row);
}

fn unsubscribe(streams: &mut Streams, key: (UserId, StreamId))
    ensures subscriptions { streams.new.subscriptions.rows
        ≡ without user_stream_cmp key streams.old.subscriptions.rows }
    ensures streams { streams.new.streams ≡ streams.old.streams }
{
    streams.subscriptions_drop_key(&key);
}

fn set_stream_field(streams: &mut Streams, stream: StreamId, property: NameField, value: Text)
    requires sorted { SortedByKey stream_cmp streams.old.streams.rows }
    ensures streams { streams.new.streams.rows
        ≡ changed_at stream_cmp stream (stream_with property value) streams.old.streams.rows }
    ensures subscriptions { streams.new.subscriptions ≡ streams.old.subscriptions }
{
    if let Some(row) = streams.streams_get_mut(&stream) {
        match property {
            NameField::Name => row.name = value,
            NameField::Description => row.description = value,
        }
    }
}

fn set_privacy(streams: &mut Streams, stream: StreamId, privacy: Privacy)
    requires sorted { SortedByKey stream_cmp streams.old.streams.rows }
    ensures streams { streams.new.streams.rows
        ≡ changed_at stream_cmp stream (λ row. record row { privacy = privacy })
        streams.old.streams.rows }
    ensures subscriptions { streams.new.subscriptions ≡ streams.old.subscriptions }
{
    if let Some(row) = streams.streams_get_mut(&stream) {
        row.privacy = privacy;
    }
}

fn archive(streams: &mut Streams, stream: StreamId)
    requires sorted { SortedByKey stream_cmp streams.old.streams.rows }
    ensures streams { streams.new.streams.rows
        ≡ changed_at stream_cmp stream (λ row. record row { archived = true })
        streams.old.streams.rows }
    ensures subscriptions { streams.new.subscriptions ≡ streams.old.subscriptions }
{
    if let Some(row) = streams.streams_get_mut(&stream) {
        row.archived = true;
    }
}

fn set_subscription_field(
    streams: &mut Streams,
    key: (UserId, StreamId),
    value: SubField,
    mut texts: Texts,
)
    requires sorted { SortedByKey user_stream_cmp streams.old.subscriptions.rows }
    requires texts { texts ≡ map (λ text. text.1) (color_of value) }
    ensures subscriptions { streams.new.subscriptions.rows
        ≡ changed_at user_stream_cmp key (subscription_with value) streams.old.subscriptions.rows }
    ensures streams { streams.new.streams ≡ streams.old.streams }
{
    if let Some(row) = streams.subscriptions_get_mut(&key) {
        match value {
            SubField::Color(_) => row.color = texts.take(),
            SubField::IsMuted(is_muted) => row.is_muted = is_muted,
            SubField::PinToTop(pin_to_top) => row.pin_to_top = pin_to_top,
        }
    }
}
