//! Where messages stand, and which of them move.

ghost use Rattle.std.specs.Prelude.{◌≡◌, [], IfOk, filter, map, replicate};
ghost use Rattle.std.specs.Option.{option_map_or};
ghost use Rattle.zr_types.specs.Tables.{message_at};
ghost use Rattle.zr_types.specs.Commands.{moves_with, moving, same_stream_place, stream_of_place, target_of, topic_moved, topic_of_place};

use ev_base::{Listed, MessageId, NoMemory, Place, PlainText, StreamId, Text, TextKind};
use std::alloc::Global;
use zr_realm::Realm;
use zr_types::{Message, Mode};

pub fn stream_of(place: &Place) -> Option<StreamId>
    ensures { result ≡ stream_of_place place.now }
{
    match place {
        Place::Stream { stream, .. } => Some(*stream),
        Place::Direct { .. } => None,
    }
}

fn topic_of(place: &Place) -> &str
    ensures { result.now ≡ topic_of_place place.now }
{
    match place {
        Place::Stream { topic, .. } => topic.as_str(),
        Place::Direct { .. } => "",
    }
}

// Whether both are the same stream and topic.
fn same_stream_place(a: &Place, b: &Place) -> bool
    ensures { result ≡ same_stream_place a.now b.now }
{
    match (stream_of(a), stream_of(b)) {
        (Some(stream), Some(other)) => stream.0 == other.0 && topic_of(a) == topic_of(b),
        _ => false,
    }
}

/// Whether a move to there leaves a message of this place where it is.
pub fn is_at_target(place: &Place, stream: Option<StreamId>, topic: &Option<PlainText>) -> bool
    ensures { result ≡ same_stream_place place.now (target_of place.now stream topic.now) }
{
    let Some(from) = stream_of(place) else {
        return false;
    };
    let same_topic = match topic {
        Some(topic) => topic_of(place) == topic.as_str(),
        None => true,
    };
    from.0 == stream.unwrap_or(from).0 && same_topic
}

/// The stream of a message.
pub fn stream_of_message(realm: &Realm, message: MessageId) -> Option<StreamId>
    ensures { result ≡ option_map_or (λ row. stream_of_place row.place)
        (message_at realm.now.state.tables message) None }
{
    let row = realm.message(message)?;
    stream_of(&row.place)
}

fn topic_of_message(realm: &Realm, message: MessageId) -> &str
    ensures { result.now ≡ option_map_or (λ row. topic_of_place row.place)
        (message_at realm.now.state.tables message) [] }
{
    match realm.message(message) {
        Some(row) => topic_of(&row.place),
        None => "",
    }
}

/// The topic that messages get by a move: the one given, or that of the message.
pub fn topic_moved<'a>(
    realm: &'a Realm,
    message: MessageId,
    topic: &'a Option<PlainText>,
) -> &'a str
    ensures { result.now ≡ topic_moved realm.now.state.tables message topic.now }
{
    match topic {
        Some(topic) => topic.as_str(),
        None => topic_of_message(realm, message),
    }
}

/// The same topic, copied where it is that of the message.
pub fn given_topic(
    alloc: Global,
    realm: &Realm,
    message: MessageId,
    topic: Option<PlainText>,
) -> Result<PlainText, NoMemory>
    ensures { IfOk result (λ moved. moved ≡ topic_moved realm.now.state.tables message topic) }
{
    match topic {
        Some(topic) => Ok(topic),
        None => {
            let topic = topic_of_message(realm, message);
            Ok(PlainText::new(String::from_str(alloc, topic)?))
        }
    }
}

/// The numbers of the messages that move with one.
pub fn moving(
    alloc: Global,
    realm: &Realm,
    message: MessageId,
    mode: Mode,
) -> Result<Listed<u32>, NoMemory>
    ensures { IfOk result (λ ids.
        ids ≡ map (λ id. id.0) (moving realm.now.state.tables message mode)) }
{
    let Some(row) = realm.message(message) else {
        return Ok(Listed::from_vec(Vec::new(alloc)));
    };
    let rows = realm.posts().messages_rows();
    match mode {
        Mode::One => Ok(Listed::from_vec(vec![in alloc; message.0]?)),
        _ => all_moving(alloc, rows, message, mode, &row.place),
    }
}

// The numbers of those messages that move with one at a place.
fn all_moving(
    alloc: Global,
    rows: &[(MessageId, Message)],
    message: MessageId,
    mode: Mode,
    at: &Place,
) -> Result<Listed<u32>, NoMemory>
    ensures { IfOk result (λ ids. ids ≡ map (λ row. row.0.0)
        (filter (moves_with mode message at.now) rows.now)) }
{
    let ids = rows
        .iter()
        .filter(|other| moves_with(mode, message, at, other))
        .map(|other| other.0.0)
        .collect(alloc)?;
    Ok(Listed::from_vec(ids))
}

// Whether the other message moves with one at a place.
fn moves_with(mode: Mode, message: MessageId, at: &Place, other: &(MessageId, Message)) -> bool
    ensures { result ≡ moves_with mode message at.now other.now }
{
    match mode {
        Mode::One => other.0.0 == message.0,
        Mode::Later => message.0 <= other.0.0 && same_stream_place(at, &other.1.place),
        Mode::All => same_stream_place(at, &other.1.place),
    }
}

/// The topic, once for each of `count` messages.
pub fn topics(alloc: Global, topic: &PlainText, count: usize) -> Result<Listed<Text>, NoMemory>
    ensures { IfOk result (λ texts. texts ≡ replicate count topic.now) }
{
    let mut texts = Vec::with_capacity(alloc, count)?;
    while texts.len() < count {
        let Ok(text) = Text::read(alloc, TextKind::Topic, topic.as_str()) else {
            return Err(NoMemory);
        };
        texts.push(text)?;
    }
    Ok(Listed::from_vec(texts))
}
