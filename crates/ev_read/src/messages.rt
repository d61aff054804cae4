//! Messages with their places, flags and reactions, and the rows that name them.

ghost use Rattle.std.specs.Prelude.{◌≡◌};
ghost use Rattle.serde_json.specs.View.{view};
ghost use Rattle.ev_base.specs.Orders.{message_cmp, reaction_cmp};
ghost use Rattle.ev_read.specs.Lists.{below_by_key};
ghost use Rattle.ev_read.specs.Reading.{Reads};
ghost use Rattle.ev_read.specs.Rows as spec;

use crate::fault::Unread;
use crate::lists::{FromJson, list_field};
use crate::names::{PlaceKind, flag_named, place_named};
use crate::values::{id_field, number_field, text_field};
use ev_base::{Flag, MessageId, Place, StreamId, Text, UserId};
use ev_json::field_text;
use ev_types::{FullMessage, MessageFlags, ShownMessage};
use serde_json::Value;
use std::alloc::Global;

#[tactic(auto, unfolding(crate::specs::Rows::place_by))]
fn place_by(alloc: Global, kind: PlaceKind, value: &Value) -> Result<Place, Unread>
    ensures { Reads (λ place. place) result (spec.place_by kind (view value.now)) }
{
    match kind {
        PlaceKind::InStream => {
            let stream = id_field(value, "stream_id")?;
            let topic = text_field(alloc, value, "topic")?;
            Ok(Place::Stream {
                stream: StreamId(stream),
                topic,
            })
        }
        PlaceKind::ToUsers => {
            let recipients = list_field::<UserId>(alloc, value, "recipients")?;
            Ok(Place::Direct { recipients })
        }
    }
}

#[tactic(auto, unfolding(crate::specs::Rows::place_in))]
fn place_in(alloc: Global, value: &Value) -> Result<Place, Unread>
    ensures { Reads (λ place. place) result (spec.place_in (view value.now)) }
{
    let name = field_text(value, "type")?;
    let kind = place_named(name).ok_or(Unread::Misfit)?;
    place_by(alloc, kind, value)
}

fn flag_rank(flag: Flag) -> u8
    ensures { result ≡ spec.flag_rank flag }
{
    match flag {
        Flag::Collapsed => 0,
        Flag::Read => 1,
        Flag::Starred => 2,
    }
}

impl FromJson for Flag {
    ghost reads = { spec.flag_from };

    ghost is_below = { spec.flag_below };

    #[tactic(auto, unfolding(crate::specs::Rows::flag_from))]
    fn from_json(_alloc: Global, value: &Value) -> Result<Flag, Unread> {
        let name = value.as_str().ok_or(Unread::Misfit)?;
        flag_named(name).ok_or(Unread::Misfit)
    }

    fn is_below(&self, other: &Flag) -> bool {
        flag_rank(*self) < flag_rank(*other)
    }
}

fn has_flag(flags: &[Flag], wanted: Flag) -> bool
    ensures { result ≡ spec.has_flag wanted flags.now }
{
    flags
        .iter()
        .any(|flag| flag_rank(wanted) == flag_rank(*flag))
}

#[tactic(auto, unfolding(crate::specs::Rows::flags_in))]
fn flags_in(alloc: Global, value: &Value) -> Result<MessageFlags, Unread>
    ensures { Reads (λ flags. flags) result (spec.flags_in (view value.now)) }
{
    let flags = list_field::<Flag>(alloc, value, "flags")?;
    Ok(MessageFlags {
        read: has_flag(flags.as_slice(), Flag::Read),
        starred: has_flag(flags.as_slice(), Flag::Starred),
        collapsed: has_flag(flags.as_slice(), Flag::Collapsed),
    })
}

impl FromJson for (MessageId, ShownMessage) {
    ghost reads = { spec.message_row };

    ghost is_below = { below_by_key message_cmp };

    #[tactic(auto, unfolding(crate::specs::Rows::message_row))]
    fn from_json(alloc: Global, value: &Value) -> Result<(MessageId, ShownMessage), Unread> {
        let content = text_field(alloc, value, "content")?;
        let flags = flags_in(alloc, value)?;
        let message = id_field(value, "id")?;
        let sender = id_field(value, "sender_id")?;
        let timestamp = number_field(value, "timestamp")?;
        let place = place_in(alloc, value)?;
        let row = ShownMessage {
            sender: UserId(sender),
            place,
            content,
            timestamp,
            flags,
        };
        Ok((MessageId(message), row))
    }

    fn is_below(&self, other: &(MessageId, ShownMessage)) -> bool {
        self.0.cmp(&other.0).is_lt()
    }
}

impl FromJson for (UserId, Text) {
    ghost reads = { spec.own_reaction };

    ghost is_below = { spec.own_reaction_below };

    #[tactic(auto, unfolding(crate::specs::Rows::own_reaction))]
    fn from_json(alloc: Global, value: &Value) -> Result<(UserId, Text), Unread> {
        let emoji = text_field(alloc, value, "emoji_name")?;
        let user = id_field(value, "user_id")?;
        Ok((UserId(user), emoji))
    }

    fn is_below(&self, other: &(UserId, Text)) -> bool {
        self.cmp(other).is_lt()
    }
}

impl FromJson for FullMessage {
    ghost reads = { spec.full_message };

    ghost is_below = { spec.full_message_below };

    #[tactic(auto, unfolding(crate::specs::Rows::full_message))]
    fn from_json(alloc: Global, value: &Value) -> Result<FullMessage, Unread> {
        let (message, row) = <(MessageId, ShownMessage)>::from_json(alloc, value)?;
        let reactions = list_field::<(UserId, Text)>(alloc, value, "reactions")?;
        Ok(FullMessage {
            message,
            row,
            reactions,
        })
    }

    fn is_below(&self, other: &FullMessage) -> bool {
        self.message.cmp(&other.message).is_lt()
    }
}

impl FromJson for ((MessageId, UserId, Text), ()) {
    ghost reads = { spec.reaction_row };

    ghost is_below = { below_by_key reaction_cmp };

    #[tactic(auto, unfolding(crate::specs::Rows::reaction_row))]
    fn from_json(alloc: Global, value: &Value) -> Result<((MessageId, UserId, Text), ()), Unread> {
        let emoji = text_field(alloc, value, "emoji_name")?;
        let message = id_field(value, "message_id")?;
        let user = id_field(value, "user_id")?;
        Ok(((MessageId(message), UserId(user), emoji), ()))
    }

    fn is_below(&self, other: &((MessageId, UserId, Text), ())) -> bool {
        self.0.cmp(&other.0).is_lt()
    }
}

impl FromJson for (MessageId, ()) {
    ghost reads = { spec.starred_row };

    ghost is_below = { below_by_key message_cmp };

    #[tactic(auto, unfolding(crate::specs::Rows::starred_row))]
    fn from_json(alloc: Global, value: &Value) -> Result<(MessageId, ()), Unread> {
        let message = MessageId::from_json(alloc, value)?;
        Ok((message, ()))
    }

    fn is_below(&self, other: &(MessageId, ())) -> bool {
        self.0.cmp(&other.0).is_lt()
    }
}

impl FromJson for (MessageId, Place) {
    ghost reads = { spec.unread_row };

    ghost is_below = { below_by_key message_cmp };

    #[tactic(auto, unfolding(crate::specs::Rows::unread_row))]
    fn from_json(alloc: Global, value: &Value) -> Result<(MessageId, Place), Unread> {
        let message = id_field(value, "id")?;
        let place = place_in(alloc, value)?;
        Ok((MessageId(message), place))
    }

    fn is_below(&self, other: &(MessageId, Place)) -> bool {
        self.0.cmp(&other.0).is_lt()
    }
}
