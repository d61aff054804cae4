//! The numbers that words write.

ghost use Rattle.std.specs.Prelude.{◌≡◌, ◌<◌, ◌^◌, ℕ, ℤ, FitsSigned, MatchOption};
ghost use Rattle.zs_words.specs.Numbers.{IsEventNumber, IsId, IsMessage, IsMoment, IsNoticeNumber, IsNumber, IsQueue, IsRole, IsShard, IsShardCount, IsStream, IsUser};
ghost use Rattle.zs_words.specs.Readings.{ReadsIf};

use ev_base::{MessageId, QueueId, Role, StreamId, UserId};
use std::str;

/// How many shards there may be.
const MAX_SHARDS: u32 = 16;

pub fn read_user(word: &[u8]) -> Option<UserId>
    ensures { ReadsIf (IsUser word.now) result }
{
    Some(UserId(read_id(word)?))
}

pub fn read_stream(word: &[u8]) -> Option<StreamId>
    ensures { ReadsIf (IsStream word.now) result }
{
    Some(StreamId(read_id(word)?))
}

pub fn read_message(word: &[u8]) -> Option<MessageId>
    ensures { ReadsIf (IsMessage word.now) result }
{
    Some(MessageId(read_id(word)?))
}

/// The number of one of these many shards.
pub fn read_shard(shards: u32, word: &[u8]) -> Option<u32>
    ensures { ReadsIf (IsShard shards word.now) result }
{
    let shard = read_id(word)?;
    if shard < shards { Some(shard) } else { None }
}

/// A number of shards, from 1 to 16.
pub fn read_shard_count(word: &[u8]) -> Option<u32>
    ensures { ReadsIf (IsShardCount word.now) result }
{
    let count = read_id(word)?;
    if 1 <= count && count <= MAX_SHARDS {
        Some(count)
    } else {
        None
    }
}

/// The number of a notice. Notices count from 1.
pub fn read_notice_number(word: &[u8]) -> Option<u64>
    ensures { ReadsIf (IsNoticeNumber word.now) result }
{
    let number = read_number(word)?;
    if 1 <= number { Some(number) } else { None }
}

/// A moment, in seconds.
pub fn read_moment(word: &[u8]) -> Option<u64>
    ensures { ReadsIf (IsMoment word.now) result }
{
    read_number(word)
}

pub fn read_role(word: &[u8]) -> Option<Role>
    ensures { ReadsIf (IsRole word.now) result }
{
    Role::from_number(read_number(word)?)
}

/// A queue without salt, as `USER.NUMBER`.
pub fn read_queue(word: &[u8]) -> Option<QueueId>
    ensures { ReadsIf (IsQueue word.now) result }
{
    let Ok(text) = str::from_utf8(word) else {
        return None;
    };
    let Some((user, number)) = text.split_once('.') else {
        return None;
    };
    let Some(user) = read_user(user.as_bytes()) else {
        return None;
    };
    let Some(number) = read_id(number.as_bytes()) else {
        return None;
    };
    Some(QueueId {
        user,
        number,
        salt: 0,
    })
}

/// An integer of 64 bits.
pub fn read_event_number(word: &[u8]) -> Option<i64>
    ensures { ReadsIf (IsEventNumber word.now) result }
{
    let Ok(text) = str::from_utf8(word) else {
        return None;
    };
    parse_integer(text)
}

fn parse_integer(word: &str) -> Option<i64>
    ensures { ReadsIf (IsEventNumber word.now) result }
{
    if word.starts_with('+') {
        return None;
    }
    word.parse().ok()
}

/// A number of 32 bits.
pub(crate) fn read_id(word: &[u8]) -> Option<u32>
    ensures { ReadsIf (IsId word.now) result }
{
    u32::try_from(read_number(word)?).ok()
}

/// A number of 64 bits.
fn read_number(word: &[u8]) -> Option<u64>
    ensures { ReadsIf (λ number. IsNumber word.now number × (number < 2 ^ 64)) result }
{
    let Ok(text) = str::from_utf8(word) else {
        return None;
    };
    parse_number(text)
}

fn parse_number(word: &str) -> Option<u64>
    ensures { ReadsIf (λ number. IsNumber word.now number × (number < 2 ^ 64)) result }
{
    if word.starts_with('+') {
        return None;
    }
    word.parse().ok()
}
