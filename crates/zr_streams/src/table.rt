//! The table of streams.

ghost use Rattle.std.specs.Prelude.{◌≡◌, ◌≤◌, ◌+◌, [], length, filter, if◌then◌else◌, is_some, IsNone, IsOk, OnOk, option_copied};
ghost use Rattle.std.specs.Option.{option_copied_mut};
ghost use Rattle.std.specs.Borrow.{sem};
ghost use Rattle.std.specs.Map.{remove_entry};
ghost use Rattle.std.specs.BTreeMap.{insert_entry, is_at};
ghost use Rattle.ev_rows.specs.Rows.{SortedByKey, is_outside, row_at};
ghost use Rattle.ev_base.specs.Orders.{stream_cmp, user_stream_cmp};
ghost use Rattle.zr_streams.specs.Lent.{lends_stream, lends_subscription};

use ev_base::{Keyed, NoMemory, StreamId, UserId};
use std::alloc::Global;
use std::marker::Model;
use zr_types::{Stream, Subscription};

/// The streams by their number, and the subscriptions by user and stream.
///
/// Beside the reserves no call takes memory.
#[derive(Debug, Drop)]
pub struct Streams {
    streams: Keyed<StreamId, Stream>,
    subscriptions: Keyed<(UserId, StreamId), Subscription>,
}

impl Model for Streams {
    ghost use Rattle.zr_streams.specs.Tables.{StreamTables};

    ghost Value = { StreamTables };

    ghost view = { λ it. record { streams = it.streams; subscriptions = it.subscriptions } };
}

impl Streams {
    /// No streams and no subscriptions. What is allocated later comes from `alloc`.
    pub fn new(alloc: Global) -> Streams
        ensures streams { result.streams.rows ≡ [] }
        ensures subscriptions { result.subscriptions.rows ≡ [] }
    {
        Streams {
            streams: Keyed::new(alloc),
            subscriptions: Keyed::new(alloc),
        }
    }

    pub fn streams_get(&self, key: &StreamId) -> Option<&Stream>
        ensures { option_copied result ≡ row_at stream_cmp self.now.streams.rows key.now }
    {
        self.streams.get(key)
    }

    pub fn streams_get_mut(&mut self, key: &StreamId) -> Option<&mut Stream>
        ensures* writes_back { sem 𝓛 (lends_stream self.entry key.now result) }
        ensures value { option_copied_mut result ≡ row_at stream_cmp self.old.streams.rows key.now }
    {
        self.streams.get_mut(key)
    }

    /// All streams, archived or not, rising by number.
    pub fn streams_rows(&self) -> &[(StreamId, Stream)]
        ensures all { result.now ≡ self.now.streams.rows }
        ensures rise { SortedByKey stream_cmp self.now.streams.rows }
    {
        self.streams.rows()
    }

    /// Makes room for `more` streams that are not there yet.
    pub fn streams_reserve(&mut self, more: usize) -> Result<(), NoMemory>
        ensures room { OnOk result (more ≤ self.new.streams.spare) }
        ensures succeeds { more ≤ self.old.streams.spare → IsOk result }
        ensures rows { self.new.streams.rows ≡ self.old.streams.rows }
        ensures spare { self.old.streams.spare ≤ self.new.streams.spare }
        ensures subscriptions { self.new.subscriptions ≡ self.old.subscriptions }
    {
        self.streams.reserve(more)
    }

    /// Writes the stream's row, and answers the one that the stream had.
    pub fn streams_put(&mut self, key: StreamId, row: Stream) -> Option<Stream>
        requires { IsNone (row_at stream_cmp self.old.streams.rows key) → 1 ≤ self.old.streams.spare }
        ensures before { result ≡ row_at stream_cmp self.old.streams.rows key }
        ensures rows { self.new.streams.rows ≡ insert_entry stream_cmp self.old.streams.rows key row }
        ensures room { self.old.streams.spare
            ≤ self.new.streams.spare + (if is_some result then 0 else 1) }
        ensures subscriptions { self.new.subscriptions ≡ self.old.subscriptions }
    {
        self.streams.put(key, row)
    }

    /// Takes the stream's row out, and answers it.
    pub fn streams_drop_key(&mut self, key: &StreamId) -> Option<Stream>
        ensures before { result ≡ row_at stream_cmp self.old.streams.rows key.now }
        ensures rows { self.new.streams.rows
            ≡ remove_entry (is_at (stream_cmp key.now)) self.old.streams.rows }
        ensures room { self.old.streams.spare ≤ self.new.streams.spare }
        ensures subscriptions { self.new.subscriptions ≡ self.old.subscriptions }
    {
        self.streams.drop_key(key)
    }

    /// Takes out the streams from `low` to `high`, both included, and answers how many.
    pub fn streams_drop_between(&mut self, low: &StreamId, high: &StreamId) -> u64
        ensures rows { self.new.streams.rows
            ≡ filter (λ row. is_outside stream_cmp low.now high.now row.0) self.old.streams.rows }
        ensures count { result + length self.new.streams.rows ≡ length self.old.streams.rows }
        ensures room { self.old.streams.spare ≤ self.new.streams.spare }
        ensures subscriptions { self.new.subscriptions ≡ self.old.subscriptions }
    {
        self.streams.drop_between(low, high)
    }

    pub fn subscriptions_get(&self, key: &(UserId, StreamId)) -> Option<&Subscription>
        ensures { option_copied result ≡ row_at user_stream_cmp self.now.subscriptions.rows key.now }
    {
        self.subscriptions.get(key)
    }

    pub fn subscriptions_get_mut(&mut self, key: &(UserId, StreamId)) -> Option<&mut Subscription>
        ensures* writes_back { sem 𝓛 (lends_subscription self.entry key.now result) }
        ensures value { option_copied_mut result ≡ row_at user_stream_cmp self.old.subscriptions.rows key.now }
    {
        self.subscriptions.get_mut(key)
    }

    /// All subscriptions, rising by user and then by stream.
    pub fn subscriptions_rows(&self) -> &[((UserId, StreamId), Subscription)]
        ensures all { result.now ≡ self.now.subscriptions.rows }
        ensures rise { SortedByKey user_stream_cmp self.now.subscriptions.rows }
    {
        self.subscriptions.rows()
    }

    /// Makes room for `more` subscriptions that are not there yet.
    pub fn subscriptions_reserve(&mut self, more: usize) -> Result<(), NoMemory>
        ensures room { OnOk result (more ≤ self.new.subscriptions.spare) }
        ensures succeeds { more ≤ self.old.subscriptions.spare → IsOk result }
        ensures rows { self.new.subscriptions.rows ≡ self.old.subscriptions.rows }
        ensures spare { self.old.subscriptions.spare ≤ self.new.subscriptions.spare }
        ensures streams { self.new.streams ≡ self.old.streams }
    {
        self.subscriptions.reserve(more)
    }

    /// Writes the subscription of a user to a stream, and answers the one that was there.
    pub fn subscriptions_put(
        &mut self,
        key: (UserId, StreamId),
        row: Subscription,
    ) -> Option<Subscription>
        requires { IsNone (row_at user_stream_cmp self.old.subscriptions.rows key) → 1 ≤ self.old.subscriptions.spare }
        ensures before { result ≡ row_at user_stream_cmp self.old.subscriptions.rows key }
        ensures rows { self.new.subscriptions.rows ≡ insert_entry user_stream_cmp self.old.subscriptions.rows key row }
        ensures room { self.old.subscriptions.spare
            ≤ self.new.subscriptions.spare + (if is_some result then 0 else 1) }
        ensures streams { self.new.streams ≡ self.old.streams }
    {
        self.subscriptions.put(key, row)
    }

    /// Takes the subscription of a user to a stream out, and answers it.
    pub fn subscriptions_drop_key(&mut self, key: &(UserId, StreamId)) -> Option<Subscription>
        ensures before { result ≡ row_at user_stream_cmp self.old.subscriptions.rows key.now }
        ensures rows { self.new.subscriptions.rows
            ≡ remove_entry (is_at (user_stream_cmp key.now)) self.old.subscriptions.rows }
        ensures room { self.old.subscriptions.spare ≤ self.new.subscriptions.spare }
        ensures streams { self.new.streams ≡ self.old.streams }
    {
        self.subscriptions.drop_key(key)
    }

    /// Takes out the subscriptions from `low` to `high`, both included, and answers how many.
    pub fn subscriptions_drop_between(
        &mut self,
        low: &(UserId, StreamId),
        high: &(UserId, StreamId),
    ) -> u64
        ensures rows { self.new.subscriptions.rows
            ≡ filter (λ row. is_outside user_stream_cmp low.now high.now row.0) self.old.subscriptions.rows }
        ensures count { result + length self.new.subscriptions.rows ≡ length self.old.subscriptions.rows }
        ensures room { self.old.subscriptions.spare ≤ self.new.subscriptions.spare }
        ensures streams { self.new.streams ≡ self.old.streams }
    {
        self.subscriptions.drop_between(low, high)
    }
}
