//! The table of streams and subscriptions.

use crate::samples::{same, text_is};
use ev_base::{Privacy, StreamId, Text, TextFault, TextKind, UserId};
use std::alloc::Global;
use std::test::Fail;
use zr_streams::Streams;
use zr_types::{Stream, Subscription};

fn stream(alloc: Global, name: &str) -> Result<Stream, TextFault> {
    Ok(Stream {
        name: Text::read(alloc, TextKind::StreamName, name)?,
        description: Text::read(alloc, TextKind::StreamDescription, "")?,
        privacy: Privacy::Public,
        archived: false,
    })
}

// Writes a stream's row, with room made for it, and answers whether the row before was archived.
fn put(table: &mut Streams, alloc: Global, number: u32, name: &str) -> Result<Option<bool>, Fail> {
    table.streams_reserve(1)?;
    let row = stream(alloc, name)?;
    let before = table.streams_put(StreamId(number), row);
    Ok(before.map(|row| row.archived))
}

// Writes streams 1 and 2.
fn put_hall_and_lab(table: &mut Streams, alloc: Global) -> Result<(), Fail> {
    put(table, alloc, 2, "lab")?;
    put(table, alloc, 1, "hall")?;
    Ok(())
}

fn is_named(table: &Streams, number: u32, name: &str) -> Option<bool> {
    let row = table.streams_get(&StreamId(number))?;
    Some(text_is(&row.name, name))
}

fn archive(table: &mut Streams, number: u32) {
    if let Some(row) = table.streams_get_mut(&StreamId(number)) {
        row.archived = true;
    }
}

// Writes two streams, and the attic over the lab, which was archived: whether the row before was
// archived, and whether each of three streams is the attic then.
fn put_over_lab(table: &mut Streams, alloc: Global) -> Result<[Option<bool>; 4], Fail> {
    put_hall_and_lab(table, alloc)?;
    archive(table, 2);
    let before = put(table, alloc, 2, "attic")?;
    Ok([
        before,
        is_named(table, 1, "attic"),
        is_named(table, 2, "attic"),
        is_named(table, 3, "attic"),
    ])
}

#[test]
fn streams_are_read_changed_and_replaced(rt: HostRuntime) -> Result<(), Fail> {
    let found = put_over_lab(&mut Streams::new(rt.alloc()), rt.alloc())?;
    same(&rt, found, [Some(true), Some(false), Some(true), None]);
    Ok(())
}

// Writes two streams, and drops the hall, and then all: how many there were, whether the hall was
// there, how many went, and how many stay.
fn dropped(table: &mut Streams, alloc: Global) -> Result<(usize, bool, u64, usize), Fail> {
    put_hall_and_lab(table, alloc)?;
    let before = table.streams_rows().len();
    let hall = table.streams_drop_key(&StreamId(1)).is_some();
    let more = table.streams_drop_between(&StreamId(1), &StreamId(2));
    Ok((before, hall, more, table.streams_rows().len()))
}

#[test]
fn streams_are_dropped(rt: HostRuntime) -> Result<(), Fail> {
    let found = dropped(&mut Streams::new(rt.alloc()), rt.alloc())?;
    same(&rt, found, (2, true, 1, 0));
    Ok(())
}

const ANN_IN_LAB: (UserId, StreamId) = (UserId(1), StreamId(2));

const BOB_IN_HALL: (UserId, StreamId) = (UserId(2), StreamId(1));

const BOB_IN_LAB: (UserId, StreamId) = (UserId(2), StreamId(2));

fn subscription(alloc: Global, color: &str) -> Result<Subscription, TextFault> {
    Ok(Subscription {
        color: Text::read(alloc, TextKind::Color, color)?,
        is_muted: false,
        pin_to_top: false,
    })
}

// Subscribes a user to a stream, with room made for it, and answers whether the row before was muted.
fn subscribe(
    table: &mut Streams,
    alloc: Global,
    key: (UserId, StreamId),
    color: &str,
) -> Result<Option<bool>, Fail> {
    table.subscriptions_reserve(1)?;
    let row = subscription(alloc, color)?;
    let before = table.subscriptions_put(key, row);
    Ok(before.map(|row| row.is_muted))
}

fn subscribe_bob_and_ann(table: &mut Streams, alloc: Global) -> Result<(), Fail> {
    subscribe(table, alloc, BOB_IN_HALL, "#c2c2c2")?;
    subscribe(table, alloc, ANN_IN_LAB, "#ff0000")?;
    Ok(())
}

fn is_colored(table: &Streams, key: (UserId, StreamId), color: &str) -> Option<bool> {
    let row = table.subscriptions_get(&key)?;
    Some(text_is(&row.color, color))
}

fn mute(table: &mut Streams, key: (UserId, StreamId)) {
    if let Some(row) = table.subscriptions_get_mut(&key) {
        row.is_muted = true;
    }
}

// Subscribes two, and puts a green subscription over a muted one: whether the row before was muted,
// and whether each of three subscriptions is green then.
fn put_over_muted(table: &mut Streams, alloc: Global) -> Result<[Option<bool>; 4], Fail> {
    subscribe_bob_and_ann(table, alloc)?;
    mute(table, BOB_IN_HALL);
    let before = subscribe(table, alloc, BOB_IN_HALL, "#00ff00")?;
    Ok([
        before,
        is_colored(table, ANN_IN_LAB, "#00ff00"),
        is_colored(table, BOB_IN_HALL, "#00ff00"),
        is_colored(table, BOB_IN_LAB, "#00ff00"),
    ])
}

#[test]
fn subscriptions_are_read_changed_and_replaced(rt: HostRuntime) -> Result<(), Fail> {
    let found = put_over_muted(&mut Streams::new(rt.alloc()), rt.alloc())?;
    same(&rt, found, [Some(true), Some(false), Some(true), None]);
    Ok(())
}

// Subscribes two, and drops Bob's, and then all of Ann's: how many there were, whether Bob's was
// there, how many went, and how many stay.
fn subscriptions_dropped(
    table: &mut Streams,
    alloc: Global,
) -> Result<(usize, bool, u64, usize), Fail> {
    subscribe_bob_and_ann(table, alloc)?;
    let before = table.subscriptions_rows().len();
    let bob = table.subscriptions_drop_key(&BOB_IN_HALL).is_some();
    let low = (UserId(1), StreamId(0));
    let more = table.subscriptions_drop_between(&low, &ANN_IN_LAB);
    Ok((before, bob, more, table.subscriptions_rows().len()))
}

#[test]
fn subscriptions_are_dropped(rt: HostRuntime) -> Result<(), Fail> {
    let found = subscriptions_dropped(&mut Streams::new(rt.alloc()), rt.alloc())?;
    same(&rt, found, (2, true, 1, 0));
    Ok(())
}
