//! The table of messages and receipts.

use crate::samples::{same, text_is};
use ev_base::{MessageId, Place, StreamId, Text, TextFault, TextKind, UserId, rows_rise};
use std::alloc::Global;
use std::mem::size_of;
use std::test::Fail;
use zr_posts::Posts;
use zr_types::{Message, Receipt};

const _: () = prove!(size_of::<((MessageId, UserId), Receipt)>() <= 16);

const UNREAD: Receipt = Receipt {
    read: false,
    starred: false,
    collapsed: false,
};

const STARRED: Receipt = Receipt {
    read: false,
    starred: true,
    collapsed: false,
};

fn lunch(alloc: Global) -> Result<Place, TextFault> {
    Ok(Place::Stream {
        stream: StreamId(1),
        topic: Text::read(alloc, TextKind::Topic, "lunch")?,
    })
}

fn message(alloc: Global, content: &str) -> Result<Message, TextFault> {
    Ok(Message {
        sender: UserId(1),
        content: Text::read(alloc, TextKind::Content, content)?,
        place: lunch(alloc)?,
        timestamp: 100,
    })
}

// Writes a message's row, with room made for it, and answers the time of the row before.
fn put(table: &mut Posts, alloc: Global, number: u32, content: &str) -> Result<Option<u64>, Fail> {
    table.messages_reserve(1)?;
    let row = message(alloc, content)?;
    let before = table.messages_put(MessageId(number), row);
    Ok(before.map(|row| row.timestamp))
}

// Writes messages 1 and 2.
fn put_two(table: &mut Posts, alloc: Global) -> Result<(), Fail> {
    put(table, alloc, 2, "two")?;
    put(table, alloc, 1, "one")?;
    Ok(())
}

fn says(table: &Posts, number: u32, content: &str) -> Option<bool> {
    let row = table.messages_get(&MessageId(number))?;
    Some(text_is(&row.content, content))
}

fn set_time(table: &mut Posts, number: u32, timestamp: u64) {
    if let Some(row) = table.messages_get_mut(&MessageId(number)) {
        row.timestamp = timestamp;
    }
}

// Writes two messages, and a row over one whose time was changed: the time of the row before, and
// whether each of three messages has the new content then.
fn put_over_two(
    table: &mut Posts,
    alloc: Global,
) -> Result<(Option<u64>, [Option<bool>; 3]), Fail> {
    put_two(table, alloc)?;
    set_time(table, 2, 200);
    let before = put(table, alloc, 2, "new")?;
    let new = [
        says(table, 1, "new"),
        says(table, 2, "new"),
        says(table, 3, "new"),
    ];
    Ok((before, new))
}

#[test]
fn messages_are_read_changed_and_replaced(rt: HostRuntime) -> Result<(), Fail> {
    let found = put_over_two(&mut Posts::new(rt.alloc()), rt.alloc())?;
    same(&rt, found, (Some(200), [Some(false), Some(true), None]));
    Ok(())
}

// Writes two messages, and drops message 2, and then all: how many there were, whether it was there,
// how many went, and how many stay.
fn dropped(table: &mut Posts, alloc: Global) -> Result<(usize, bool, u64, usize), Fail> {
    put_two(table, alloc)?;
    let before = table.messages_rows().len();
    let two = table.messages_drop_key(&MessageId(2)).is_some();
    let more = table.messages_drop_between(&MessageId(1), &MessageId(9));
    Ok((before, two, more, table.messages_rows().len()))
}

#[test]
fn messages_are_dropped(rt: HostRuntime) -> Result<(), Fail> {
    let found = dropped(&mut Posts::new(rt.alloc()), rt.alloc())?;
    same(&rt, found, (2, true, 1, 0));
    Ok(())
}

fn receipt_key(user: u32, message: u32) -> (MessageId, UserId) {
    (MessageId(message), UserId(user))
}

// Writes a receipt, with room made for it, and answers the one before.
fn put_receipt(
    table: &mut Posts,
    key: (MessageId, UserId),
    row: Receipt,
) -> Result<Option<Receipt>, Fail> {
    table.receipts_reserve(1)?;
    Ok(table.receipts_put(key, row))
}

// Puts these receipts, whose keys have to rise, with room made for them.
fn merge(
    table: &mut Posts,
    alloc: Global,
    rows: &[((MessageId, UserId), Receipt)],
) -> Result<(), Fail> {
    let rows = rows.to_vec(alloc)?;
    if !rows_rise(&rows) {
        return Err(Fail::from("the keys don't rise"));
    }
    table.receipts_reserve(rows.len())?;
    table.receipts_merge(rows);
    Ok(())
}

// Users 1, 2 and 3 get message 7, and user 2 also message 1.
fn put_four(table: &mut Posts, alloc: Global) -> Result<(), Fail> {
    put_receipt(table, receipt_key(2, 1), UNREAD)?;
    let rows = [
        (receipt_key(1, 7), UNREAD),
        (receipt_key(2, 7), STARRED),
        (receipt_key(3, 7), UNREAD),
    ];
    merge(table, alloc, &rows)
}

#[test]
fn new_receipts_go_among_the_old_ones(rt: HostRuntime) -> Result<(), Fail> {
    let all = [
        (receipt_key(2, 1), UNREAD),
        (receipt_key(1, 7), UNREAD),
        (receipt_key(2, 7), STARRED),
        (receipt_key(3, 7), UNREAD),
    ];
    let mut table = Posts::new(rt.alloc());
    put_four(&mut table, rt.alloc())?;
    same(&rt, table.receipts_rows(), all.as_slice());
    Ok(())
}

fn receipt_of(table: &Posts, user: u32, message: u32) -> Option<Receipt> {
    table.receipts_get(&receipt_key(user, message)).copied()
}

fn star(table: &mut Posts, user: u32, message: u32) {
    if let Some(row) = table.receipts_get_mut(&receipt_key(user, message)) {
        row.starred = true;
    }
}

// Writes four receipts, stars one, and puts a row over it: the row before, the row then, and one
// that isn't there.
fn put_over_starred(table: &mut Posts, alloc: Global) -> Result<[Option<Receipt>; 3], Fail> {
    put_four(table, alloc)?;
    star(table, 1, 7);
    let before = put_receipt(table, receipt_key(1, 7), UNREAD)?;
    Ok([before, receipt_of(table, 1, 7), receipt_of(table, 3, 1)])
}

#[test]
fn a_receipt_is_changed_and_replaced(rt: HostRuntime) -> Result<(), Fail> {
    let found = put_over_starred(&mut Posts::new(rt.alloc()), rt.alloc())?;
    same(&rt, found, [Some(STARRED), Some(UNREAD), None]);
    Ok(())
}

// Writes four receipts, drops those for message 1, drops one, and then all: how many there were, the
// one that was dropped, how many more went, and how many stay.
fn receipts_dropped(
    table: &mut Posts,
    alloc: Global,
) -> Result<(usize, Option<Receipt>, u64, usize), Fail> {
    put_four(table, alloc)?;
    table.receipts_drop_of(&MessageId(1));
    let kept = table.receipts_of(&MessageId(7)).len();
    let one = table.receipts_drop_key(&receipt_key(2, 7));
    let more = table.receipts_drop_between(&receipt_key(1, 7), &receipt_key(3, 7));
    Ok((kept, one, more, table.receipts_rows().len()))
}

#[test]
fn receipts_are_dropped(rt: HostRuntime) -> Result<(), Fail> {
    let found = receipts_dropped(&mut Posts::new(rt.alloc()), rt.alloc())?;
    same(&rt, found, (3, Some(STARRED), 2, 0));
    Ok(())
}
