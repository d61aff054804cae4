//! The table of reactions.

use crate::samples::same;
use ev_base::{MessageId, Text, TextFault, TextKind, UserId};
use std::alloc::Global;
use std::test::Fail;
use zr_marks::Marks;

// A reaction of user 2 to message 1.
fn reaction(alloc: Global, emoji: &str) -> Result<(MessageId, UserId, Text), TextFault> {
    let emoji = Text::read(alloc, TextKind::Emoji, emoji)?;
    Ok((MessageId(1), UserId(2), emoji))
}

// Puts a reaction, with room made for it, and answers whether it was there.
fn put(table: &mut Marks, alloc: Global, emoji: &str) -> Result<bool, Fail> {
    table.reactions_reserve(1)?;
    let key = reaction(alloc, emoji)?;
    Ok(table.reactions_put(key, ()).is_some())
}

fn has(table: &Marks, alloc: Global, emoji: &str) -> Result<bool, Fail> {
    Ok(table.reactions_get(&reaction(alloc, emoji)?).is_some())
}

// Drops a reaction, and answers whether it was there.
fn drop_key(table: &mut Marks, alloc: Global, emoji: &str) -> Result<bool, Fail> {
    Ok(table.reactions_drop_key(&reaction(alloc, emoji)?).is_some())
}

// Drops the reactions from `low` to `high`, and answers how many.
fn drop_between(table: &mut Marks, alloc: Global, low: &str, high: &str) -> Result<u64, Fail> {
    let low = reaction(alloc, low)?;
    drop_to(table, alloc, &low, high)
}

fn drop_to(
    table: &mut Marks,
    alloc: Global,
    low: &(MessageId, UserId, Text),
    high: &str,
) -> Result<u64, Fail> {
    let high = reaction(alloc, high)?;
    Ok(table.reactions_drop_between(low, &high))
}

fn put_two(table: &mut Marks, alloc: Global) -> Result<(), Fail> {
    put(table, alloc, "tada")?;
    put(table, alloc, "+1")?;
    Ok(())
}

// Puts two reactions, and one of them again: whether two others are there, whether it was there, and
// how many there are.
fn put_again(table: &mut Marks, alloc: Global) -> Result<(bool, bool, bool, usize), Fail> {
    put_two(table, alloc)?;
    let plus = has(table, alloc, "+1")?;
    let minus = has(table, alloc, "-1")?;
    let tada = put(table, alloc, "tada")?;
    Ok((plus, minus, tada, table.reactions_rows().len()))
}

#[test]
fn reactions_are_put_and_read(rt: HostRuntime) -> Result<(), Fail> {
    let found = put_again(&mut Marks::new(rt.alloc()), rt.alloc())?;
    same(&rt, found, (true, false, true, 2));
    Ok(())
}

// Puts two reactions, and drops those to a message: how many it had, and how many there are then.
fn without(alloc: Global, message: u32) -> Result<(usize, usize), Fail> {
    let mut table = Marks::new(alloc);
    put_two(&mut table, alloc)?;
    let had = table.reactions_of(&MessageId(message)).len();
    table.reactions_drop_of(&MessageId(message));
    Ok((had, table.reactions_rows().len()))
}

#[test]
fn reactions_to_a_message_are_dropped(rt: HostRuntime) -> Result<(), Fail> {
    same(
        &rt,
        (without(rt.alloc(), 2)?, without(rt.alloc(), 1)?),
        ((0, 2), (2, 0)),
    );
    Ok(())
}

// Puts two reactions, and drops one by its key, then from a key to a lower one, and then the other:
// whether the first was there, how many went, and how many stay.
fn dropped(table: &mut Marks, alloc: Global) -> Result<(bool, u64, u64, usize), Fail> {
    put_two(table, alloc)?;
    let plus = drop_key(table, alloc, "+1")?;
    let backwards = drop_between(table, alloc, "tada", "+1")?;
    let forwards = drop_between(table, alloc, "+1", "tada")?;
    Ok((plus, backwards, forwards, table.reactions_rows().len()))
}

#[test]
fn reactions_are_dropped(rt: HostRuntime) -> Result<(), Fail> {
    let found = dropped(&mut Marks::new(rt.alloc()), rt.alloc())?;
    same(&rt, found, (true, 0, 1, 0));
    Ok(())
}
