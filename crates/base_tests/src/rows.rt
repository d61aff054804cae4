//! Tables and lists of rows sorted by key.

use crate::same::same;
use ev_rows::{Keyed, RowList, rows_rise};
use std::alloc::{AllocError, Global};
use std::mem::size_of;
use std::test::Fail;

const _: () = prove!(size_of::<((u32, u32), [bool; 3])>() <= 16);

// A table of these rows, which have to rise.
fn table_of(alloc: Global, rows: &[(u32, char)]) -> Result<Keyed<u32, char>, Fail> {
    let rows = rows.to_vec(alloc)?;
    if !rows_rise(&rows) {
        return Err(Fail::from("the keys don't rise"));
    }
    Ok(Keyed::from_vec(rows))
}

// Puts a row, with room made for it, and answers the value before.
fn put(table: &mut Keyed<u32, char>, key: u32, value: char) -> Result<Option<char>, Fail> {
    table.reserve(1)?;
    Ok(table.put(key, value))
}

fn value_at(table: &Keyed<u32, char>, key: u32) -> Option<char> {
    table.get(&key).copied()
}

// Whether these are the table's rows.
fn has_rows(table: Keyed<u32, char>, rows: &[(u32, char)]) -> bool {
    table.into_vec().as_slice() == rows
}

// Rows with the least and the greatest key.
fn three_rows(alloc: Global) -> Result<Keyed<u32, char>, Fail> {
    table_of(alloc, &[(0, 'a'), (7, 'b'), (u32::MAX, 'c')])
}

// Puts the greatest key into an empty table, and then the least.
fn two_put(alloc: Global) -> Result<Keyed<u32, char>, Fail> {
    let mut table = Keyed::new(alloc);
    put(&mut table, u32::MAX, 'c')?;
    put(&mut table, 0, 'a')?;
    Ok(table)
}

#[test]
fn rows_stand_by_their_keys(rt: HostRuntime) -> Result<(), Fail> {
    same(
        &rt,
        has_rows(two_put(rt.alloc())?, &[(0, 'a'), (u32::MAX, 'c')]),
        true,
    );
    Ok(())
}

// Puts a key twice: the values before, and the number of rows.
fn put_twice(alloc: Global) -> Result<(Option<char>, Option<char>, usize), Fail> {
    let mut table = three_rows(alloc)?;
    let first = put(&mut table, 1, 'd')?;
    let second = put(&mut table, 1, 'e')?;
    Ok((first, second, table.len()))
}

#[test]
fn a_row_is_put_over_another(rt: HostRuntime) -> Result<(), Fail> {
    same(&rt, put_twice(rt.alloc())?, (None, Some('d'), 4));
    Ok(())
}

// Drops the least key, and the greatest one twice: the values before, and the number of rows.
fn dropped(alloc: Global) -> Result<(Option<char>, Option<char>, Option<char>, usize), Fail> {
    let mut table = three_rows(alloc)?;
    let least = table.drop_key(&0);
    let greatest = table.drop_key(&u32::MAX);
    let again = table.drop_key(&u32::MAX);
    Ok((least, greatest, again, table.len()))
}

#[test]
fn the_least_and_the_greatest_key_go(rt: HostRuntime) -> Result<(), Fail> {
    same(&rt, dropped(rt.alloc())?, (Some('a'), Some('c'), None, 1));
    Ok(())
}

fn write(table: &mut Keyed<u32, char>, key: u32, value: char) {
    if let Some(place) = table.get_mut(&key) {
        *place = value;
    }
}

// Writes 'x' over 'b': the values of a key below, of this key, and of a key that isn't there.
fn written(alloc: Global) -> Result<(Option<char>, Option<char>, Option<char>), Fail> {
    let mut table = three_rows(alloc)?;
    write(&mut table, 7, 'x');
    Ok((
        value_at(&table, 0),
        value_at(&table, 7),
        value_at(&table, 8),
    ))
}

#[test]
fn a_value_is_read_and_written(rt: HostRuntime) -> Result<(), Fail> {
    same(&rt, written(rt.alloc())?, (Some('a'), Some('x'), None));
    Ok(())
}

// Drops from a key to a lower one, and then from 2 to 4: how many, and whether the others stay.
fn dropped_between(alloc: Global) -> Result<(u64, u64, bool), Fail> {
    let mut table = table_of(alloc, &[(1, 'a'), (2, 'b'), (4, 'c'), (5, 'd')])?;
    let backwards = table.drop_between(&4, &2);
    let forwards = table.drop_between(&2, &4);
    let others = has_rows(table, &[(1, 'a'), (5, 'd')]);
    Ok((backwards, forwards, others))
}

#[test]
fn the_rows_between_two_keys_go(rt: HostRuntime) -> Result<(), Fail> {
    same(&rt, dropped_between(rt.alloc())?, (0, 2, true));
    Ok(())
}

// What stays of two rows where the value has to be 'd'.
fn kept(alloc: Global) -> Result<Keyed<u32, char>, Fail> {
    let mut table = table_of(alloc, &[(1, 'a'), (3, 'd')])?;
    table.keep(|row| row.1 == 'd');
    Ok(table)
}

#[test]
fn rows_that_pass_a_test_stay(rt: HostRuntime) -> Result<(), Fail> {
    same(&rt, has_rows(kept(rt.alloc())?, &[(3, 'd')]), true);
    Ok(())
}

// Puts these rows, with room made for them.
fn merge(table: &mut Keyed<u32, char>, new_rows: Keyed<u32, char>) -> Result<(), Fail> {
    table.reserve(new_rows.len())?;
    table.merge(new_rows.into_vec());
    Ok(())
}

fn merged(alloc: Global) -> Result<Keyed<u32, char>, Fail> {
    let mut table = table_of(alloc, &[(1, 'a'), (4, 'b'), (6, 'c')])?;
    merge(
        &mut table,
        table_of(alloc, &[(0, 'x'), (4, 'y'), (9, 'z')])?,
    )?;
    Ok(table)
}

#[test]
fn new_rows_go_among_the_old_ones(rt: HostRuntime) -> Result<(), Fail> {
    let all = [(0, 'x'), (1, 'a'), (4, 'y'), (6, 'c'), (9, 'z')];
    same(&rt, has_rows(merged(rt.alloc())?, &all), true);
    Ok(())
}

#[test]
fn equal_keys_do_not_rise(rt: HostRuntime) {
    same(&rt, rows_rise(&[(2u32, ()), (2, ())]), false);
}

// A copy, by the bound alone.
fn copied<T: Clone>(value: &T) -> Result<T, AllocError> {
    value.clone()
}

// Whether two are equal, by the bound alone.
fn are_equal<T: PartialEq>(one: &T, other: &T) -> bool {
    one == other
}

fn list_of(alloc: Global, rows: &[(u32, char)]) -> Result<RowList<u32, char>, Fail> {
    Ok(RowList::from(table_of(alloc, rows)?))
}

// Whether a list of two rows is empty, how many rows it has, and the value of the second.
fn list_read(alloc: Global) -> Result<(bool, usize, Option<char>), Fail> {
    let list = list_of(alloc, &[(1, 'a'), (2, 'b')])?;
    Ok((list.is_empty(), list.len(), list.get(&2).copied()))
}

#[test]
fn a_list_is_read(rt: HostRuntime) -> Result<(), Fail> {
    same(&rt, list_read(rt.alloc())?, (false, 2, Some('b')));
    Ok(())
}

// Whether a list of two rows is equal to its copy.
fn equals_its_copy(alloc: Global) -> Result<bool, Fail> {
    let list = list_of(alloc, &[(1, 'a'), (2, 'b')])?;
    Ok(are_equal(&list, &copied(&list)?))
}

fn lists_equal(alloc: Global, one: &[(u32, char)], other: &[(u32, char)]) -> Result<bool, Fail> {
    let one = list_of(alloc, one)?;
    Ok(are_equal(&one, &list_of(alloc, other)?))
}

#[test]
fn lists_are_equal_where_their_rows_are(rt: HostRuntime) -> Result<(), Fail> {
    same(&rt, equals_its_copy(rt.alloc())?, true);
    same(
        &rt,
        lists_equal(rt.alloc(), &[(1, 'a')], &[(2, 'a')])?,
        false,
    );
    Ok(())
}

// A row through a table, a list, a table again and its copy.
fn there_and_back(alloc: Global) -> Result<Keyed<u32, char>, Fail> {
    let table = Keyed::from(list_of(alloc, &[(5, 'x')])?);
    Ok(copied(&table)?)
}

#[test]
fn lists_and_tables_keep_their_rows(rt: HostRuntime) -> Result<(), Fail> {
    same(
        &rt,
        has_rows(there_and_back(rt.alloc())?, &[(5, 'x')]),
        true,
    );
    Ok(())
}

fn list_of_two(alloc: Global) -> Result<RowList<u32, char>, Fail> {
    let rows = [(1, 'a'), (2, 'b')].to_vec(alloc)?;
    if !rows_rise(&rows) {
        return Err(Fail::from("the keys don't rise"));
    }
    Ok(RowList::from_vec(rows))
}

fn list_has_rows(list: RowList<u32, char>, rows: &[(u32, char)]) -> bool {
    list.rows() == rows && list.into_vec().as_slice() == rows
}

#[test]
fn a_list_has_the_rows_of_its_vec(rt: HostRuntime) -> Result<(), Fail> {
    same(
        &rt,
        list_has_rows(list_of_two(rt.alloc())?, &[(1, 'a'), (2, 'b')]),
        true,
    );
    Ok(())
}
