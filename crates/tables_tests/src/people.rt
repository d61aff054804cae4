//! The table of people.

use crate::samples::{same, text_is};
use ev_base::{Role, Text, TextFault, TextKind, UserId};
use std::alloc::Global;
use std::test::Fail;
use zr_people::Users;
use zr_types::{RealmRow, User};

fn realm_row(alloc: Global, name: &str) -> Result<RealmRow, TextFault> {
    Ok(RealmRow {
        name: Text::read(alloc, TextKind::RealmName, name)?,
        description: Text::read(alloc, TextKind::RealmDescription, "")?,
    })
}

fn user(alloc: Global, name: &str) -> Result<User, TextFault> {
    Ok(User {
        email: Text::read(alloc, TextKind::Email, name)?,
        full_name: Text::read(alloc, TextKind::FullName, name)?,
        role: Role::Member,
        is_active: true,
        key: Text::read(alloc, TextKind::ApiKey, name)?,
    })
}

// Writes a user's row, with room made for it, and answers whether the row before was active.
fn put(table: &mut Users, alloc: Global, number: u32, name: &str) -> Result<Option<bool>, Fail> {
    table.users_reserve(1)?;
    let row = user(alloc, name)?;
    let before = table.users_put(UserId(number), row);
    Ok(before.map(|row| row.is_active))
}

// A table without users.
fn no_users(alloc: Global) -> Result<Users, TextFault> {
    Ok(Users::new(alloc, realm_row(alloc, "Realm")?))
}

// Writes users 1 and 2.
fn put_ann_and_bob(table: &mut Users, alloc: Global) -> Result<(), Fail> {
    put(table, alloc, 2, "Bob")?;
    put(table, alloc, 1, "Ann")?;
    Ok(())
}

fn is_named(table: &Users, number: u32, name: &str) -> Option<bool> {
    let row = table.users_get(&UserId(number))?;
    Some(text_is(&row.full_name, name))
}

fn deactivate(table: &mut Users, number: u32) {
    if let Some(row) = table.users_get_mut(&UserId(number)) {
        row.is_active = false;
    }
}

// Writes two users, and Cat over Bob, who was deactivated: whether the row before was active, and
// whether each of three users is Cat then.
fn put_over_bob(table: &mut Users, alloc: Global) -> Result<[Option<bool>; 4], Fail> {
    put_ann_and_bob(table, alloc)?;
    deactivate(table, 2);
    let before = put(table, alloc, 2, "Cat")?;
    Ok([
        before,
        is_named(table, 1, "Cat"),
        is_named(table, 2, "Cat"),
        is_named(table, 3, "Cat"),
    ])
}

#[test]
fn users_are_read_changed_and_replaced(rt: HostRuntime) -> Result<(), Fail> {
    let found = put_over_bob(&mut no_users(rt.alloc())?, rt.alloc())?;
    same(&rt, found, [Some(false), Some(false), Some(true), None]);
    Ok(())
}

// Writes two users, and drops Bob, and then all: how many there were, whether Bob was there, how
// many went, and how many stay.
fn dropped(table: &mut Users, alloc: Global) -> Result<(usize, bool, u64, usize), Fail> {
    put_ann_and_bob(table, alloc)?;
    let before = table.users_rows().len();
    let bob = table.users_drop_key(&UserId(2)).is_some();
    let more = table.users_drop_between(&UserId(1), &UserId(9));
    Ok((before, bob, more, table.users_rows().len()))
}

#[test]
fn users_are_dropped(rt: HostRuntime) -> Result<(), Fail> {
    let found = dropped(&mut no_users(rt.alloc())?, rt.alloc())?;
    same(&rt, found, (2, true, 1, 0));
    Ok(())
}

fn realm_is(row: &RealmRow, name: &str, description: &str) -> bool {
    text_is(&row.name, name) && text_is(&row.description, description)
}

// Replaces the realm's row, and answers whether the row before was right.
fn replace_realm_row(table: &mut Users, alloc: Global) -> Result<bool, Fail> {
    let before = table.set_realm_row(realm_row(alloc, "Second")?);
    Ok(realm_is(&before, "Realm", ""))
}

fn describe(table: &mut Users, alloc: Global) -> Result<(), Fail> {
    let description = Text::read(alloc, TextKind::RealmDescription, "About")?;
    table.realm_row_mut().description = description;
    Ok(())
}

// Writes two users, and replaces the realm's row and then changes it: whether the row before and the
// row after are right.
fn realm_changed(table: &mut Users, alloc: Global) -> Result<(bool, bool), Fail> {
    put_ann_and_bob(table, alloc)?;
    let before = replace_realm_row(table, alloc)?;
    describe(table, alloc)?;
    Ok((before, realm_is(table.realm_row(), "Second", "About")))
}

#[test]
fn the_realm_row_is_replaced_and_changed(rt: HostRuntime) -> Result<(), Fail> {
    let found = realm_changed(&mut no_users(rt.alloc())?, rt.alloc())?;
    same(&rt, found, (true, true));
    Ok(())
}
