//! The table of people.

ghost use Rattle.std.specs.Prelude.{◌≡◌, ◌≤◌, ◌+◌, [], length, filter, if◌then◌else◌, is_some, IsNone, IsOk, OnOk, option_copied};
ghost use Rattle.std.specs.Option.{option_copied_mut};
ghost use Rattle.std.specs.Borrow.{sem};
ghost use Rattle.std.specs.Map.{remove_entry};
ghost use Rattle.std.specs.BTreeMap.{insert_entry, is_at};
ghost use Rattle.ev_rows.specs.Rows.{SortedByKey, is_outside, row_at};
ghost use Rattle.ev_base.specs.Orders.{user_cmp};
ghost use Rattle.zr_people.specs.Lent.{lends_realm, lends_user};

use ev_base::{Keyed, NoMemory, UserId};
use std::alloc::Global;
use std::marker::Model;
use std::mem;
use zr_types::{RealmRow, User};

/// The realm's row, and the users by their number.
///
/// Beside `users_reserve` no call takes memory.
#[derive(Debug, Drop)]
pub struct Users {
    realm: RealmRow,
    users: Keyed<UserId, User>,
}

impl Model for Users {
    ghost use Rattle.zr_people.specs.Tables.{PeopleTables};

    ghost Value = { PeopleTables };

    ghost view = { λ it. record { realm = it.realm; users = it.users } };
}

impl Users {
    /// A realm without users. What is allocated later comes from `alloc`.
    pub fn new(alloc: Global, realm: RealmRow) -> Users
        ensures realm { result.realm ≡ realm }
        ensures users { result.users.rows ≡ [] }
    {
        Users {
            realm,
            users: Keyed::new(alloc),
        }
    }

    pub fn realm_row(&self) -> &RealmRow
        ensures { result.now ≡ self.now.realm }
    {
        &self.realm
    }

    pub fn realm_row_mut(&mut self) -> &mut RealmRow
        ensures* writes_back { sem 𝓛 (lends_realm self.entry result) }
        ensures value { result.now ≡ self.old.realm }
    {
        &mut self.realm
    }

    /// Writes the realm's row, and answers the one that it had.
    pub fn set_realm_row(&mut self, row: RealmRow) -> RealmRow
        ensures before { result ≡ self.old.realm }
        ensures after { self.new ≡ record self.old { realm = row } }
    {
        mem::replace(&mut self.realm, row)
    }

    pub fn users_get(&self, key: &UserId) -> Option<&User>
        ensures { option_copied result ≡ row_at user_cmp self.now.users.rows key.now }
    {
        self.users.get(key)
    }

    pub fn users_get_mut(&mut self, key: &UserId) -> Option<&mut User>
        ensures* writes_back { sem 𝓛 (lends_user self.entry key.now result) }
        ensures value { option_copied_mut result ≡ row_at user_cmp self.old.users.rows key.now }
    {
        self.users.get_mut(key)
    }

    /// All users, rising by number.
    pub fn users_rows(&self) -> &[(UserId, User)]
        ensures all { result.now ≡ self.now.users.rows }
        ensures rise { SortedByKey user_cmp self.now.users.rows }
    {
        self.users.rows()
    }

    /// Makes room for `more` users that are not there yet.
    pub fn users_reserve(&mut self, more: usize) -> Result<(), NoMemory>
        ensures room { OnOk result (more ≤ self.new.users.spare) }
        ensures succeeds { more ≤ self.old.users.spare → IsOk result }
        ensures rows { self.new.users.rows ≡ self.old.users.rows }
        ensures spare { self.old.users.spare ≤ self.new.users.spare }
        ensures realm { self.new.realm ≡ self.old.realm }
    {
        self.users.reserve(more)
    }

    /// Writes the user's row, and answers the one that the user had.
    pub fn users_put(&mut self, key: UserId, row: User) -> Option<User>
        requires { IsNone (row_at user_cmp self.old.users.rows key) → 1 ≤ self.old.users.spare }
        ensures before { result ≡ row_at user_cmp self.old.users.rows key }
        ensures rows { self.new.users.rows ≡ insert_entry user_cmp self.old.users.rows key row }
        ensures room { self.old.users.spare
            ≤ self.new.users.spare + (if is_some result then 0 else 1) }
        ensures realm { self.new.realm ≡ self.old.realm }
    {
        self.users.put(key, row)
    }

    /// Takes the user's row out, and answers it.
    pub fn users_drop_key(&mut self, key: &UserId) -> Option<User>
        ensures before { result ≡ row_at user_cmp self.old.users.rows key.now }
        ensures rows { self.new.users.rows
            ≡ remove_entry (is_at (user_cmp key.now)) self.old.users.rows }
        ensures room { self.old.users.spare ≤ self.new.users.spare }
        ensures realm { self.new.realm ≡ self.old.realm }
    {
        self.users.drop_key(key)
    }

    /// Takes out the users from `low` to `high`, both included, and answers how many.
    pub fn users_drop_between(&mut self, low: &UserId, high: &UserId) -> u64
        ensures rows { self.new.users.rows
            ≡ filter (λ row. is_outside user_cmp low.now high.now row.0) self.old.users.rows }
        ensures count { result + length self.new.users.rows ≡ length self.old.users.rows }
        ensures room { self.old.users.spare ≤ self.new.users.spare }
        ensures realm { self.new.realm ≡ self.old.realm }
    {
        self.users.drop_between(low, high)
    }
}
