//! Changes to the realm's own row and to users.

ghost use Rattle.std.specs.Prelude.{◌≡◌, ◌≤◌, ◌<◌, ◌+◌, ◌^◌, ◌++◌, ◌∷◌, [], length, true};
ghost use Rattle.ev_rows.specs.Rows.{SortedByKey};
ghost use Rattle.ev_base.specs.Orders.{user_cmp};
ghost use Rattle.zr_types.specs.declared.command.Command.{Command};
ghost use Rattle.zr_types.specs.declared.people.User.{User};
ghost use Rattle.zr_types.specs.Effects.{changed_at, next_user, people_effect, realm_with};
ghost use Rattle.zr_types.specs.Sound.{CountFrom, user_number};
ghost use Rattle.zr_realm.specs.Parts.{people_tables, texts_by_ids};
ghost use Rattle.zr_realm.specs.Room.{new_users};

use crate::texts::Texts;
use ev_base::{Role, Text, UserId};
use zr_people::Users;
use zr_types::{NameField, PeopleCommand, User};

/// Makes a change of people, with its texts.
pub fn change_people(people: &mut Users, command: PeopleCommand, mut texts: Texts)
    requires sorted { SortedByKey user_cmp people.old.users.rows }
    requires count { CountFrom user_number 1 people.old.users.rows }
    requires number { 0 < new_users (Command.People command)
        → length people.old.users.rows + 1 < 2 ^ 32 }
    requires room { new_users (Command.People command) ≤ people.old.users.spare }
    requires texts { texts ≡ texts_by_ids (Command.People command) [] }
    ensures realm { people.new.realm ≡ (people_effect command (people_tables people.old)).realm }
    ensures users { people.new.users.rows
        ≡ (people_effect command (people_tables people.old)).users }
{
    match command {
        PeopleCommand::RealmUpdate { property, .. } => {
            set_realm_field(people, property, texts.take())
        }
        PeopleCommand::UserAdd { role, .. } => {
            let row = new_user(role, texts);
            add_user(people, row);
        }
        PeopleCommand::UserUpdate { user, .. } => set_full_name(people, user, texts.take()),
        PeopleCommand::UserRole { user, role } => set_role(people, user, role),
        PeopleCommand::UserDeactivate { user } => set_active(people, user, false),
        PeopleCommand::UserReactivate { user } => set_active(people, user, true),
    }
}

fn set_realm_field(people: &mut Users, property: NameField, value: Text)
    ensures users { people.new.users ≡ people.old.users }
    ensures realm { people.new.realm ≡ realm_with property value people.old.realm }
{
    let row = people.realm_row_mut();
    match property {
        NameField::Name => row.name = value,
        NameField::Description => row.description = value,
    }
}

// An active user of this email, full name and key.
fn new_user(role: Role, mut texts: Texts) -> User
    requires { length texts ≡ 3 }
    ensures texts { texts ≡ result.email ∷ result.full_name ∷ result.key ∷ [] }
    ensures role { result.role ≡ role }
    ensures active { result.is_active ≡ true }
{
    User {
        email: texts.take(),
        full_name: texts.take(),
        role,
        is_active: true,
        key: texts.take(),
    }
}

// Puts a user behind all others.
fn add_user(people: &mut Users, row: User)
    requires count { CountFrom user_number 1 people.old.users.rows }
    requires number { length people.old.users.rows + 1 < 2 ^ 32 }
    requires room { 1 ≤ people.old.users.spare }
    ensures users { people.new.users.rows ≡ people.old.users.rows
        ++ (next_user (people_tables people.old), row) ∷ [] }
    ensures realm { people.new.realm ≡ people.old.realm }
{
    let number = people.users_rows().len() as u32 + 1;
    people.users_put(UserId(number), row);
}

fn set_full_name(people: &mut Users, user: UserId, full_name: Text)
    requires sorted { SortedByKey user_cmp people.old.users.rows }
    ensures users { people.new.users.rows
        ≡ changed_at user_cmp user (λ row. record row { full_name = full_name })
        people.old.users.rows }
    ensures realm { people.new.realm ≡ people.old.realm }
{
    if let Some(row) = people.users_get_mut(&user) {
        row.full_name = full_name;
    }
}

fn set_role(people: &mut Users, user: UserId, role: Role)
    requires sorted { SortedByKey user_cmp people.old.users.rows }
    ensures users { people.new.users.rows
        ≡ changed_at user_cmp user (λ row. record row { role = role }) people.old.users.rows }
    ensures realm { people.new.realm ≡ people.old.realm }
{
    if let Some(row) = people.users_get_mut(&user) {
        row.role = role;
    }
}

fn set_active(people: &mut Users, user: UserId, is_active: bool)
    requires sorted { SortedByKey user_cmp people.old.users.rows }
    ensures users { people.new.users.rows
        ≡ changed_at user_cmp user (λ row. record row { is_active = is_active })
        people.old.users.rows }
    ensures realm { people.new.realm ≡ people.old.realm }
{
    if let Some(row) = people.users_get_mut(&user) {
        row.is_active = is_active;
    }
}
