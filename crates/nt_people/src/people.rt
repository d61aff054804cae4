//! The notice of a change of people.

ghost use Rattle.std.specs.Prelude.{◌≡◌, ◌<◌, ◌+◌, ◌^◌, ◌++◌, IfOk, Some, length, true};
ghost use Rattle.ev_base.specs.declared.ids.UserId.{UserId};
ghost use Rattle.ev_types.specs.Audiences.{events_for};
ghost use Rattle.ev_types.specs.Changes.{changes_between};
ghost use Rattle.zr_realm.specs.Room.{new_users};
ghost use Rattle.zr_types.specs.Checks.{IsChangeOf, WasChecked};
ghost use Rattle.zr_types.specs.Effects.{after_command};
ghost use Rattle.zr_types.specs.declared.command.Command.{Command};
ghost use Rattle.zw_traces.specs.RealmTrace.{deactivated_by};
ghost use Rattle.zw_views.specs.Views.{view_of};
ghost use Rattle.nt_rules.specs.Kinds.{is_of_people};
ghost use Rattle.nt_people.specs.PeopleParts.{people_parts, texts_in};

use crate::rows::{push_active, push_name, push_new_user, push_realm_field, push_role};
use ev_base::{Listed, NoMemory, Text, UserId};
use ev_types::{Notice, Part};
use std::alloc::Global;
use zr_realm::{Realm, tables_are_sorted, tables_are_sound};
use zr_types::{Change, Command, PeopleCommand};

/// Tells each user number what a change of people will change in its view. The change was made by a
/// check on this realm.
pub fn notice(alloc: Global, before: &Realm, change: &Change) -> Result<Notice, NoMemory>
    requires people { is_of_people change.now.command ≡ true }
    requires checked { WasChecked before.now.state change.now }
    ensures number { IfOk result (λ notice. notice.number ≡ before.now.state.commits + 1) }
    ensures ends { IfOk result (λ notice. notice.ends ≡ deactivated_by change.now.command) }
    ensures tells { (command : Command) → IsChangeOf before.now.state command change.now
        → IfOk result (λ notice. (user : UserId) → events_for user notice
        ≡ changes_between (view_of before.now.state.tables user) (view_of (after_command
        change.now.actor change.now.moment command before.now.state).tables user)) }
{
    tables_are_sorted(before);
    tables_are_sound(before);
    let Command::People(command) = &change.command else {
        unreachable!()
    };
    let parts = people_parts(alloc, before, command, change.texts.as_slice())?;
    Ok(Notice {
        number: before.commits() + 1,
        ends: deactivated_by(command),
        parts: Listed::from_vec(parts),
    })
}

// The user whom a command deactivates.
fn deactivated_by(command: &PeopleCommand) -> Option<UserId>
    ensures { result ≡ deactivated_by (Command.People command.now) }
{
    match command {
        PeopleCommand::UserDeactivate { user } => Some(*user),
        _ => None,
    }
}

fn people_parts(
    alloc: Global,
    realm: &Realm,
    command: &PeopleCommand,
    texts: &[Text],
) -> Result<Vec<Part>, NoMemory>
    requires texts { texts.now ≡ texts_in realm.now.state.tables command.now }
    requires users { 0 < new_users (Command.People command.now)
        → length realm.now.state.tables.users + 1 < 2 ^ 32 }
    ensures { IfOk result
        (λ parts. parts.items ≡ people_parts realm.now.state.tables command.now) }
{
    let mut parts = Vec::new(alloc);
    match command {
        PeopleCommand::RealmUpdate { property, .. } => {
            push_realm_field(realm, *property, &texts[0], &mut parts)?
        }
        PeopleCommand::UserAdd { role, .. } => {
            push_new_user(realm, &texts[0], &texts[1], *role, &mut parts)?
        }
        PeopleCommand::UserUpdate { user, .. } => push_name(realm, *user, &texts[0], &mut parts)?,
        PeopleCommand::UserRole { user, role } => push_role(realm, *user, *role, &mut parts)?,
        PeopleCommand::UserDeactivate { user } => push_active(realm, *user, false, &mut parts)?,
        PeopleCommand::UserReactivate { user } => push_active(realm, *user, true, &mut parts)?,
    }
    Ok(parts)
}
