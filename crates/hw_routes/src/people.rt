//! What requests ask of the realm and of users.

ghost use Rattle.std.specs.Prelude.{◌≡◌};
ghost use Rattle.hw_routes.specs.People as spec;
ghost use Rattle.hw_values.specs.Readings.{Gives};

use crate::actions::PeopleAction;
use crate::alternatives::{path_user, without};
use ev_base::{PlainText, Role, UserId};
use hw_values::{Form, Param, ValueFault};
use std::alloc::Global;
use zr_types::{NameField, PeopleCommand};

pub fn people_command(
    alloc: Global,
    action: PeopleAction,
    path: &[u8],
    form: &Form,
) -> Result<PeopleCommand, ValueFault>
    ensures { Gives result (spec.people_command action path.now form.now) }
{
    match action {
        PeopleAction::ChangeRealm => change_realm(alloc, form),
        PeopleAction::Add => add(alloc, form),
        PeopleAction::Change => change(alloc, path_user(path)?, form),
        PeopleAction::Deactivate => Ok(PeopleCommand::UserDeactivate {
            user: path_user(path)?,
        }),
        PeopleAction::Reactivate => Ok(PeopleCommand::UserReactivate {
            user: path_user(path)?,
        }),
    }
}

// Its name, or its description.
#[tactic(auto, unfolding(crate::specs::People::change_realm))]
fn change_realm(alloc: Global, form: &Form) -> Result<PeopleCommand, ValueFault>
    ensures { Gives result (spec.change_realm form.now) }
{
    if form.has(Param::Name) {
        rename_realm(alloc, form)
    } else if form.has(Param::Description) {
        describe_realm(alloc, form)
    } else {
        Err(ValueFault::Missing(Param::Name))
    }
}

#[tactic(auto, unfolding(crate::specs::People::rename_realm))]
fn rename_realm(alloc: Global, form: &Form) -> Result<PeopleCommand, ValueFault>
    ensures { Gives result (spec.rename_realm form.now) }
{
    let value = form.needed::<PlainText>(alloc, Param::Name)?;
    without(form, Param::Description, &[Param::Description])?;
    Ok(PeopleCommand::RealmUpdate {
        property: NameField::Name,
        value,
    })
}

#[tactic(auto, unfolding(crate::specs::People::describe_realm))]
fn describe_realm(alloc: Global, form: &Form) -> Result<PeopleCommand, ValueFault>
    ensures { Gives result (spec.describe_realm form.now) }
{
    let value = form.needed::<PlainText>(alloc, Param::Description)?;
    Ok(PeopleCommand::RealmUpdate {
        property: NameField::Description,
        value,
    })
}

#[tactic(auto, unfolding(crate::specs::People::add))]
fn add(alloc: Global, form: &Form) -> Result<PeopleCommand, ValueFault>
    ensures { Gives result (spec.add form.now) }
{
    let email = form.needed::<PlainText>(alloc, Param::Email)?;
    let full_name = form.needed::<PlainText>(alloc, Param::FullName)?;
    let role = form.optional::<Role>(alloc, Param::Role)?;
    let key = form.needed::<PlainText>(alloc, Param::ApiKey)?;
    Ok(PeopleCommand::UserAdd {
        email,
        full_name,
        role: role.unwrap_or(Role::Member),
        key,
    })
}

// A user's name, or role.
#[tactic(auto, unfolding(crate::specs::People::change))]
fn change(alloc: Global, user: UserId, form: &Form) -> Result<PeopleCommand, ValueFault>
    ensures { Gives result (spec.change user form.now) }
{
    if form.has(Param::FullName) {
        rename(alloc, user, form)
    } else if form.has(Param::Role) {
        change_role(alloc, user, form)
    } else {
        Err(ValueFault::Missing(Param::FullName))
    }
}

#[tactic(auto, unfolding(crate::specs::People::rename))]
fn rename(alloc: Global, user: UserId, form: &Form) -> Result<PeopleCommand, ValueFault>
    ensures { Gives result (spec.rename user form.now) }
{
    let full_name = form.needed::<PlainText>(alloc, Param::FullName)?;
    without(form, Param::Role, &[Param::Role])?;
    Ok(PeopleCommand::UserUpdate { user, full_name })
}

#[tactic(auto, unfolding(crate::specs::People::change_role))]
fn change_role(alloc: Global, user: UserId, form: &Form) -> Result<PeopleCommand, ValueFault>
    ensures { Gives result (spec.change_role user form.now) }
{
    let role = form.needed::<Role>(alloc, Param::Role)?;
    Ok(PeopleCommand::UserRole { user, role })
}
