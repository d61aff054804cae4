//! For which reasons of its own each command is refused, in the order of the rules.

ghost use Rattle.std.specs.Prelude.{◌≡◌, ℕ, List, bytes_eq};
ghost use Rattle.std.specs.List.{list_any};
ghost use Rattle.zr_types.specs.declared.command.Command.TheVariants.{People};
ghost use Rattle.zr_types.specs.declared.command.PeopleCommand.TheVariants as of_people;
ghost use Rattle.zr_types.specs.Refusals.{first_reason, is_first_user, is_known, own_reasons, realm_field};

use cmd_rules::{is_administrator, is_only_owner, is_owner, is_owner_role, may_change};
use ev_base::{PlainText, Role, Text, UserId};
use zr_realm::Realm;
use zr_types::{NameField, PeopleCommand, Refusal};

/// Whether the actor exists and is active. While there is no user, actor 0 may add one.
pub fn is_known(realm: &Realm, actor: UserId, command: &PeopleCommand) -> bool
    ensures { result ≡ is_known realm.now.state.tables actor (People command.now) }
{
    let adds_user = matches!(command, PeopleCommand::UserAdd { .. });
    realm.is_active_user(actor) || (adds_user && is_first_user(realm, actor))
}

fn is_first_user(realm: &Realm, actor: UserId) -> bool
    ensures { result ≡ is_first_user realm.now.state.tables actor }
{
    actor.0 == 0 && realm.people().users_rows().is_empty()
}

pub fn refusal_of_realm_update(
    realm: &Realm,
    actor: UserId,
    property: NameField,
    value: &PlainText,
) -> Option<Refusal>
    ensures { result ≡ first_reason (own_reasons realm.now.state actor
        (People (of_people.RealmUpdate property value.now))) }
{
    if !is_administrator(realm, actor) {
        return Some(Refusal::NotPermitted);
    }
    if value.as_str() == realm_field(realm, property).as_str() {
        return Some(Refusal::AlreadySo);
    }
    None
}

fn realm_field(realm: &Realm, property: NameField) -> &Text
    ensures { result.now ≡ realm_field realm.now.state.tables property }
{
    let row = realm.people().realm_row();
    match property {
        NameField::Name => &row.name,
        NameField::Description => &row.description,
    }
}

pub fn refusal_of_user_add(
    realm: &Realm,
    actor: UserId,
    email: &PlainText,
    role: Role,
) -> Option<Refusal>
    ensures { (full_name key : List ℕ) → result ≡ first_reason (own_reasons realm.now.state actor
        (People (of_people.UserAdd email.now full_name role key))) }
{
    let is_forbidden = if actor.0 == 0 {
        !is_owner_role(role)
    } else {
        !is_administrator(realm, actor) || (is_owner_role(role) && !is_owner(realm, actor))
    };
    if is_forbidden {
        return Some(Refusal::NotPermitted);
    }
    if is_email_taken(realm, email) {
        return Some(Refusal::NameTaken);
    }
    None
}

fn is_email_taken(realm: &Realm, email: &PlainText) -> bool
    ensures { result ≡ list_any (λ row. bytes_eq row.1.email email.now)
        realm.now.state.tables.users }
{
    let rows = realm.people().users_rows();
    rows.iter()
        .any(|row| row.1.email.as_str() == email.as_str())
}

pub fn refusal_of_user_update(
    realm: &Realm,
    actor: UserId,
    user: UserId,
    full_name: &PlainText,
) -> Option<Refusal>
    ensures { result ≡ first_reason (own_reasons realm.now.state actor
        (People (of_people.UserUpdate user full_name.now))) }
{
    if !may_change(realm, actor, user) {
        return Some(Refusal::NotPermitted);
    }
    let Some(row) = realm.user(user) else {
        return Some(Refusal::NoSuchUser);
    };
    if row.full_name.as_str() == full_name.as_str() {
        return Some(Refusal::AlreadySo);
    }
    None
}

pub fn refusal_of_user_role(
    realm: &Realm,
    actor: UserId,
    user: UserId,
    role: Role,
) -> Option<Refusal>
    ensures { result ≡ first_reason (own_reasons realm.now.state actor
        (People (of_people.UserRole user role))) }
{
    let concerns_owner = is_owner_role(role) || is_owner(realm, user);
    if !is_administrator(realm, actor)
        || (concerns_owner && !is_owner(realm, actor))
        || (is_only_owner(realm, user) && !is_owner_role(role))
    {
        return Some(Refusal::NotPermitted);
    }
    let Some(row) = realm.user(user) else {
        return Some(Refusal::NoSuchUser);
    };
    if row.role.number() == role.number() {
        return Some(Refusal::AlreadySo);
    }
    None
}

pub fn refusal_of_user_deactivate(realm: &Realm, actor: UserId, user: UserId) -> Option<Refusal>
    ensures { result ≡ first_reason (own_reasons realm.now.state actor
        (People (of_people.UserDeactivate user))) }
{
    if !may_change(realm, actor, user)
        || (is_owner(realm, user) && !is_owner(realm, actor))
        || is_only_owner(realm, user)
    {
        return Some(Refusal::NotPermitted);
    }
    let Some(row) = realm.user(user) else {
        return Some(Refusal::NoSuchUser);
    };
    if !row.is_active {
        return Some(Refusal::AlreadySo);
    }
    None
}

pub fn refusal_of_user_reactivate(realm: &Realm, actor: UserId, user: UserId) -> Option<Refusal>
    ensures { result ≡ first_reason (own_reasons realm.now.state actor
        (People (of_people.UserReactivate user))) }
{
    if !is_administrator(realm, actor) || (is_owner(realm, user) && !is_owner(realm, actor)) {
        return Some(Refusal::NotPermitted);
    }
    let Some(row) = realm.user(user) else {
        return Some(Refusal::NoSuchUser);
    };
    if row.is_active {
        return Some(Refusal::AlreadySo);
    }
    None
}
