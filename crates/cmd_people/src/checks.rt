//! A command is checked against a realm. What the check makes of it can be applied.

ghost use Rattle.std.specs.Prelude.{◌≡◌, ◌+◌, nat_lt, length, IfOk, OnErr};
ghost use Rattle.zr_types.specs.declared.command.Command.TheVariants.{People};
ghost use Rattle.zr_types.specs.Refusals.{max_users, refusal};
ghost use Rattle.zr_types.specs.Checks.{stored_texts};
ghost use Rattle.zr_types.specs.Commits.{IsChecked, IsCommitted, refusal_in};
ghost use Rattle.zr_types.specs.Commands.{realm_kind};

use crate::refusals;
use cmd_rules::{GivenText, accepted_texts, commit_change, is_past};
use ev_base::{Listed, Text, TextKind, UserId};
use std::alloc::Global;
use zr_realm::Realm;
use zr_types::{Change, Command, CommitFault, Committed, NameField, PeopleCommand, Refusal};

// How many users there may be.
const MAX_USERS: usize = 10_000;

/// What the command changes, where the actor may do it at this moment. The realm stays as it is.
pub fn check(
    alloc: Global,
    realm: &Realm,
    actor: UserId,
    moment: u64,
    command: PeopleCommand,
) -> Result<Change, CommitFault>
    ensures accepted { IfOk result (λ change.
        IsChecked realm.now.state actor moment (People command) change) }
    ensures refused { refusal_in result ≡ refusal realm.now.state actor (People command) }
{
    let texts = texts_to_store(alloc, realm, actor, &command)?;
    Ok(Change {
        actor,
        moment,
        command: Command::People(command),
        texts,
        ids: Listed::from_vec(Vec::new(alloc)),
    })
}

/// Checks the command and makes the change. The realm stays as it is where there is none.
pub fn commit(
    alloc: Global,
    realm: &mut Realm,
    actor: UserId,
    moment: u64,
    command: PeopleCommand,
) -> Result<Committed, CommitFault>
    ensures accepted { IfOk result (λ made. IsCommitted realm.old.state realm.new.state
        actor moment (People command) made) }
    ensures refused { refusal_in result ≡ refusal realm.old.state actor (People command) }
    ensures unchanged { OnErr result (realm.new.state ≡ realm.old.state) }
{
    let change = check(alloc, realm, actor, moment, command)?;
    Ok(commit_change(alloc, realm, change)?)
}

// The texts of a command that nothing refuses.
fn texts_to_store(
    alloc: Global,
    realm: &Realm,
    actor: UserId,
    command: &PeopleCommand,
) -> Result<Listed<Text>, CommitFault>
    ensures accepted { IfOk result (λ texts.
        texts ≡ stored_texts realm.now.state.tables actor (People command.now)) }
    ensures refused { refusal_in result
        ≡ refusal realm.now.state actor (People command.now) }
{
    if !refusals::is_known(realm, actor, command) {
        return Err(CommitFault::Refused(Refusal::ActorUnknown));
    }
    match command {
        PeopleCommand::RealmUpdate { property, value } => {
            let own = refusals::refusal_of_realm_update(realm, actor, *property, value);
            let texts = [GivenText::new(realm_kind(*property), value)];
            accepted_texts(alloc, realm, own, &texts, false)
        }
        PeopleCommand::UserAdd {
            email,
            full_name,
            role,
            key,
        } => {
            let own = refusals::refusal_of_user_add(realm, actor, email, *role);
            let texts = [
                GivenText::new(TextKind::Email, email),
                GivenText::new(TextKind::FullName, full_name),
                GivenText::new(TextKind::ApiKey, key),
            ];
            accepted_texts(alloc, realm, own, &texts, users_are_full(realm))
        }
        PeopleCommand::UserUpdate { user, full_name } => {
            let own = refusals::refusal_of_user_update(realm, actor, *user, full_name);
            let texts = [GivenText::new(TextKind::FullName, full_name)];
            accepted_texts(alloc, realm, own, &texts, false)
        }
        PeopleCommand::UserRole { user, role } => {
            let own = refusals::refusal_of_user_role(realm, actor, *user, *role);
            accepted_texts(alloc, realm, own, &[], false)
        }
        PeopleCommand::UserDeactivate { user } => {
            let own = refusals::refusal_of_user_deactivate(realm, actor, *user);
            accepted_texts(alloc, realm, own, &[], false)
        }
        PeopleCommand::UserReactivate { user } => {
            let own = refusals::refusal_of_user_reactivate(realm, actor, *user);
            accepted_texts(alloc, realm, own, &[], false)
        }
    }
}

fn realm_kind(property: NameField) -> TextKind
    ensures { result ≡ realm_kind property }
{
    match property {
        NameField::Name => TextKind::RealmName,
        NameField::Description => TextKind::RealmDescription,
    }
}

fn users_are_full(realm: &Realm) -> bool
    ensures { result ≡ nat_lt max_users (length realm.now.state.tables.users + 1) }
{
    is_past(MAX_USERS, realm.people().users_rows().len(), 1)
}
