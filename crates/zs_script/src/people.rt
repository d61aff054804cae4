//! The arguments of the commands that change the realm's own row and users.

ghost use Rattle.std.specs.Prelude.{◌≡◌, ℕ, List, [], ◌∷◌, IfOk};
ghost use Rattle.zr_types.specs.declared.command.Command.{Command};
ghost use Rattle.zr_types.specs.declared.command.PeopleCommand.{PeopleCommand};
ghost use Rattle.zs_words.specs.declared.names.CommandName.{CommandName};
ghost use Rattle.zs_script.specs.Grammar.{ArgumentsSpell, Three};
ghost use Rattle.zs_words.specs.Readings.{Reads, pointed};
ghost use Rattle.zs_words.specs.Texts.{IsText};

use ev_base::Role;
use std::alloc::{AllocError, Global};
use zr_types::{Command, PeopleCommand};
use zs_words::{LineFault, is_text, read_name, read_role, read_text, read_user, text_of};

pub(crate) fn read_realm_update(alloc: Global, words: &[&[u8]]) -> Result<Command, LineFault>
    ensures { Reads (ArgumentsSpell CommandName.RealmUpdate (pointed words.now)) result }
{
    let [property, value] = *words else {
        return Err(LineFault::NotAStep);
    };
    let Some(property) = read_name(property) else {
        return Err(LineFault::NotAStep);
    };
    let value = read_text(alloc, value)?;
    Ok(Command::People(PeopleCommand::RealmUpdate { property, value }))
}

pub(crate) fn read_user_add(alloc: Global, words: &[&[u8]]) -> Result<Command, LineFault>
    ensures { Reads (ArgumentsSpell CommandName.UserAdd (pointed words.now)) result }
{
    let [email, full_name, role, key] = *words else {
        return Err(LineFault::NotAStep);
    };
    let Some(role) = read_role(role) else {
        return Err(LineFault::NotAStep);
    };
    if !is_text(email) {
        return Err(LineFault::NotAStep);
    }
    if !is_text(full_name) {
        return Err(LineFault::NotAStep);
    }
    if !is_text(key) {
        return Err(LineFault::NotAStep);
    }
    Ok(user_add(alloc, email, full_name, role, key)?)
}

fn user_add(
    alloc: Global,
    email: &[u8],
    full_name: &[u8],
    role: Role,
    key: &[u8],
) -> Result<Command, AllocError>
    requires email_is_text { (text : List ℕ) × IsText email.now text }
    requires full_name_is_text { (text : List ℕ) × IsText full_name.now text }
    requires key_is_text { (text : List ℕ) × IsText key.now text }
    ensures { IfOk result (Three IsText IsText IsText
        (λ email full_name key. Command.People (PeopleCommand.UserAdd email full_name role key))
        (email.now ∷ full_name.now ∷ key.now ∷ [])) }
{
    Ok(Command::People(PeopleCommand::UserAdd {
        email: text_of(alloc, email)?,
        full_name: text_of(alloc, full_name)?,
        role,
        key: text_of(alloc, key)?,
    }))
}

pub(crate) fn read_user_update(alloc: Global, words: &[&[u8]]) -> Result<Command, LineFault>
    ensures { Reads (ArgumentsSpell CommandName.UserUpdate (pointed words.now)) result }
{
    let [user, full_name] = *words else {
        return Err(LineFault::NotAStep);
    };
    let Some(user) = read_user(user) else {
        return Err(LineFault::NotAStep);
    };
    let full_name = read_text(alloc, full_name)?;
    Ok(Command::People(PeopleCommand::UserUpdate { user, full_name }))
}

pub(crate) fn read_user_role(words: &[&[u8]]) -> Result<Command, LineFault>
    ensures { Reads (ArgumentsSpell CommandName.UserRole (pointed words.now)) result }
{
    let [user, role] = *words else {
        return Err(LineFault::NotAStep);
    };
    let (Some(user), Some(role)) = (read_user(user), read_role(role)) else {
        return Err(LineFault::NotAStep);
    };
    Ok(Command::People(PeopleCommand::UserRole { user, role }))
}

pub(crate) fn read_user_deactivate(words: &[&[u8]]) -> Result<Command, LineFault>
    ensures { Reads (ArgumentsSpell CommandName.UserDeactivate (pointed words.now)) result }
{
    let [user] = *words else {
        return Err(LineFault::NotAStep);
    };
    let Some(user) = read_user(user) else {
        return Err(LineFault::NotAStep);
    };
    Ok(Command::People(PeopleCommand::UserDeactivate { user }))
}

pub(crate) fn read_user_reactivate(words: &[&[u8]]) -> Result<Command, LineFault>
    ensures { Reads (ArgumentsSpell CommandName.UserReactivate (pointed words.now)) result }
{
    let [user] = *words else {
        return Err(LineFault::NotAStep);
    };
    let Some(user) = read_user(user) else {
        return Err(LineFault::NotAStep);
    };
    Ok(Command::People(PeopleCommand::UserReactivate { user }))
}
