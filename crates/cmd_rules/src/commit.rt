//! A change that a check made is made in the realm.

ghost use Rattle.std.specs.Prelude.{◌≡◌, ◌+◌, IfOk, OnErr, option_map};
ghost use Rattle.zr_types.specs.declared.command.Command.{Command};
ghost use Rattle.zr_types.specs.Tables.{RealmState};
ghost use Rattle.zr_types.specs.Checks.{IsChangeOf, WasChecked};
ghost use Rattle.zr_types.specs.Effects.{made_by};
ghost use Rattle.zr_types.specs.Commits.{IsCommitted, changed_by};

use ev_base::{Listed, NoMemory};
use std::alloc::Global;
use zr_realm::Realm;
use zr_types::{
    Change, Command, Committed, MarkCommand, PeopleCommand, PostCommand, StreamCommand,
};

/// Makes a change that a check made. The realm stays as it is where memory is lacking.
pub fn commit_change(
    alloc: Global,
    realm: &mut Realm,
    change: Change,
) -> Result<Committed, NoMemory>
    requires { WasChecked realm.old.state change }
    ensures accepted { IfOk result (λ made. (command : Command)
        → IsChangeOf realm.old.state command change → IsCommitted realm.old.state
        realm.new.state change.actor change.moment command made) }
    ensures unchanged { OnErr result (realm.new.state ≡ realm.old.state) }
{
    let id = made_id(realm, &change);
    let changed = changed_messages(alloc, &change)?;
    realm.reserve(&change)?;
    let number = realm.apply(change);
    Ok(Committed {
        number,
        id,
        changed,
    })
}

// The number of the user, stream or message that the change makes.
fn made_id(realm: &Realm, change: &Change) -> Option<u32>
    requires { WasChecked realm.now.state change.now }
    ensures { result ≡ made_by realm.now.state change.now.command }
{
    match rows_before(realm, &change.command) {
        Some(before) => Some(before as u32 + 1),
        None => None,
    }
}

// How many users, streams or messages there were before the command makes one.
fn rows_before(realm: &Realm, command: &Command) -> Option<u64>
    ensures { option_map (λ before. before + 1) result ≡ made_by realm.now.state command.now }
{
    match command {
        Command::People(PeopleCommand::UserAdd { .. }) => {
            Some(realm.people().users_rows().len() as u64)
        }
        Command::Streams(StreamCommand::Create { .. }) => {
            Some(realm.streams().streams_rows().len() as u64)
        }
        Command::Posts(PostCommand::SendStream { .. } | PostCommand::SendDm { .. }) => {
            Some(realm.sent())
        }
        _ => None,
    }
}

// The messages whose flags the change sets or clears.
fn changed_messages(alloc: Global, change: &Change) -> Result<Listed<u32>, NoMemory>
    ensures { (state : RealmState) (command : Command) → IsChangeOf state command change.now
        → IfOk result (λ changed. changed ≡ changed_by state.tables change.now.actor command) }
{
    match &change.command {
        Command::Marks(MarkCommand::Flags { .. }) => Ok(change.ids.clone()?),
        _ => Ok(Listed::from_vec(Vec::new(alloc))),
    }
}
