//! The check of a command, whatever its part of the vocabulary.

ghost use Rattle.std.specs.Prelude.{◌≡◌, IfOk};
ghost use Rattle.zr_types.specs.Commits.{IsChecked, refusal_in};
ghost use Rattle.zr_types.specs.Refusals.{refusal};

use ev_base::UserId;
use std::alloc::Global;
use zr_realm::Realm;
use zr_types::{Change, Command, CommitFault};

/// What a command changes, where the actor may do it at this moment.
pub fn check(
    alloc: Global,
    realm: &Realm,
    actor: UserId,
    moment: u64,
    command: Command,
) -> Result<Change, CommitFault>
    ensures accepted { IfOk result (IsChecked realm.now.state actor moment command) }
    ensures refused { refusal_in result ≡ refusal realm.now.state actor command }
{
    match command {
        Command::People(command) => cmd_people::check(alloc, realm, actor, moment, command),
        Command::Streams(command) => cmd_streams::check(alloc, realm, actor, moment, command),
        Command::Posts(command) => cmd_posts::check(alloc, realm, actor, moment, command),
        Command::Marks(command) => cmd_marks::check(alloc, realm, actor, moment, command),
    }
}
