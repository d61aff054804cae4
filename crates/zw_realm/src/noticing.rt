//! The notice of a change, whatever its part of the vocabulary.

ghost use Rattle.std.specs.Prelude.{◌≡◌, ◌+◌, IfOk};
ghost use Rattle.ev_base.specs.declared.ids.UserId.{UserId};
ghost use Rattle.ev_types.specs.Audiences.{events_for};
ghost use Rattle.ev_types.specs.Changes.{changes_between};
ghost use Rattle.zr_types.specs.Checks.{IsChangeOf, WasChecked};
ghost use Rattle.zr_types.specs.Effects.{after_command};
ghost use Rattle.zr_types.specs.declared.command.Command.{Command};
ghost use Rattle.zw_traces.specs.RealmTrace.{deactivated_by};
ghost use Rattle.zw_views.specs.Views.{view_of};

use ev_base::NoMemory;
use ev_types::Notice;
use std::alloc::Global;
use zr_realm::Realm;
use zr_types::{Change, Command};

/// Tells each user number what a change will change in its view. The change was made by a check on
/// this realm.
pub fn notice(alloc: Global, before: &Realm, change: &Change) -> Result<Notice, NoMemory>
    requires { WasChecked before.now.state change.now }
    ensures number { IfOk result (λ notice. notice.number ≡ before.now.state.commits + 1) }
    ensures ends { IfOk result (λ notice. notice.ends ≡ deactivated_by change.now.command) }
    ensures tells { (command : Command) → IsChangeOf before.now.state command change.now
        → IfOk result (λ notice. (user : UserId) → events_for user notice
        ≡ changes_between (view_of before.now.state.tables user) (view_of (after_command
        change.now.actor change.now.moment command before.now.state).tables user)) }
{
    match &change.command {
        Command::People(_) => nt_people::notice(alloc, before, change),
        Command::Streams(_) => nt_streams::notice(alloc, before, change),
        Command::Posts(_) => nt_posts::notice(alloc, before, change),
        Command::Marks(_) => nt_marks::notice(alloc, before, change),
    }
}
