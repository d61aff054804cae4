//! The notice of a change of streams.

ghost use Rattle.std.specs.Prelude.{◌≡◌, ◌<◌, ◌+◌, ◌^◌, ◌++◌, IfOk, length, true};
ghost use Rattle.ev_base.specs.declared.ids.UserId.{UserId};
ghost use Rattle.ev_types.specs.Audiences.{events_for};
ghost use Rattle.ev_types.specs.Changes.{changes_between};
ghost use Rattle.zr_realm.specs.Room.{new_streams};
ghost use Rattle.zr_types.specs.Checks.{IsChangeOf, WasChecked};
ghost use Rattle.zr_types.specs.Effects.{after_command};
ghost use Rattle.zr_types.specs.declared.command.Command.{Command};
ghost use Rattle.zw_traces.specs.RealmTrace.{deactivated_by};
ghost use Rattle.zw_views.specs.Views.{view_of};
ghost use Rattle.nt_rules.specs.Kinds.{is_of_streams};
ghost use Rattle.nt_streams.specs.StreamParts.{stream_parts, texts_in};

use crate::parts::turn_parts;
use crate::turn::turn_of;
use ev_base::{Listed, NoMemory, Text, UserId};
use ev_types::{Notice, Part};
use std::alloc::Global;
use zr_realm::{Realm, tables_are_sorted, tables_are_sound};
use zr_types::{Change, Command, StreamCommand};

/// Tells each user number what a change of streams will change in its view. The change was made by
/// a check on this realm.
pub fn notice(alloc: Global, before: &Realm, change: &Change) -> Result<Notice, NoMemory>
    requires streams { is_of_streams change.now.command ≡ true }
    requires checked { WasChecked before.now.state change.now }
    ensures number { IfOk result (λ notice. notice.number ≡ before.now.state.commits + 1) }
    ensures ends { IfOk result (λ notice. notice.ends ≡ deactivated_by change.now.command) }
    ensures tells { (command : Command) → IsChangeOf before.now.state command change.now
        → IfOk result (λ notice. (user : UserId) → events_for user notice
        ≡ changes_between (view_of before.now.state.tables user) (view_of (after_command
        change.now.actor change.now.moment command before.now.state).tables user)) }
{
    tables_are_sorted(before);
    tables_are_sound(before);
    let Command::Streams(command) = &change.command else {
        unreachable!()
    };
    let parts = stream_parts(
        alloc,
        before,
        change.actor,
        command,
        change.texts.as_slice(),
    )?;
    Ok(Notice {
        number: before.commits() + 1,
        ends: None,
        parts: Listed::from_vec(parts),
    })
}

fn stream_parts(
    alloc: Global,
    realm: &Realm,
    actor: UserId,
    command: &StreamCommand,
    texts: &[Text],
) -> Result<Vec<Part>, NoMemory>
    requires texts { texts.now ≡ texts_in realm.now.state.tables actor command.now }
    requires number { 0 < new_streams (Command.Streams command.now)
        → length realm.now.state.tables.streams + 1 < 2 ^ 32 }
    ensures { IfOk result
        (λ parts. parts.items ≡ stream_parts realm.now.state.tables actor command.now) }
{
    let turn = turn_of(realm, actor, command, texts)?;
    turn_parts(alloc, realm, &turn)
}
