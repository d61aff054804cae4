//! Laws of realms. Each call does nothing.

ghost use Rattle.std.specs.Prelude.{◌+◌};
ghost use Rattle.zr_types.specs.declared.command.Change.{Change};
ghost use Rattle.zr_types.specs.declared.command.Command.{Command};
ghost use Rattle.zr_types.specs.Checks.{IsChangeOf};
ghost use Rattle.zr_types.specs.Effects.{after_command};
ghost use Rattle.zr_types.specs.Sound.{IsSound, TablesSorted};
ghost use Rattle.zr_types.specs.Tables.{RealmState};

use crate::realm::Realm;

/// What holds of the tables of every realm.
pub fn tables_are_sound(realm: &Realm)
    ensures { IsSound realm.now.state.tables realm.now.state.sent }
{
    let _ = &realm.tables;
}

/// The rows of every table are sorted by key.
pub fn tables_are_sorted(realm: &Realm)
    ensures { TablesSorted realm.now.state.tables }
{
    let _ = &realm.tables;
}

/// What a check accepts leaves sound tables sound and sorted.
pub fn effects_keep_tables_sound()
    ensures sound { (state : RealmState) (command : Command) (change : Change)
        → IsSound state.tables state.sent → TablesSorted state.tables
        → IsChangeOf state command change
        → IsSound (after_command change.actor change.moment command state).tables
        (after_command change.actor change.moment command state).sent }
    ensures sorted { (state : RealmState) (command : Command) (change : Change)
        → IsSound state.tables state.sent → TablesSorted state.tables
        → IsChangeOf state command change
        → TablesSorted (after_command change.actor change.moment command state).tables }
{}
