//! What changed in the realm and its users.

ghost use Rattle.std.specs.Prelude.{◌≡◌, ◌++◌, IfOk};
ghost use Rattle.ev_types.specs.Changes.{realm_changes, user_changes, user_events};

use super::differences::{Changing, gained_rows, push_change, push_each, push_kept};
use ev_base::{ExactClone, Keyed, NoMemory, UserId};
use ev_types::{Event, RealmField, ShownRealm, ShownUser, UserField};

/// Adds what changed in the realm: the name, then the description.
pub fn push_realm(
    before: &ShownRealm,
    after: &ShownRealm,
    events: &mut Vec<Event>,
) -> Result<(), NoMemory>
    ensures { IfOk result (λ _. events.new.items
        ≡ events.old.items ++ realm_changes before.now after.now) }
{
    push_change(events, &before.name, &after.name, |name| {
        Event::RealmUpdate(RealmField::Name(name))
    })?;
    push_change(
        events,
        &before.description,
        &after.description,
        |description| Event::RealmUpdate(RealmField::Description(description)),
    )
}

/// Adds the new users, and then what changed in the others.
pub fn push_users(
    before: &Keyed<UserId, ShownUser>,
    after: &Keyed<UserId, ShownUser>,
    events: &mut Vec<Event>,
) -> Result<(), NoMemory>
    ensures { IfOk result (λ _. events.new.items
        ≡ events.old.items ++ user_events before.now.rows after.now.rows) }
{
    let new = gained_rows(*events.allocator(), before, after)?;
    push_each(events, new, |(user, row)| Event::UserAdd { user, row })?;
    push_kept(before, after, events)
}

impl Changing<UserId> for ShownUser {
    ghost changes = { user_changes };

    fn push_changes(
        user: UserId,
        before: &ShownUser,
        after: &ShownUser,
        events: &mut Vec<Event>,
    ) -> Result<(), NoMemory> {
        push_change(events, &before.full_name, &after.full_name, |name| {
            Event::UserChange {
                user,
                field: UserField::FullName(name),
            }
        })?;
        push_change(
            events,
            &before.role,
            &after.role,
            |role| Event::UserChange {
                user,
                field: UserField::Role(role),
            },
        )?;
        push_change(events, &before.is_active, &after.is_active, |is_active| {
            Event::UserChange {
                user,
                field: UserField::IsActive(is_active),
            }
        })
    }
}
