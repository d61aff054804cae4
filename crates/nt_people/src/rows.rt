//! The parts of each command of people.

ghost use Rattle.std.specs.Prelude.{◌≡◌, ◌<◌, ◌+◌, ◌^◌, ◌++◌, flat_map, length, IfOk};
ghost use Rattle.ev_rows.specs.Rows.{made_of};
ghost use Rattle.zr_types.specs.Effects.{next_user};
ghost use Rattle.zr_types.specs.Tables.{user_at};
ghost use Rattle.nt_people.specs.PeopleParts.{active_parts, name_parts, new_row, new_user_parts, peer_part, realm_parts, role_change_parts, role_parts};

use crate::sight::{push_message_sight, push_stream_sight};
use ev_base::{Listed, NoMemory, Role, StreamId, Text, UserId};
use ev_types::{Event, Part, RealmField, ShownUser, UserField};
use nt_parts::{push_to_everyone, push_to_one, push_to_viewers};
use zr_realm::Realm;
use zr_types::{NameField, Stream};

/// Tells everyone of a field of the realm.
pub fn push_realm_field(
    realm: &Realm,
    property: NameField,
    value: &Text,
    parts: &mut Vec<Part>,
) -> Result<(), NoMemory>
    ensures { IfOk result (λ _. parts.new.items ≡ parts.old.items
        ++ realm_parts realm.now.state.tables.realm property value.now) }
{
    let row = realm.people().realm_row();
    match property {
        NameField::Name => {
            if row.name == *value {
                return Ok(());
            }
            push_to_everyone(parts, Event::RealmUpdate(RealmField::Name(value.clone()?)))
        }
        NameField::Description => {
            if row.description == *value {
                return Ok(());
            }
            let field = RealmField::Description(value.clone()?);
            push_to_everyone(parts, Event::RealmUpdate(field))
        }
    }
}

/// Tells everyone of a user's name.
pub fn push_name(
    realm: &Realm,
    user: UserId,
    full_name: &Text,
    parts: &mut Vec<Part>,
) -> Result<(), NoMemory>
    ensures { IfOk result (λ _. parts.new.items ≡ parts.old.items
        ++ made_of (name_parts realm.now.state.tables user full_name.now)
        (user_at realm.now.state.tables user)) }
{
    let Some(row) = realm.user(user) else {
        return Ok(());
    };
    if row.full_name == *full_name {
        return Ok(());
    }
    let field = UserField::FullName(full_name.clone()?);
    push_to_everyone(parts, Event::UserChange { user, field })
}

/// Tells everyone of a new user, and the new user of the streams that everyone sees.
pub fn push_new_user(
    realm: &Realm,
    email: &Text,
    full_name: &Text,
    role: Role,
    parts: &mut Vec<Part>,
) -> Result<(), NoMemory>
    requires { length realm.now.state.tables.users + 1 < 2 ^ 32 }
    ensures { IfOk result (λ _. parts.new.items ≡ parts.old.items
        ++ new_user_parts realm.now.state.tables (new_row email.now full_name.now role)) }
{
    let user = next_user(realm);
    let row = new_row(email, full_name, role)?;
    push_to_everyone(parts, Event::UserAdd { user, row })?;
    let mut events = Vec::new(*parts.allocator());
    push_stream_sight(realm, user, None, Some(role), &mut events)?;
    push_to_one(parts, user, events)
}

// The number of the next user.
fn next_user(realm: &Realm) -> UserId
    requires { length realm.now.state.tables.users + 1 < 2 ^ 32 }
    ensures { result ≡ next_user realm.now.state.tables }
{
    UserId(realm.people().users_rows().len() as u32 + 1)
}

// A new user, who is active.
fn new_row(email: &Text, full_name: &Text, role: Role) -> Result<ShownUser, NoMemory>
    ensures { IfOk result (λ row. row ≡ new_row email.now full_name.now role) }
{
    Ok(ShownUser {
        email: email.clone()?,
        full_name: full_name.clone()?,
        role,
        is_active: true,
    })
}

/// Tells everyone of a user's role, and the user of the streams and messages that come and go with it.
pub fn push_role(
    realm: &Realm,
    user: UserId,
    role: Role,
    parts: &mut Vec<Part>,
) -> Result<(), NoMemory>
    ensures { IfOk result (λ _. parts.new.items ≡ parts.old.items
        ++ made_of (role_parts realm.now.state.tables user role) (user_at realm.now.state.tables user)) }
{
    let Some(row) = realm.user(user) else {
        return Ok(());
    };
    let old = row.role;
    push_role_change(user, old, role, parts)?;
    let mut events = Vec::new(*parts.allocator());
    push_stream_sight(realm, user, Some(old), Some(role), &mut events)?;
    push_message_sight(realm, user, Some(old), Some(role), &mut events)?;
    push_to_one(parts, user, events)
}

fn push_role_change(
    user: UserId,
    old: Role,
    new: Role,
    parts: &mut Vec<Part>,
) -> Result<(), NoMemory>
    ensures { IfOk result (λ _. parts.new.items ≡ parts.old.items ++ role_change_parts user old new) }
{
    if old.number() == new.number() {
        return Ok(());
    }
    let field = UserField::Role(new);
    push_to_everyone(parts, Event::UserChange { user, field })
}

/// Tells everyone that a user is active, or no longer is, and by stream those who see the user among
/// its subscribers.
pub fn push_active(
    realm: &Realm,
    user: UserId,
    is_active: bool,
    parts: &mut Vec<Part>,
) -> Result<(), NoMemory>
    ensures { IfOk result (λ _. parts.new.items ≡ parts.old.items
        ++ made_of (active_parts realm.now.state.tables user is_active)
        (user_at realm.now.state.tables user)) }
{
    let Some(row) = realm.user(user) else {
        return Ok(());
    };
    if row.is_active == is_active {
        return Ok(());
    }
    let field = UserField::IsActive(is_active);
    push_to_everyone(parts, Event::UserChange { user, field })?;
    push_peers(realm, user, is_active, parts)
}

fn push_peers(
    realm: &Realm,
    user: UserId,
    is_active: bool,
    parts: &mut Vec<Part>,
) -> Result<(), NoMemory>
    ensures { IfOk result (λ _. parts.new.items ≡ parts.old.items
        ++ flat_map (peer_part realm.now.state.tables user is_active) realm.now.state.tables.streams) }
{
    for row in realm.streams().streams_rows() {
        push_peer(realm, user, is_active, row, parts)?;
    }
    Ok(())
}

fn push_peer(
    realm: &Realm,
    user: UserId,
    is_active: bool,
    row: &(StreamId, Stream),
    parts: &mut Vec<Part>,
) -> Result<(), NoMemory>
    ensures { IfOk result (λ _. parts.new.items
        ≡ parts.old.items ++ peer_part realm.now.state.tables user is_active row.now) }
{
    let stream = row.0;
    if !realm.is_subscribed(user, stream) {
        return Ok(());
    }
    let users = Listed::from_vec(vec![in *parts.allocator(); user]?);
    let event = if is_active {
        Event::PeerAdd { stream, users }
    } else {
        Event::PeerRemove { stream, users }
    };
    push_to_viewers(realm, stream, event, parts)
}
