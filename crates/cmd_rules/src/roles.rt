//! What a user's role allows.

ghost use Rattle.std.specs.Prelude.{◌≡◌, ◌&&◌, ◌||◌, not};
ghost use Rattle.std.specs.List.{list_all};
ghost use Rattle.zr_types.specs.Visibility.{is_guest, same_user};
ghost use Rattle.zr_types.specs.Refusals.{is_administrator, is_administrator_role, is_guest_user, is_only_owner, is_owner, is_owner_role, may_change};

use ev_base::{Role, UserId};
use zr_realm::Realm;

pub fn is_owner_role(role: Role) -> bool
    ensures { result ≡ is_owner_role role }
{
    matches!(role, Role::Owner)
}

fn is_administrator_role(role: Role) -> bool
    ensures { result ≡ is_administrator_role role }
{
    matches!(role, Role::Owner | Role::Administrator)
}

fn is_guest(role: Role) -> bool
    ensures { result ≡ is_guest role }
{
    matches!(role, Role::Guest)
}

pub fn is_owner(realm: &Realm, user: UserId) -> bool
    ensures { result ≡ is_owner realm.now.state.tables user }
{
    realm.user(user).is_some_and(|row| is_owner_role(row.role))
}

/// Whether the role is an owner's or an administrator's.
pub fn is_administrator(realm: &Realm, user: UserId) -> bool
    ensures { result ≡ is_administrator realm.now.state.tables user }
{
    realm
        .user(user)
        .is_some_and(|row| is_administrator_role(row.role))
}

pub fn is_guest_user(realm: &Realm, user: UserId) -> bool
    ensures { result ≡ is_guest_user realm.now.state.tables user }
{
    realm.user(user).is_some_and(|row| is_guest(row.role))
}

/// Whether the user is an active owner, and nobody else is.
pub fn is_only_owner(realm: &Realm, user: UserId) -> bool
    ensures { result ≡ is_only_owner realm.now.state.tables user }
{
    is_owner(realm, user) && realm.is_active_user(user) && owners_are(realm, user)
}

// Whether no other user is an active owner.
fn owners_are(realm: &Realm, user: UserId) -> bool
    ensures { result ≡ list_all (λ row. same_user row.0 user
        || not (is_owner_role row.1.role && row.1.is_active)) realm.now.state.tables.users }
{
    let rows = realm.people().users_rows();
    rows.iter().all(|row| row.0.0 == user.0 || !(is_owner_role(row.1.role) && row.1.is_active))
}

/// Whether the actor is an administrator or the user.
pub fn may_change(realm: &Realm, actor: UserId, user: UserId) -> bool
    ensures { result ≡ may_change realm.now.state.tables actor user }
{
    is_administrator(realm, actor) || actor.0 == user.0
}
