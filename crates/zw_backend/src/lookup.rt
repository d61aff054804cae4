//! Who has a key.

ghost use Rattle.std.specs.Prelude.{◌≡◌};
ghost use Rattle.zw_backend.specs.Backends.{user_with};

use ev_base::UserId;
use zr_realm::Realm;

/// The active user with this e-mail address and this key.
pub fn user_with(realm: &Realm, email: &str, key: &str) -> Option<UserId>
    ensures { result ≡ user_with email.now key.now realm.now.state.tables }
{
    let rows = realm.people().users_rows();
    let found = rows.iter().find(|row| {
        row.1.is_active && row.1.email.as_str() == email && row.1.key.as_str() == key
    });
    found.map(|row| row.0)
}
