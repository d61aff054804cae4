//! The rows of the table of people.

ghost use Rattle.std.proofs.Common.{rules};

use ev_base::{ExactClone, Role, Text};

/// What a realm says of itself.
#[derive(Clone, Debug, Drop, PartialEq, Eq)]
pub struct RealmRow {
    pub name: Text,
    pub description: Text,
}

/// A user, active or not. No view shows the API key.
#[derive(Clone, Debug, Drop, PartialEq, Eq)]
pub struct User {
    pub email: Text,
    pub full_name: Text,
    pub role: Role,
    pub is_active: bool,
    pub key: Text,
}

impl ExactClone for RealmRow {
    ghost exact = { Prim.search rules };
}

impl ExactClone for User {
    ghost exact = { Prim.search rules };
}
