//! The small enums of the tables: roles, privacies of streams and flags of messages.

ghost use Rattle.std.specs.Prelude.{◌≡◌};
ghost use Rattle.ev_base.specs.Roles.{role_number, role_of};
ghost use Rattle.ev_base.specs.declared.kinds.Role.{Role};

use crate::exact_clone::ExactClone;

/// What a user may do.
#[derive(Clone, Copy, Debug, PartialEq, Eq, Hash)]
pub enum Role {
    Owner,
    Administrator,
    Moderator,
    Member,
    Guest,
}

impl Role {
    /// The number of this role in texts: 100, 200, 300, 400 or 600.
    pub fn number(self) -> u64
        ensures { result ≡ role_number self }
    {
        match self {
            Role::Owner => 100,
            Role::Administrator => 200,
            Role::Moderator => 300,
            Role::Member => 400,
            Role::Guest => 600,
        }
    }

    /// The role with this number.
    pub fn from_number(number: u64) -> Option<Role>
        ensures { result ≡ role_of number }
    {
        match number {
            100 => Some(Role::Owner),
            200 => Some(Role::Administrator),
            300 => Some(Role::Moderator),
            400 => Some(Role::Member),
            600 => Some(Role::Guest),
            _ => None,
        }
    }
}

/// The number of a role is read back as that role.
pub fn role_numbers_read_back()
    ensures { (role : Role) → role_of (role_number role) ≡ Some role }
{}

/// Who sees a stream: all but guests, or its subscribers alone. A subscriber of a protected stream
/// sees only the messages for which there is a receipt.
#[derive(Clone, Copy, Debug, PartialEq, Eq, Hash)]
pub enum Privacy {
    Public,
    Shared,
    Protected,
}

/// What a user may mark a message with.
#[derive(Clone, Copy, Debug, PartialEq, Eq, Hash)]
pub enum Flag {
    Read,
    Starred,
    Collapsed,
}

impl ExactClone for Role {
    ghost exact = { λ _ _ same. same };
}

impl ExactClone for Privacy {
    ghost exact = { λ _ _ same. same };
}

impl ExactClone for Flag {
    ghost exact = { λ _ _ same. same };
}
