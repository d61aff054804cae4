//! What is found in a header, or why nothing is.

use std::alloc::AllocError;

/// An email and an API key.
#[derive(Debug, Drop)]
pub struct Credentials {
    pub email: String,
    pub key: String,
}

/// Why a request has no credentials.
#[derive(Clone, Copy, Debug, PartialEq, Eq)]
pub enum AuthFault {
    /// It has no `Authorization` header.
    NoHeader,
    /// The header isn't `Basic`, a space or more, and the base64 of an email, a colon and a key.
    BadHeader,
    NoMemory,
}

impl From<AllocError> for AuthFault {
    ghost use Rattle.std.specs.Prelude.{◌≡◌};
    ghost use Rattle.hw_auth.specs.declared.answer.AuthFault.TheVariants.{NoMemory};

    ghost from_gives = { λ _ fault. fault ≡ NoMemory };

    fn from(_: AllocError) -> Self {
        AuthFault::NoMemory
    }
}
