//! Basic credentials.

ghost use Rattle.std.specs.Prelude.{◌≡◌, option_map};
ghost use Rattle.hw_auth.specs.Basic.{Answers, Decodes, Reads, after_scheme, decoded, parted, spelled, without_spaces};

use crate::answer::{AuthFault, Credentials};
use base64::DecodeAllocError;
use base64::engine::general_purpose::STANDARD;
use std::alloc::Global;

/// The credentials that an `Authorization` header spells. `Basic` may be written in any case of
/// letters. The email ends at the first colon, and the key may have more of them.
pub fn credentials(alloc: Global, header: Option<&[u8]>) -> Result<Credentials, AuthFault>
    ensures { Answers (option_map (λ header. header.now) header.entry) result }
{
    match header {
        Some(header) => credentials_in(alloc, header),
        None => Err(AuthFault::NoHeader),
    }
}

#[tactic(auto, unfolding(crate::specs::Basic::spelled))]
fn credentials_in(alloc: Global, header: &[u8]) -> Result<Credentials, AuthFault>
    ensures { Reads result (spelled header.now) }
{
    let Some(text) = after_scheme(header) else {
        return Err(AuthFault::BadHeader);
    };
    let bytes = decoded(alloc, text)?;
    parted(alloc, &bytes)
}

// What stands behind `Basic` and a space or more.
#[tactic(auto, unfolding(crate::specs::Basic::after_scheme))]
fn after_scheme(header: &[u8]) -> Option<&[u8]>
    ensures { option_map (λ text. text.now) result ≡ after_scheme header.now }
{
    if header.len() < 6 {
        return None;
    }
    let (scheme, rest) = header.split_at(5);
    if !scheme.eq_ignore_ascii_case("basic".as_bytes()) || rest[0] != b' ' {
        return None;
    }
    Some(without_spaces(rest))
}

// The bytes behind the spaces.
fn without_spaces(bytes: &[u8]) -> &[u8]
    ensures { result.now ≡ without_spaces bytes.now }
{
    match bytes {
        [b' ', behind @ ..] => without_spaces(behind),
        _ => bytes,
    }
}

// The bytes whose base64 the text is.
#[tactic(auto, unfolding(crate::specs::Basic::decoded))]
fn decoded(alloc: Global, text: &[u8]) -> Result<Vec<u8>, AuthFault>
    ensures { Decodes result (decoded text.now) }
{
    match STANDARD.decode(alloc, text) {
        Ok(bytes) => Ok(bytes),
        Err(DecodeAllocError::OutOfMemory) => Err(AuthFault::NoMemory),
        Err(DecodeAllocError::DecodeError(_)) => Err(AuthFault::BadHeader),
    }
}

// What stands before the first colon, and what behind it.
fn parted(alloc: Global, bytes: &[u8]) -> Result<Credentials, AuthFault>
    ensures { Reads result (parted bytes.now) }
{
    let Ok(text) = str::from_utf8(bytes) else {
        return Err(AuthFault::BadHeader);
    };
    let Some((email, key)) = text.split_once(':') else {
        return Err(AuthFault::BadHeader);
    };
    Ok(Credentials {
        email: String::from_str(alloc, email)?,
        key: String::from_str(alloc, key)?,
    })
}
