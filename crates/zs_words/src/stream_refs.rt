//! The streams that words refer to, by number or by name.

ghost use Rattle.std.specs.Prelude.{◌≡◌, ◌↔◌, ◌∷◌, List, ℕ, IfOk, IsTrue, MatchOption};
ghost use Rattle.zr_types.specs.declared.command.StreamRef.{StreamRef};
ghost use Rattle.zs_words.specs.StreamRefs.{IsStreamRef};

use crate::numbers::read_stream;
use crate::texts::{is_text, text_of};
use std::alloc::{AllocError, Global};
use zr_types::StreamRef;

/// Whether the word refers to a stream. This takes no memory.
pub fn is_stream_ref(word: &[u8]) -> bool
    ensures { IsTrue result ↔ ((stream : StreamRef) × IsStreamRef word.now stream) }
{
    match after_equals(word) {
        Some(name) => is_text(name),
        None => read_stream(word).is_some(),
    }
}

/// The stream to which the word refers, which is one that refers to a stream.
pub fn stream_ref_of(alloc: Global, word: &[u8]) -> Result<StreamRef, AllocError>
    requires { (stream : StreamRef) × IsStreamRef word.now stream }
    ensures { IfOk result (λ stream. IsStreamRef word.now stream) }
{
    if let Some(name) = after_equals(word) {
        return Ok(StreamRef::Name(text_of(alloc, name)?));
    }
    let Some(stream) = read_stream(word) else {
        unreachable!()
    };
    Ok(StreamRef::Id(stream))
}

/// What follows the `=` with which the word begins.
fn after_equals(word: &[u8]) -> Option<&[u8]>
    ensures { MatchOption result
        ((rest : List ℕ) → word.now ≡ 61 ∷ rest → ⊥)
        (λ rest. word.now ≡ 61 ∷ rest.now) }
{
    let (first, rest) = word.split_first()?;
    if *first == b'=' { Some(rest) } else { None }
}
