//! Texts as they were given.

ghost use Rattle.std.specs.Prelude.{◌≡◌};

use crate::exact_clone::ExactClone;
use std::alloc::AllocError;
use std::marker::Model;

/// A text as it was given, which contracts see as the list of its bytes. `Text` is one that was read
/// by its kind.
#[derive(Debug, Drop)]
pub struct PlainText {
    inner: String,
}

impl Model for PlainText {
    ghost use Rattle.std.specs.Prelude.{List, ℕ, string_bytes};

    ghost Value = { List ℕ };

    ghost view = { λ text. string_bytes text.inner };
}

impl PlainText {
    ghost use Rattle.std.specs.Prelude.{string_bytes};

    pub fn new(inner: String) -> PlainText
        ensures { result ≡ string_bytes inner }
    {
        PlainText { inner }
    }

    pub fn as_str(&self) -> &str
        ensures { result.now ≡ self.now }
    {
        self.inner.as_str()
    }
}

impl Clone for PlainText {
    ghost is_clone = { λ text copy. copy ≡ text };

    fn clone(&self) -> Result<PlainText, AllocError> {
        Ok(PlainText {
            inner: self.inner.clone()?,
        })
    }
}

impl ExactClone for PlainText {
    ghost exact = { λ _ _ same. same };
}
