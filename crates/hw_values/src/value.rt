//! What a text may spell.

ghost use Rattle.std.specs.Prelude.{ℕ, List, Option};
ghost use Rattle.hw_values.specs.Readings.{Reads};

use crate::fault::NoValue;
use ev_base::PlainText;
use std::alloc::Global;

/// A kind of value that the text of a parameter spells.
pub trait FormValue: Drop {
    // The value that a text spells, if it spells one.
    ghost spelled: { List ℕ → Option Self };

    fn read(alloc: Global, text: &str) -> Result<Self, NoValue>
        ensures { Reads result (spelled text.now) };
}

/// Each text is its own value.
impl FormValue for PlainText {
    ghost use Rattle.std.specs.Prelude.{Some};

    ghost spelled = { λ text. Some text };

    fn read(alloc: Global, text: &str) -> Result<PlainText, NoValue> {
        Ok(PlainText::new(String::from_str(alloc, text)?))
    }
}
