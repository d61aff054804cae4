//! Why a line of a script is refused.

ghost use Rattle.std.specs.Prelude.{◌≡◌};

use std::alloc::AllocError;

/// Why a line is refused.
#[derive(Clone, Copy, Debug, PartialEq, Eq)]
pub enum LineFault {
    /// The line is passed over by no rule and spells no step.
    NotAStep,
    NoMemory,
}

impl From<AllocError> for LineFault {
    ghost use Rattle.zs_words.specs.declared.fault.LineFault.{LineFault};

    ghost from_gives = { λ _ fault. fault ≡ LineFault.NoMemory };

    fn from(_: AllocError) -> Self {
        LineFault::NoMemory
    }
}
