//! Why a value is refused.

use crate::param::Param;
use std::alloc::{AllocError, AllocFailed};

/// Why a text gives no value.
#[derive(Clone, Copy, Debug, PartialEq, Eq)]
pub enum NoValue {
    /// It spells none of the kind.
    NotOne,
    NoMemory,
}

/// Why a parameter gives no value.
#[derive(Clone, Copy, Debug, PartialEq, Eq)]
pub enum ValueFault {
    /// The request doesn't give it, and has to.
    Missing(Param),
    /// Its text spells no value of its kind, or it may not be given beside another.
    BadValue(Param),
    NoMemory,
}

impl From<AllocError> for NoValue {
    ghost use Rattle.std.specs.Prelude.{◌≡◌};
    ghost use Rattle.hw_values.specs.declared.fault.NoValue.TheVariants.{NoMemory};

    ghost from_gives = { λ _ fault. fault ≡ NoMemory };

    fn from(_: AllocError) -> Self {
        NoValue::NoMemory
    }
}

impl<T: Drop> From<AllocFailed<T>> for NoValue {
    ghost use Rattle.std.specs.Prelude.{◌≡◌};
    ghost use Rattle.hw_values.specs.declared.fault.NoValue.TheVariants.{NoMemory};

    ghost from_gives = { λ _ fault. fault ≡ NoMemory };

    fn from(_: AllocFailed<T>) -> Self {
        NoValue::NoMemory
    }
}

impl From<AllocError> for ValueFault {
    ghost use Rattle.std.specs.Prelude.{◌≡◌};
    ghost use Rattle.hw_values.specs.declared.fault.ValueFault.TheVariants.{NoMemory};

    ghost from_gives = { λ _ fault. fault ≡ NoMemory };

    fn from(_: AllocError) -> Self {
        ValueFault::NoMemory
    }
}
