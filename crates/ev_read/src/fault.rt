//! Why a value is not read.

ghost use Rattle.std.specs.Prelude.{◌≡◌};
ghost use Rattle.ev_read.specs.declared.fault.Unread.TheVariants.{NoMemory, Misfit};

use ev_json::FieldFault;
use std::alloc::{AllocError, AllocFailed};

/// Why a row or an event is not read.
#[derive(Clone, Copy, Debug, PartialEq, Eq)]
pub enum Unread {
    NoMemory,
    /// The value is none.
    Misfit,
}

impl From<FieldFault> for Unread {
    ghost from_gives = { λ _ unread. unread ≡ Misfit };

    fn from(_: FieldFault) -> Self {
        Unread::Misfit
    }
}

/// Why a list of rows is not read.
#[derive(Clone, Copy, Debug, PartialEq, Eq)]
pub enum RowsFault {
    NoMemory,
    /// The place of the first value that is no row, or whose key isn't above the one before.
    Row(u64),
}

impl<T: Drop> From<AllocFailed<T>> for RowsFault {
    ghost use Rattle.ev_read.specs.declared.fault.RowsFault.TheVariants.{NoMemory as Full};

    ghost from_gives = { λ _ fault. fault ≡ Full };

    fn from(_: AllocFailed<T>) -> Self {
        RowsFault::NoMemory
    }
}

impl From<RowsFault> for Unread {
    ghost use Rattle.ev_read.specs.Lists.{unread_of};

    ghost from_gives = { λ fault unread. unread ≡ unread_of fault };

    fn from(fault: RowsFault) -> Self {
        match fault {
            RowsFault::NoMemory => Unread::NoMemory,
            RowsFault::Row(_) => Unread::Misfit,
        }
    }
}
