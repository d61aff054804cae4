//! What a request asks, and why it asks nothing.

use crate::paths::Path;
use ev_base::{Listed, PlainText, QueueId};
use ev_types::{Section, Types};
use hw_values::{Param, ValueFault};
use std::alloc::AllocError;
use zr_types::Command;

/// What a request asks. A queue has the text that names it, too.
#[derive(Debug, Drop)]
pub enum Call {
    Register {
        types: Types,
        /// The sections to be fetched, each once and in their order.
        asked: Listed<Section>,
    },
    Events {
        text: PlainText,
        queue: QueueId,
        after: i64,
        dont_block: bool,
    },
    DeleteQueue {
        text: PlainText,
        queue: QueueId,
    },
    Commit {
        command: Command,
        /// Whether the command is meant for its actor, whose number it doesn't have yet: a
        /// subscription or its end for user 0, since the request names no user.
        own_user: bool,
    },
}

/// Why a request asks nothing, in the order in which the reasons are tried.
#[derive(Clone, Copy, Debug, PartialEq, Eq)]
pub enum RouteFault {
    /// The target's path has no route.
    NoRoute,
    /// The path has no route for the method.
    BadMethod(Path),
    /// A parameter isn't given, and has to be.
    Missing(Param),
    /// A parameter's text spells no value of its kind, or it may not be given beside another.
    BadValue(Param),
    NoMemory,
}

impl From<AllocError> for RouteFault {
    ghost use Rattle.std.specs.Prelude.{◌≡◌};
    ghost use Rattle.hw_routes.specs.declared.call.RouteFault.TheVariants.{NoMemory};

    ghost from_gives = { λ _ fault. fault ≡ NoMemory };

    fn from(_: AllocError) -> Self {
        RouteFault::NoMemory
    }
}

impl From<ValueFault> for RouteFault {
    ghost use Rattle.std.specs.Prelude.{◌≡◌};
    ghost use Rattle.hw_routes.specs.Routed.{of_value};

    ghost from_gives = { λ value fault. fault ≡ of_value value };

    fn from(fault: ValueFault) -> Self {
        match fault {
            ValueFault::Missing(param) => RouteFault::Missing(param),
            ValueFault::BadValue(param) => RouteFault::BadValue(param),
            ValueFault::NoMemory => RouteFault::NoMemory,
        }
    }
}
