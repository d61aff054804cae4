//! Why a body is refused.

ghost use Rattle.std.specs.Prelude.{◌≡◌};
ghost use Rattle.rp_replica.specs.Refusing.{fault_of};
ghost use Rattle.rp_replica.specs.declared.fault.ReplicaFault.TheVariants.{NoMemory as Full};

use ev_base::NoMemory;
use ev_bodies::BodyFault;

/// Why a replica refuses a body.
#[derive(Clone, Copy, Debug, PartialEq, Eq)]
pub enum ReplicaFault {
    NoMemory,
    /// It is no such body.
    BadBody(BodyFault),
    /// The body says that the queue isn't there any more.
    QueueGone,
    /// This id isn't above the one before it.
    NotRising { id: i64 },
}

impl From<BodyFault> for ReplicaFault {
    ghost from_gives = { λ body fault. fault ≡ fault_of body };

    fn from(fault: BodyFault) -> Self {
        match fault {
            BodyFault::NoMemory => ReplicaFault::NoMemory,
            BodyFault::Json | BodyFault::Key(_) | BodyFault::Row { .. } | BodyFault::Entry { .. } =>
                ReplicaFault::BadBody(fault),
        }
    }
}

impl From<NoMemory> for ReplicaFault {
    ghost from_gives = { λ _ fault. fault ≡ Full };

    fn from(_: NoMemory) -> Self {
        ReplicaFault::NoMemory
    }
}
