//! Why a call of a hub is refused.
ghost use Rattle.std.specs.Prelude.{◌≡◌};
ghost use Rattle.ra_hub.specs.Faults as spec;
ghost use Rattle.ra_hub.specs.Faults.{of_admission, of_session};
ghost use Rattle.ra_hub.specs.declared.fault.HubFault.TheVariants as faults;

use ra_base::{NoMemory, Reason};
use ra_keep::KeepFault;
use ra_registry::AdmitFault;
use ra_session::SessionFault;
use std::alloc::{AllocError, AllocFailed};

/// Why a call of a hub is refused.
#[derive(Debug, Drop)]
pub enum HubFault {
    /// The request is refused for this reason.
    Refused { reason: Reason },
    /// No session ever had the key.
    NoSession,
    /// The session's own call of that name has this fault.
    Session { fault: SessionFault },
    /// The record of an acceptance was not kept.
    KeepFault,
    NoMemory,
}

impl HubFault {
    /// Whether memory ran out, in the hub or in the session.
    pub fn is_no_memory(&self) -> bool
        ensures { result ≡ spec.is_short self.now }
    {
        match self {
            HubFault::NoMemory => true,
            HubFault::Session { fault } => is_no_memory(fault),
            HubFault::Refused { .. } | HubFault::NoSession | HubFault::KeepFault => false,
        }
    }
}

/// Whether memory ran out in a session.
pub fn is_no_memory(fault: &SessionFault) -> bool
    ensures { result ≡ spec.is_no_memory fault.now }
{
    match fault {
        SessionFault::NoMemory => true,
        SessionFault::Ended { .. }
        | SessionFault::Stale { .. }
        | SessionFault::NoLink
        | SessionFault::TooLong { .. }
        | SessionFault::BadIpc { .. }
        | SessionFault::TooLarge { .. }
        | SessionFault::IdsSpent
        | SessionFault::NoSuchCall { .. }
        | SessionFault::WrongKind => false,
    }
}

impl From<NoMemory> for HubFault {
    ghost from_gives = { λ _ fault. fault ≡ faults.NoMemory };

    fn from(_: NoMemory) -> HubFault {
        HubFault::NoMemory
    }
}

impl From<ra_values::NoMemory> for HubFault {
    ghost from_gives = { λ _ fault. fault ≡ faults.NoMemory };

    fn from(_: ra_values::NoMemory) -> HubFault {
        HubFault::NoMemory
    }
}

impl From<AllocError> for HubFault {
    ghost from_gives = { λ _ fault. fault ≡ faults.NoMemory };

    fn from(_: AllocError) -> HubFault {
        HubFault::NoMemory
    }
}

impl<T: Drop> From<AllocFailed<T>> for HubFault {
    ghost from_gives = { λ _ fault. fault ≡ faults.NoMemory };

    fn from(_: AllocFailed<T>) -> HubFault {
        HubFault::NoMemory
    }
}

impl From<AdmitFault> for HubFault {
    ghost from_gives = { λ admission fault. fault ≡ of_admission admission };

    fn from(fault: AdmitFault) -> HubFault {
        match fault {
            AdmitFault::Refused { reason } => HubFault::Refused { reason },
            AdmitFault::KeepFault => HubFault::KeepFault,
            AdmitFault::NoMemory => HubFault::NoMemory,
        }
    }
}

impl From<SessionFault> for HubFault {
    ghost from_gives = { λ session fault. fault ≡ of_session session };

    fn from(fault: SessionFault) -> HubFault {
        HubFault::Session { fault }
    }
}

/// Why a hub did not start. The keeper comes back.
#[derive(Drop)]
pub struct StartFault<R> {
    pub keeper: R,
    pub fault: KeepFault,
}
