//! Why a request is not admitted.
ghost use Rattle.std.specs.Prelude.{◌≡◌};
ghost use Rattle.ra_keep.specs.declared.keeper.KeepFault.TheVariants as keep;
ghost use Rattle.ra_registry.specs.declared.fault.AdmitFault.TheVariants as faults;

use ra_base::{NoMemory, Reason};
use ra_keep::KeepFault;
use std::alloc::{AllocError, AllocFailed};

/// Why a request is not admitted.
#[derive(Clone, Copy, Debug, PartialEq, Eq)]
pub enum AdmitFault {
    /// The first reason that applies, of `UnknownKind` and those after it. The request is entered into the history.
    Refused { reason: Reason },
    /// The keeper of records failed. Nothing has changed.
    KeepFault,
    /// Nothing has changed.
    NoMemory,
}

impl From<AllocError> for AdmitFault {
    ghost from_gives = { λ _ fault. fault ≡ faults.NoMemory };

    fn from(_: AllocError) -> AdmitFault {
        AdmitFault::NoMemory
    }
}

impl<T: Drop> From<AllocFailed<T>> for AdmitFault {
    ghost from_gives = { λ _ fault. fault ≡ faults.NoMemory };

    fn from(_: AllocFailed<T>) -> AdmitFault {
        AdmitFault::NoMemory
    }
}

impl From<NoMemory> for AdmitFault {
    ghost from_gives = { λ _ fault. fault ≡ faults.NoMemory };

    fn from(_: NoMemory) -> AdmitFault {
        AdmitFault::NoMemory
    }
}

/// The answer to a request whose record was not kept.
pub(crate) fn not_kept(fault: KeepFault) -> AdmitFault
    ensures failed { fault ≡ keep.Failed → result ≡ faults.KeepFault }
    ensures no_memory { fault ≡ keep.NoMemory → result ≡ faults.NoMemory }
{
    match fault {
        KeepFault::Failed => AdmitFault::KeepFault,
        KeepFault::NoMemory => AdmitFault::NoMemory,
    }
}
