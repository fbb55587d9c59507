//! Why the end of a hub that threads share is not as it is to be.
ghost use Rattle.std.specs.Prelude.{◌≡◌};
ghost use Rattle.ra_shared.specs.declared.fault.FinishFault.TheVariants as faults;

use crate::answers::{LastState, Told};
use ra_base::Key;
use ra_locked::EndFault;

/// Why the end of a hub that threads share is not as it is to be. Handles are numbered from 0, in the order in which they are given back.
#[derive(Drop)]
pub enum FinishFault {
    /// The receipts are not those of the history, or the handles answered KeepFault too often, or memory ran out.
    Registry {
        fault: EndFault,
    },
    /// This handle kept an answer that the last state of its session does not bear out.
    Untrue {
        handle: u64,
        key: Key,
        told: Told,
        last: LastState,
    },
}

impl FinishFault {
    /// The fault of the registry.
    pub(crate) fn of(fault: EndFault) -> FinishFault
        ensures { result ≡ faults.Registry fault }
    {
        FinishFault::Registry { fault }
    }
}
