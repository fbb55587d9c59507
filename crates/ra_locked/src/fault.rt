//! Why a shared registry did not start, why a key has no session, and why the end of a shared registry is not as it is to be.
ghost use Rattle.std.specs.Prelude.{◌≡◌};
ghost use Rattle.ra_locked.specs.declared.fault.Missing.TheVariants as missings;

use crate::receipt::Receipt;
use ra_base::NoMemory;
use ra_keep::KeepFault;
use ra_registry::Past;
use std::alloc::AllocError;

/// Why a registry did not start. The keeper comes back.
#[derive(Drop)]
pub struct StartFault<K> {
    pub keeper: K,
    pub fault: KeepFault,
}

/// Why a key has no session.
#[derive(Clone, Copy, Debug, PartialEq, Eq)]
pub enum Missing {
    /// No row has the key, and this is entered.
    NoRow,
    /// Nothing has changed.
    NoMemory,
}

impl From<NoMemory> for Missing {
    ghost from_gives = { λ _ missing. missing ≡ missings.NoMemory };

    fn from(_: NoMemory) -> Missing {
        Missing::NoMemory
    }
}

impl From<AllocError> for Missing {
    ghost from_gives = { λ _ missing. missing ≡ missings.NoMemory };

    fn from(_: AllocError) -> Missing {
        Missing::NoMemory
    }
}

/// Why the end of a shared registry is not as it is to be. Handles are numbered from 0, in the order in which they are given back.
#[derive(Drop)]
pub enum EndFault {
    /// So many handles were given back, and so many were made.
    NotAll {
        given: u64,
        made: u64,
    },
    /// The entry at the receipt's place is not the receipt's; it is None past the end of the history.
    Mismatch {
        handle: u64,
        receipt: Receipt,
        entry: Option<Past>,
    },
    /// Two receipts have one place, or those of one handle do not rise.
    Twice {
        place: u64,
        one: u64,
        other: u64,
    },
    /// The handles answered KeepFault more often than the keeper failed: the sum, and the number under the lock.
    KeepUnlike {
        answered: u64,
        failed: u64,
    },
    NoMemory,
}
