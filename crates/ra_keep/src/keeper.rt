//! The trait of a keeper of records.
ghost use Rattle.std.specs.Prelude.{◌≡◌, ◌≢◌, ◌<◌, ◌^◌, ℕ, List, [], ◌∷◌, ◌++◌, Option, Some, option_map, All, IfOk, OnOk, OnErr};
ghost use Rattle.ra_base.specs.declared.kind.Kind.TheVariants as kinds;
ghost use Rattle.ra_keep.specs.declared.record.Record.{Record};
ghost use Rattle.ra_keep.specs.declared.keeper.KeepFault.TheVariants as faults;
ghost use Rattle.ra_keep.specs.Causes.{HasCause, IsOfNoTunnel, TellsOnly, next_count};

use crate::record::Record;
use std::alloc::{AllocError, AllocFailed, Global};

/// Why a keeper did not do what it was asked.
#[derive(Clone, Copy, Debug, PartialEq, Eq)]
pub enum KeepFault {
    /// The keeper failed, and its count of faults rose.
    Failed,
    NoMemory,
}

impl From<AllocError> for KeepFault {
    ghost from_gives = { λ _ fault. fault ≡ faults.NoMemory };

    fn from(_: AllocError) -> KeepFault {
        KeepFault::NoMemory
    }
}

impl<T: Drop> From<AllocFailed<T>> for KeepFault {
    ghost from_gives = { λ _ fault. fault ≡ faults.NoMemory };

    fn from(_: AllocFailed<T>) -> KeepFault {
        KeepFault::NoMemory
    }
}

/// A list of records that outlives who adds to it. A refused call adds no record to it, and takes none away.
///
/// It tells its list where it is clean and open. A fault may end that, so a call need not tell afterwards even where it told before; where
/// it tells, the list is the one that is due.
pub trait Keeper {
    // The records, the oldest first, where the keeper is clean and open, and tells.
    ghost told: { Self → Option (List Record) };

    // How often the keeper has failed. A counter of 64 bits stays at its last value.
    ghost faults: { Self → ℕ };

    // How often it was called, where it counts that. A counter of 64 bits stays at its last value.
    ghost calls: { Self → Option ℕ };

    /// Adds a record behind the others.
    fn append(&mut self, alloc: Global, kept: &Record) -> Result<(), KeepFault>
        requires kind { IsOfNoTunnel kept.now }
        requires epoch { kept.now.epoch < 2 ^ 63 }
        requires at { kept.now.at < 2 ^ 53 }
        ensures added { OnOk result (TellsOnly (option_map (λ list. list ++ kept.now ∷ []) (told self.old)) (told self.new)) }
        ensures refused { OnErr result (TellsOnly (told self.old) (told self.new)) }
        ensures cause { HasCause (faults self.old) (faults self.new) result }
        ensures called { calls self.new ≡ option_map next_count (calls self.old) };

    /// All records, the oldest first. None is of a tunnel.
    fn all(&mut self, alloc: Global) -> Result<Vec<Record>, KeepFault>
        ensures records { IfOk result (λ records. (list : List Record) → told self.new ≡ Some list → records.items ≡ list) }
        ensures kinds { IfOk result (λ records. All IsOfNoTunnel records.items) }
        ensures same { TellsOnly (told self.old) (told self.new) }
        ensures cause { HasCause (faults self.old) (faults self.new) result }
        ensures called { calls self.new ≡ option_map next_count (calls self.old) };
}
