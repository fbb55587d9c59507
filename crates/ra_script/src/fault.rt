//! What ends the reading of a line.
ghost use Rattle.std.specs.Prelude.{◌≡◌};
ghost use Rattle.ra_script.specs.declared.fault.LineFault.TheVariants.{NoMemory, Wrong};

use crate::line::What;
use ra_values::NoMemory;
use std::alloc::AllocError;

/// What ends the reading of a line.
#[derive(Clone, Copy, Debug, PartialEq, Eq)]
pub enum LineFault {
    Wrong { what: What },
    NoMemory,
}

impl From<What> for LineFault {
    ghost from_gives = { λ what e. e ≡ Wrong what };

    fn from(what: What) -> Self {
        LineFault::Wrong { what }
    }
}

impl From<NoMemory> for LineFault {
    ghost from_gives = { λ _ e. e ≡ NoMemory };

    fn from(_: NoMemory) -> Self {
        LineFault::NoMemory
    }
}

impl From<AllocError> for LineFault {
    ghost from_gives = { λ _ e. e ≡ NoMemory };

    fn from(_: AllocError) -> Self {
        LineFault::NoMemory
    }
}
