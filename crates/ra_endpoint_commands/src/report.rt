//! How a run of a command ends.

/// How a run ends whose output was written.
#[derive(Clone, Copy, Debug, PartialEq, Eq)]
pub enum Ending {
    /// The input was read to its end.
    Done,
    /// The input is refused.
    Refused,
}

/// Why a run was broken off.
#[derive(Clone, Copy, Debug, PartialEq, Eq)]
pub enum Fault {
    Read,
    Write,
    Memory,
}
