//! The registry of sessions under a lock, for threads: its history is legal whenever the lock is free, each caller keeps a receipt of
//! each entry that its calls added, and at the end the receipts are compared with the history.
//!
//! What a session is, is a parameter. Links and handshakes are not here.
#![tactic(auto)]

pub mod answer;
mod compare;
mod fault;
pub mod handle;
pub mod held;
pub mod locked;
pub mod receipt;
mod seats;
pub mod session;
pub mod shared;

pub use answer::Answer;
pub use fault::{EndFault, Missing, StartFault};
pub use handle::RegistryHandle;
pub use held::HeldSeat;
pub use locked::{Locked, LockedParts};
pub use receipt::Receipt;
pub use session::SessionHandle;
pub use shared::{EndedRegistry, SharedRegistry};
