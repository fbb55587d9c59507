//! The hub that threads share: sessions behind locks of their own beside the registry under its lock, and a handle for each thread.
#![tactic(auto)]

pub mod answers;
mod compare;
pub mod fault;
pub mod handle;
pub mod hub;
pub mod session;
mod taken;

pub use answers::{KeptAnswer, LastState, Told, is_borne_out};
pub use fault::FinishFault;
pub use handle::HubHandle;
pub use hub::{Finished, SharedHub};
pub use session::SharedSession;
