//! The server's side of a hub and its clients in memory: the hub, its ends of the links, and the jobs that wait and are done by the tools.
//!
//! It holds no client and no bytes of a link.
#![tactic(auto)]

mod served_link;
pub mod server;
pub mod settings;
mod telling;

pub use server::Server;
pub use settings::ServerSettings;
