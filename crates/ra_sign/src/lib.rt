//! HMAC-SHA-256, signatures by it, bytes drawn by it, and the comparison of texts that are not to be guessed.
//!
//! It is for the signer and the drawn bytes that this project ships. What is signed in a handshake, and where the key comes
//! from, is not said here.
#![tactic(auto)]

pub mod codes;
pub mod drawn;
pub mod equality;
pub mod keyed;
pub mod laws;

pub use codes::hmac;
pub use drawn::Drawn;
pub use equality::are_equal;
pub use keyed::Keyed;
