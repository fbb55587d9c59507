//! Signing texts and judging signatures, as a trait. By which key or module is not said here.
ghost use Rattle.std.specs.Prelude.{◌≡◌, ◌≤◌, List, ℕ, Bool, IfOk, IsUtf8, length};

use ra_base::{Message, NoMemory};
use std::alloc::Global;

/// Signs texts, and judges signatures. It tells both.
pub trait Signer {
    // The signature of a text.
    ghost signature_of: { Self → List ℕ → List ℕ };

    // Whether a signature counts for a text.
    ghost counts: { Self → List ℕ → List ℕ → Bool };

    /// The signature of the text: UTF-8 of at most 65,536 bytes.
    fn sign(&self, alloc: Global, text: &[u8]) -> Result<Message, NoMemory>
        ensures value { IfOk result (λ signature. signature ≡ signature_of self.now text.now) }
        ensures utf8 { IfOk result IsUtf8 }
        ensures len { IfOk result (λ signature. length signature ≤ 65536) };

    /// Whether the signature counts for the text.
    fn accepts(&self, alloc: Global, text: &[u8], signature: &[u8]) -> Result<bool, NoMemory>
        ensures { IfOk result (λ accepted. accepted ≡ counts self.now text.now signature.now) };
}
