//! A signer with a key.
ghost use Rattle.std.specs.Prelude.{◌≡◌, IfOk, string_bytes};
ghost use Rattle.ra_sign.specs.Signature.{signature_text, is_signature};

use crate::codes::hmac;
use crate::equality::are_equal;
use base64::engine::general_purpose::STANDARD;
use ra_base::{Message, NoMemory};
use ra_ports::Signer;
use std::alloc::{AllocError, Global};
use std::marker::Model;

/// Signs a text by the base64 (RFC 4648, section 4) of its authentication code under a key. A contract sees it as the key.
#[derive(Drop)]
pub struct Keyed {
    key: Message,
}

impl Model for Keyed {
    ghost use Rattle.std.specs.Prelude.{ℕ, List};

    ghost Value = { List ℕ };

    ghost view = { λ signer. signer.key };
}

impl Keyed {
    /// A signer with this key, which may have any length.
    pub fn new(key: Message) -> Keyed
        ensures { result ≡ key }
    {
        Keyed { key }
    }
}

/// The signature of the text under the key.
#[tactic(auto, unfolding(crate::specs::Signature::signature_text))]
fn signature(alloc: Global, key: &[u8], text: &[u8]) -> Result<String, AllocError>
    ensures { IfOk result (λ s. string_bytes s ≡ signature_text key.now text.now) }
{
    STANDARD.encode(alloc, &hmac(key, text))
}

impl Signer for Keyed {
    ghost signature_of = { signature_text };

    ghost counts = { is_signature };

    #[tactic(auto, using(crate::proofs::SignatureLemmas::signature_short, crate::proofs::SignatureLemmas::signature_utf8))]
    fn sign(&self, alloc: Global, text: &[u8]) -> Result<Message, NoMemory> {
        Ok(Message::from_vec(signature(alloc, self.key.as_slice(), text)?.into_bytes()))
    }

    fn accepts(&self, alloc: Global, text: &[u8], signature: &[u8]) -> Result<bool, NoMemory> {
        let own = self.sign(alloc, text)?;
        Ok(are_equal(own.as_slice(), signature))
    }
}
