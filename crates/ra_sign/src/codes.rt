//! Authentication codes: HMAC with SHA-256 (RFC 2104).
ghost use Rattle.std.specs.Prelude.{◌≡◌, ◌≤◌, length};
ghost use Rattle.ra_sign.specs.Hmac as spec;

use sha2::{Digest, Sha256};

/// The bytes of a block of SHA-256.
const BLOCK: usize = 64;

const INNER_PAD: u8 = 0x36;

const OUTER_PAD: u8 = 0x5c;

/// The bytes, and zeros up to a block.
fn filled(key: &[u8]) -> [u8; BLOCK]
    requires { length key.now ≤ 64 }
    ensures { result ≡ spec.filled key.now }
{
    let mut block = [0; BLOCK];
    block[..key.len()].copy_from_slice(key);
    block
}

/// The key, or its digest where it is longer than a block, filled with zeros.
fn block_of(key: &[u8]) -> [u8; BLOCK]
    ensures { result ≡ spec.key_block key.now }
{
    if key.len() > BLOCK {
        filled(&Sha256::digest(key))
    } else {
        filled(key)
    }
}

/// Xors each byte of the block with the pad.
fn mask(block: &mut [u8], pad: u8)
    ensures { block.new ≡ spec.masked pad block.old }
{
    for byte in block.iter_mut() {
        *byte ^= pad;
    }
}

/// The authentication code of a text under a key: HMAC (RFC 2104, section 2) with SHA-256. It takes no memory.
#[tactic(auto, unfolding(crate::specs::Hmac::hmac_sha256))]
pub fn hmac(key: &[u8], text: &[u8]) -> [u8; 32]
    ensures { result ≡ spec.hmac_sha256 key.now text.now }
{
    let mut inner_key = block_of(key);
    let mut outer_key = inner_key;
    mask(&mut inner_key, INNER_PAD);
    mask(&mut outer_key, OUTER_PAD);
    let mut inner = Sha256::new();
    inner.update(inner_key);
    inner.update(text);
    let mut outer = Sha256::new();
    outer.update(outer_key);
    outer.update(inner.finalize());
    outer.finalize()
}
