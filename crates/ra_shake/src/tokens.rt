//! Tokens and challenges that are made of drawn bytes.
ghost use Rattle.std.specs.Prelude.{◌≡◌, Ok};
ghost use Rattle.ra_shake.specs.Made.{made_text};

use ra_base::{NoMemory, Token};
use uuid::{Builder, Uuid};

/// The text of a random UUID (RFC 9562, section 5.4) of these bytes, in lower case with hyphens: the high four bits of byte 6
/// become 4, and the high two bits of byte 8 become binary 10. A token is kept in place, so this takes no memory and is always
/// `Ok`.
#[tactic(auto, using(crate::proofs::MadeLemmas::hyphenated_token), unfolding(crate::specs::Made::made_text))]
pub fn made(bytes: [u8; 16]) -> Result<Token, NoMemory>
    ensures { result ≡ Ok (made_text bytes) }
{
    let mut buffer = Uuid::encode_buffer();
    let uuid = Builder::from_random_bytes(bytes).into_uuid();
    Ok(Token::of_text(uuid.hyphenated().encode_lower(&mut buffer)))
}
