//! Reconnection tokens.
ghost use Rattle.std.specs.Prelude.{◌≡◌, ◌≤◌, length, Some, nat_eq, refl, position, not};
ghost use Rattle.std.specs.Ordering.{nat_cmp};
ghost use Rattle.std.specs.Cmp.Lexicographic.{pointwise, slice_cmp, nat_list_eq_equiv, nat_list_cmp_total, texts_ties, texts_po};
ghost use Rattle.std.specs.Cmp.{partial_equiv_from_equiv};
ghost use Rattle.ra_base.specs.TokenGrammar.{IsToken, is_visible, token_of};
ghost use Rattle.ra_base.specs.declared.token.TokenFault.TheVariants.{NoMemory};

use crate::memory;
use arrayvec::ArrayString;
use std::alloc::AllocError;
use std::cmp::Ordering;
use std::marker::Model;

/// The most bytes of a token.
pub const MAX_TOKEN: usize = 256;

/// The name of a session that a client keeps: 1 to 256 bytes, each from `!` to `~`. A contract sees it as its bytes. It is kept
/// in place, so a copy takes no memory.
#[derive(Drop)]
pub struct Token {
    text: ArrayString<256>,
}

impl Model for Token {
    ghost use Rattle.std.specs.Prelude.{ℕ, List};
    ghost use Rattle.ra_base.specs.TokenGrammar.{IsToken};

    ghost Value = { List ℕ };

    ghost view = { λ t. t.text.bytes };

    ghost invariant = { λ t. IsToken t.text.bytes };
}

/// Why a text is no token.
#[derive(Clone, Copy, Debug, PartialEq, Eq)]
pub enum TokenFault {
    /// It has no byte.
    Empty,
    /// It has more than 256 bytes.
    TooLong { len: usize },
    /// The first byte that is none from `!` to `~` stands there, counted from 0.
    BadByte { at: usize },
    NoMemory,
}

impl From<AllocError> for TokenFault {
    ghost from_gives = { λ _ fault. fault ≡ NoMemory };

    fn from(_: AllocError) -> TokenFault {
        TokenFault::NoMemory
    }
}

impl From<memory::NoMemory> for TokenFault {
    ghost from_gives = { λ _ fault. fault ≡ NoMemory };

    fn from(_: memory::NoMemory) -> TokenFault {
        TokenFault::NoMemory
    }
}

/// The place of the first byte that is no visible character.
fn first_bad(text: &[u8]) -> Option<usize>
    ensures { result ≡ position (λ b. not (is_visible b)) text.now }
{
    text.iter().position(|b| *b < 0x21 || *b > 0x7e)
}

/// A text of at most 256 bytes, kept in place.
fn in_place(text: &str) -> ArrayString<256>
    requires { length text.now ≤ 256 }
    ensures { result.bytes ≡ text.now }
{
    let mut kept = ArrayString::new();
    kept.push_str(text);
    kept
}

impl Token {
    /// The token that the text is, or the first fault in the order of `TokenFault`. It takes no memory.
    pub fn from_text(text: &str) -> Result<Token, TokenFault>
        ensures { result ≡ token_of text.now }
    {
        let bytes = text.as_bytes();
        if bytes.is_empty() {
            return Err(TokenFault::Empty);
        }
        if bytes.len() > MAX_TOKEN {
            return Err(TokenFault::TooLong { len: bytes.len() });
        }
        if let Some(at) = first_bad(bytes) {
            return Err(TokenFault::BadByte { at });
        }
        Ok(Token {
            text: in_place(text),
        })
    }

    /// The token that a text is, where that is known.
    pub fn of_text(text: &str) -> Token
        requires { IsToken text.now }
        ensures { result ≡ text.now }
    {
        Token {
            text: in_place(text),
        }
    }

    /// The text of the token.
    pub fn as_text(&self) -> &str
        ensures value { result.now ≡ self.now }
        ensures token { IsToken self.now }
    {
        self.text.as_str()
    }

    /// The same token again. It takes no memory.
    pub fn same(&self) -> Token
        ensures { result ≡ self.now }
    {
        Token { text: self.text }
    }
}

impl PartialEq for Token {
    ghost eq = { pointwise nat_eq };

    ghost laws = { partial_equiv_from_equiv nat_list_eq_equiv };

    fn eq(&self, other: &Token) -> bool {
        self.as_text() == other.as_text()
    }
}

impl Eq for Token {
    ghost laws = { nat_list_eq_equiv };
}

impl PartialOrd for Token {
    ghost partial_cmp = { λ a b. Some (slice_cmp nat_cmp a b) };

    ghost laws = { texts_po };

    fn partial_cmp(&self, other: &Token) -> Option<Ordering> {
        Some(self.cmp(other))
    }
}

impl Ord for Token {
    ghost cmp = { slice_cmp nat_cmp };

    ghost total = { nat_list_cmp_total };

    ghost matches_partial_cmp = { λ a b. refl };

    ghost matches_eq = { texts_ties };

    fn cmp(&self, other: &Token) -> Ordering {
        self.as_text().cmp(other.as_text())
    }
}
