//! The words of grand scripts alone: kinds, tokens, ids and texts.
ghost use Rattle.std.specs.Prelude.{◌≡◌, IfOk, IsUtf8};
ghost use Rattle.ra_script.specs.Faults.{LineGives};
ghost use Rattle.ra_script.specs.GrandWords.{kind_at, token_at, id_at, utf8_at};

use crate::fault::LineFault;
use crate::line::What;
use crate::words::{bytes, number};
use ra_base::{Kind, Token};
use ra_values::{NoMemory, Text};
use std::alloc::Global;
use std::str;

/// The kind of a client that a word is.
pub fn kind(word: &[u8]) -> Result<Kind, What>
    ensures { result ≡ kind_at word.now }
{
    if word == b"management".as_slice() {
        Ok(Kind::Management)
    } else if word == b"host".as_slice() {
        Ok(Kind::ExtensionHost)
    } else {
        Err(What::UnknownWord)
    }
}

/// The token that a word is.
#[tactic(auto, unfolding(crate::specs::GrandWords::token_at))]
pub fn token(word: &[u8]) -> Result<Token, What>
    requires { IsUtf8 word.now }
    ensures { result ≡ token_at word.now }
{
    let text = str::from_utf8(word).unwrap();
    match Token::from_text(text) {
        Ok(token) => Ok(token),
        Err(_) => Err(What::BadBytes),
    }
}

/// The id that a word is the decimal of.
#[tactic(auto, unfolding(crate::specs::GrandWords::id_at))]
pub fn id(word: &[u8]) -> Result<i32, What>
    ensures { result ≡ id_at word.now }
{
    let n = number(word)?;
    match i32::try_from(n) {
        Ok(id) => Ok(id),
        Err(_) => Err(What::BadNumber),
    }
}

/// A word, as a text.
pub fn text(alloc: Global, word: &[u8]) -> Result<Text, NoMemory>
    requires { IsUtf8 word.now }
    ensures { IfOk result (λ text. text ≡ word.now) }
{
    Text::of(alloc, str::from_utf8(word).unwrap())
}

/// The text of the bytes that a word is the hexadecimal text of.
#[tactic(auto, unfolding(crate::specs::GrandWords::utf8_at))]
pub fn utf8(alloc: Global, word: &[u8]) -> Result<Text, LineFault>
    ensures { LineGives result (utf8_at word.now) }
{
    let bytes = bytes(alloc, word)?;
    let Ok(text) = str::from_utf8(bytes.as_slice()) else {
        return Err(What::BadBytes.into());
    };
    Ok(Text::of(alloc, text)?)
}
