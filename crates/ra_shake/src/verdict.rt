//! Why a message of a client is refused, and what it says where it is not: each function takes the value of a body.
ghost use Rattle.std.specs.Prelude.{◌≡◌, IfOk, option_map};
ghost use Rattle.serde_json.specs.View.{view};
ghost use Rattle.ra_shake.specs.Verdict as spec;

use crate::reading::{has_type, number_of_member, text_of_member};
use crate::settings::ShakeSettings;
use ra_base::{Kind, Message, NoMemory, Reason};
use ra_ports::Signer;
use ra_sign::are_equal;
use serde_json::Value;
use std::alloc::Global;

/// Whether the text is the connection token, where one is set.
#[tactic(auto, unfolding(crate::specs::Verdict::is_authorized))]
fn is_authorized(secret: &Option<Message>, auth: Option<&str>) -> bool
    ensures { result ≡ spec.is_authorized secret.now (option_map (λ a. a.now) auth.entry) }
{
    match (secret, auth) {
        (None, _) => true,
        (Some(secret), Some(auth)) => are_equal(auth.as_bytes(), secret.as_slice()),
        (Some(_), None) => false,
    }
}

/// Whether both commits are named, and they differ.
#[tactic(auto, unfolding(crate::specs::Verdict::versions_differ))]
fn versions_differ(own: &[u8], theirs: Option<&str>) -> bool
    ensures { result ≡ spec.versions_differ own.now (option_map (λ t. t.now) theirs.entry) }
{
    match theirs {
        Some(theirs) => !own.is_empty() && !theirs.is_empty() && own != theirs.as_bytes(),
        None => false,
    }
}

/// The first reason that applies to a first message.
#[tactic(auto, unfolding(crate::specs::Verdict::judge_first))]
pub fn judge_first(secret: &Option<Message>, value: Option<&Value>) -> Option<Reason>
    ensures { result ≡ spec.judge_first secret.now (option_map (λ v. view v.now) value.entry) }
{
    let Some(value) = value else {
        return Some(Reason::MalformedFirst);
    };
    if !has_type(value, "auth") {
        return Some(Reason::InvalidFirst);
    }
    if !is_authorized(secret, text_of_member(value, "auth")) {
        return Some(Reason::AuthMismatch);
    }
    None
}

/// Whether the text is the connection token, or a signature that counts for the challenge.
#[tactic(auto, unfolding(crate::specs::Verdict::is_signed))]
fn is_signed<G: Signer>(
    alloc: Global,
    secret: &Option<Message>,
    signer: &G,
    challenge: &[u8],
    signed: &str,
) -> Result<bool, NoMemory>
    ensures { IfOk result (λ holds. holds ≡ spec.is_signed secret.now
        (G.counts signer.now challenge.now) (Some signed.now)) }
{
    if let Some(secret) = secret {
        if are_equal(signed.as_bytes(), secret.as_slice()) {
            return Ok(true);
        }
    }
    signer.accepts(alloc, challenge, signed.as_bytes())
}

/// The first reason that applies to a second message.
#[tactic(auto, unfolding(crate::specs::Verdict::judge_second))]
pub fn judge_second<G: Signer>(
    alloc: Global,
    settings: &ShakeSettings,
    signer: &G,
    challenge: &[u8],
    value: Option<&Value>,
) -> Result<Option<Reason>, NoMemory>
    ensures { IfOk result (λ reason. reason ≡ spec.judge_second settings.now
        (G.counts signer.now challenge.now) (option_map (λ v. view v.now) value.entry)) }
{
    let Some(value) = value else {
        return Ok(Some(Reason::MalformedSecond));
    };
    if !has_type(value, "connectionType") {
        return Ok(Some(Reason::InvalidSecond));
    }
    let Some(signed) = text_of_member(value, "signedData") else {
        return Ok(Some(Reason::SecondField));
    };
    if versions_differ(settings.commit.as_slice(), text_of_member(value, "commit")) {
        return Ok(Some(Reason::Version));
    }
    if !is_signed(alloc, &settings.secret, signer, challenge, signed)? {
        return Ok(Some(Reason::Unauthorized));
    }
    Ok(None)
}

/// The text that the client wants signed, which is empty where it names none.
#[tactic(auto, unfolding(crate::specs::Verdict::client_challenge))]
pub fn client_challenge(value: Option<&Value>) -> &[u8]
    ensures { result.now ≡ spec.client_challenge (option_map (λ v. view v.now) value.entry) }
{
    match value {
        Some(value) => text_of_member(value, "data").unwrap_or("").as_bytes(),
        None => b"",
    }
}

/// The kind of session that the client wants, where the server knows it.
#[tactic(auto, unfolding(crate::specs::Verdict::wanted_kind))]
pub fn wanted_kind(value: Option<&Value>) -> Option<Kind>
    ensures { result ≡ spec.wanted_kind (option_map (λ v. view v.now) value.entry) }
{
    match number_of_member(value?, "desiredConnectionType")? {
        1 => Some(Kind::Management),
        2 => Some(Kind::ExtensionHost),
        _ => None,
    }
}
