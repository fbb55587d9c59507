//! The texts of the handshake, which `serde_json` writes: members in the order of their names, without spaces.
ghost use Rattle.std.specs.Prelude.{◌≡◌, ◌≢◌, IfOk, false};
ghost use Rattle.ra_base.specs.declared.kind.Kind.TheVariants as kinds;
ghost use Rattle.serde_json.specs.View.{view};
ghost use Rattle.serde_json.specs.Written.{has_float};
ghost use Rattle.ra_shake.specs.Texts as spec;

use ra_base::{Kind, Message, NoMemory, Reason};
use serde_json::{Value, json};
use std::alloc::{AllocError, Global};

/// The text of a value.
#[tactic(auto, unfolding(crate::specs::Texts::text_of))]
fn text_of(alloc: Global, value: &Value) -> Result<Message, NoMemory>
    requires { has_float (view value.now) ≡ false }
    ensures { IfOk result (λ text. text ≡ spec.text_of (view value.now)) }
{
    Ok(Message::from_vec(value.to_string(alloc)?.into_bytes()))
}

fn auth_value(alloc: Global, secret: &str, challenge: &str) -> Result<Value, AllocError>
    ensures { IfOk result (λ v. view v ≡ spec.auth_value secret.now challenge.now) }
{
    json!(in alloc; {"auth": secret, "data": challenge, "type": "auth"})
}

/// The client's first message.
pub(crate) fn auth_text(alloc: Global, secret: &str, challenge: &str) -> Result<Message, NoMemory>
    ensures { IfOk result (λ text. text ≡ spec.auth_text secret.now challenge.now) }
{
    let value = auth_value(alloc, secret, challenge)?;
    text_of(alloc, &value)
}

fn sign_value(alloc: Global, challenge: &str, signature: &str) -> Result<Value, AllocError>
    ensures { IfOk result (λ v. view v ≡ spec.sign_value challenge.now signature.now) }
{
    json!(in alloc; {"data": challenge, "signedData": signature, "type": "sign"})
}

/// The server's answer to the first message.
pub(crate) fn sign_text(
    alloc: Global,
    challenge: &str,
    signature: &str,
) -> Result<Message, NoMemory>
    ensures { IfOk result (λ text. text ≡ spec.sign_text challenge.now signature.now) }
{
    let value = sign_value(alloc, challenge, signature)?;
    text_of(alloc, &value)
}

fn connection_value(
    alloc: Global,
    commit: &str,
    number: u64,
    signature: &str,
) -> Result<Value, AllocError>
    ensures { IfOk result (λ v. view v ≡ spec.connection_value commit.now number signature.now) }
{
    json!(in alloc; {
        "commit": commit,
        "desiredConnectionType": number,
        "signedData": signature,
        "type": "connectionType"
    })
}

/// The client's second message. The number stands for the kind of session that it wants.
pub(crate) fn connection_text(
    alloc: Global,
    commit: &str,
    number: u64,
    signature: &str,
) -> Result<Message, NoMemory>
    ensures { IfOk result (λ text. text ≡ spec.connection_text commit.now number signature.now) }
{
    let value = connection_value(alloc, commit, number, signature)?;
    text_of(alloc, &value)
}

fn accept_value(alloc: Global, kind: Kind) -> Result<Value, AllocError>
    requires { kind ≢ kinds.Tunnel }
    ensures { IfOk result (λ v. view v ≡ spec.accept_value kind) }
{
    match kind {
        Kind::Management => json!(in alloc; {"type": "ok"}),
        Kind::ExtensionHost => json!(in alloc; {}),
        Kind::Tunnel => unreachable!(),
    }
}

/// The text that accepts a client of that kind: `{"type":"ok"}` for Management, `{}` for ExtensionHost.
pub fn accept_text(alloc: Global, kind: Kind) -> Result<Message, NoMemory>
    requires { kind ≢ kinds.Tunnel }
    ensures { IfOk result (λ text. text ≡ spec.accept_text kind) }
{
    let value = accept_value(alloc, kind)?;
    text_of(alloc, &value)
}

fn refuse_value(alloc: Global, reason: Reason) -> Result<Value, AllocError>
    ensures { IfOk result (λ v. view v ≡ spec.refuse_value reason) }
{
    json!(in alloc; {"reason": reason.text(), "type": "error"})
}

/// The text that refuses a client: `{"reason":R,"type":"error"}`.
pub fn refuse_text(alloc: Global, reason: Reason) -> Result<Message, NoMemory>
    ensures { IfOk result (λ text. text ≡ spec.refuse_text reason) }
{
    let value = refuse_value(alloc, reason)?;
    text_of(alloc, &value)
}
