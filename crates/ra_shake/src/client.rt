//! The handshake at the client.
ghost use Rattle.std.specs.Prelude.{◌≡◌, ◌≢◌, IfOk, OnErr, option_map, false};
ghost use Rattle.serde_json.specs.View.{view};
ghost use Rattle.ra_base.specs.declared.kind.Kind.TheVariants as kinds;
ghost use Rattle.ra_shake.specs.Client as spec;
ghost use Rattle.ra_shake.specs.Texts.{auth_text};
ghost use Rattle.ra_shake.specs.States.{AreTexts, secret_or_zeros};

use crate::reading::{has_type, reading, text_of_member};
use crate::settings::ShakeSettings;
use crate::texts::{auth_text, connection_text};
use ra_base::{Kind, Message, NoMemory};
use ra_ports::Signer;
use serde_json::Value;
use std::alloc::Global;
use std::marker::Model;
use std::str;

/// What a client says for a connection token where it has none.
const NO_SECRET: &str = "00000000000000000000";

/// What a client does on a message.
#[derive(Drop)]
pub enum ClientStep {
    /// It answers by this text, and waits for the server's last answer.
    Say { text: Message },
    /// The server accepts it.
    Done,
    /// The server refuses it, by this text.
    Refused { reason: Message },
    /// The body is none of the texts that may stand at this place.
    Unexpected,
}

/// The handshake of one connection, at the client. A contract sees it as its settings, what it was made for, and whether it has
/// answered the server's challenge. It has no end of its own: only a Say moves it on.
#[derive(Drop)]
pub struct ClientShake {
    settings: ShakeSettings,
    kind: Kind,
    challenge: Message,
    has_answered: bool,
}

impl Model for ClientShake {
    ghost use Rattle.ra_shake.specs.States.{ClientState, AreTexts};

    ghost Value = { ClientState };

    ghost view = { λ s. record {
      settings = s.settings;
      kind = s.kind;
      challenge = s.challenge;
      has_answered = s.has_answered;
    } };

    ghost invariant = { λ s. AreTexts s.settings s.challenge };
}

/// The number by which a client asks for a kind.
fn kind_number(kind: Kind) -> u64
    ensures { result ≡ spec.kind_number kind }
{
    match kind {
        Kind::Management => 1,
        Kind::ExtensionHost => 2,
        Kind::Tunnel => 3,
    }
}

/// A refusal, or nothing that the client knows.
#[tactic(auto, unfolding(crate::specs::Client::refusal))]
fn refusal(alloc: Global, value: Option<&Value>) -> Result<ClientStep, NoMemory>
    ensures { IfOk result (λ step. step ≡ spec.refusal (option_map (λ v. view v.now) value.entry)) }
{
    let Some(value) = value else {
        return Ok(ClientStep::Unexpected);
    };
    if !has_type(value, "error") {
        return Ok(ClientStep::Unexpected);
    }
    match text_of_member(value, "reason") {
        Some(reason) => Ok(ClientStep::Refused {
            reason: Message::copy(alloc, reason.as_bytes())?,
        }),
        None => Ok(ClientStep::Unexpected),
    }
}

/// Whether the value accepts a client of that kind.
#[tactic(auto, unfolding(crate::specs::Client::is_accepted))]
fn is_accepted(kind: Kind, value: Option<&Value>) -> bool
    ensures { result ≡ spec.is_accepted kind (option_map (λ v. view v.now) value.entry) }
{
    let Some(value) = value else {
        return false;
    };
    match kind {
        Kind::Management => has_type(value, "ok"),
        Kind::ExtensionHost => value.is_object() && value.get("type").is_none(),
        Kind::Tunnel => false,
    }
}

impl ClientShake {
    /// A handshake that has said nothing, for a session of that kind. The challenge is the text that the server is to sign.
    pub fn new(settings: ShakeSettings, kind: Kind, challenge: Message) -> ClientShake
        requires texts { AreTexts settings challenge }
        requires kind { kind ≢ kinds.Tunnel }
        ensures { result ≡ record {
          settings = settings;
          kind = kind;
          challenge = challenge;
          has_answered = false;
        } }
    {
        ClientShake {
            settings,
            kind,
            challenge,
            has_answered: false,
        }
    }

    /// The first message.
    pub fn first(&self, alloc: Global) -> Result<Message, NoMemory>
        ensures { IfOk result (λ text. text ≡ auth_text (secret_or_zeros self.now.settings.secret)
            self.now.challenge) }
    {
        let secret = match &self.settings.secret {
            Some(secret) => str::from_utf8(secret.as_slice()).unwrap(),
            None => NO_SECRET,
        };
        let challenge = str::from_utf8(self.challenge.as_slice()).unwrap();
        auth_text(alloc, secret, challenge)
    }

    /// What it does on the server's signature.
    fn on_signed<G: Signer>(
        &self,
        alloc: Global,
        signer: &G,
        value: Option<&Value>,
    ) -> Result<ClientStep, NoMemory>
        ensures { IfOk result (λ step. step ≡ spec.on_signed (G.signature_of signer.now) self.now
            (option_map (λ v. view v.now) value.entry)) }
    {
        let Some(object) = value else {
            return refusal(alloc, value);
        };
        if !has_type(object, "sign") {
            return refusal(alloc, value);
        }
        let Some(challenge) = text_of_member(object, "data") else {
            return Ok(ClientStep::Unexpected);
        };
        let signature = signer.sign(alloc, challenge.as_bytes())?;
        let signature = str::from_utf8(signature.as_slice()).unwrap();
        let commit = str::from_utf8(self.settings.commit.as_slice()).unwrap();
        let text = connection_text(alloc, commit, kind_number(self.kind), signature)?;
        Ok(ClientStep::Say { text })
    }

    /// What it does on the server's last answer.
    fn on_answer(&self, alloc: Global, value: Option<&Value>) -> Result<ClientStep, NoMemory>
        ensures { IfOk result (λ step. step ≡ spec.on_answer self.now
            (option_map (λ v. view v.now) value.entry)) }
    {
        if is_accepted(self.kind, value) {
            return Ok(ClientStep::Done);
        }
        refusal(alloc, value)
    }

    /// Takes the body of a control frame, and tells what to do. It does not judge the server's signature. Where memory ran out
    /// it waits as before.
    pub fn on_control<G: Signer>(
        &mut self,
        alloc: Global,
        signer: &G,
        body: &[u8],
    ) -> Result<ClientStep, NoMemory>
        ensures step { IfOk result (λ step. step ≡ spec.client_step (G.signature_of signer.now)
            self.old body.now) }
        ensures after { IfOk result (λ step. self.new ≡ spec.client_after self.old step) }
        ensures failed { OnErr result (self.new ≡ self.old) }
    {
        let value = reading(alloc, body)?;
        let step = if self.has_answered {
            self.on_answer(alloc, value.as_ref())?
        } else {
            self.on_signed(alloc, signer, value.as_ref())?
        };
        if let ClientStep::Say { .. } = step {
            self.has_answered = true;
        }
        Ok(step)
    }
}
