//! The handshake at the server.
ghost use Rattle.std.specs.Prelude.{◌≡◌, ◌≢◌, IfOk, OnErr, IsUtf8, IsTrue, ◌↔◌, option_map};
ghost use Rattle.serde_json.specs.View.{view};
ghost use Rattle.ra_shake.specs.declared.server.Stage.TheVariants as stages;
ghost use Rattle.ra_shake.specs.Server as spec;

use crate::reading::reading;
use crate::settings::ShakeSettings;
use crate::texts::sign_text;
use crate::verdict::{client_challenge, judge_first, judge_second, wanted_kind};
use ra_base::{Message, NoMemory, Reason, Request, Token};
use ra_ports::Signer;
use serde_json::Value;
use std::alloc::Global;
use std::marker::Model;
use std::str;

/// What a handshake does on a message.
#[derive(Drop)]
pub enum ShakeStep {
    /// It answers by this text, and waits for the second message.
    Say { text: Message },
    /// Nothing in the two messages refuses the client, and it asks for this. The kind is None where it asked for one that the
    /// server does not know. The handshake is over.
    Ask { request: Request },
    /// The client is refused for this reason, the first that applies. The handshake is over.
    Refuse { reason: Reason },
}

/// What a handshake waits for.
#[derive(Clone, Copy, Debug, PartialEq, Eq)]
pub enum Stage {
    First,
    Second,
    Over,
}

/// The handshake of one connection, at the server. A contract sees it as its settings, what it was made for and its stage.
#[derive(Drop)]
pub struct ServerShake {
    settings: ShakeSettings,
    token: Token,
    reconnection: bool,
    challenge: Message,
    stage: Stage,
}

impl Model for ServerShake {
    ghost use Rattle.std.specs.Prelude.{IsUtf8};
    ghost use Rattle.ra_shake.specs.States.{ServerState};

    ghost Value = { ServerState };

    ghost view = { λ s. record {
      settings = s.settings;
      token = s.token;
      reconnection = s.reconnection;
      challenge = s.challenge;
      stage = s.stage;
    } };

    ghost invariant = { λ s. IsUtf8 s.challenge };
}

impl ServerShake {
    /// A handshake that waits for the first message, for a link that came with this token. The challenge is the text that the
    /// client is to sign.
    pub fn new(
        settings: ShakeSettings,
        token: Token,
        reconnection: bool,
        challenge: Message,
    ) -> ServerShake
        requires { IsUtf8 challenge }
        ensures { result ≡ record {
          settings = settings;
          token = token;
          reconnection = reconnection;
          challenge = challenge;
          stage = stages.First;
        } }
    {
        ServerShake {
            settings,
            token,
            reconnection,
            challenge,
            stage: Stage::First,
        }
    }

    /// Whether it has asked or refused.
    pub fn is_over(&self) -> bool
        ensures { IsTrue result ↔ (self.now.stage ≡ stages.Over) }
    {
        self.stage == Stage::Over
    }

    /// What it does on a first message.
    fn on_first<G: Signer>(
        &self,
        alloc: Global,
        signer: &G,
        value: Option<&Value>,
    ) -> Result<ShakeStep, NoMemory>
        ensures { IfOk result (λ step. step ≡ spec.first_step (G.signature_of signer.now) self.now
            (option_map (λ v. view v.now) value.entry)) }
    {
        if let Some(reason) = judge_first(&self.settings.secret, value) {
            return Ok(ShakeStep::Refuse { reason });
        }
        let signature = signer.sign(alloc, client_challenge(value))?;
        let challenge = str::from_utf8(self.challenge.as_slice()).unwrap();
        let signature = str::from_utf8(signature.as_slice()).unwrap();
        let text = sign_text(alloc, challenge, signature)?;
        Ok(ShakeStep::Say { text })
    }

    /// What it does on a second message.
    fn on_second<G: Signer>(
        &self,
        alloc: Global,
        signer: &G,
        value: Option<&Value>,
    ) -> Result<ShakeStep, NoMemory>
        ensures { IfOk result (λ step. step ≡ spec.second_step (G.counts signer.now) self.now
            (option_map (λ v. view v.now) value.entry)) }
    {
        let challenge = self.challenge.as_slice();
        if let Some(reason) = judge_second(alloc, &self.settings, signer, challenge, value)? {
            return Ok(ShakeStep::Refuse { reason });
        }
        Ok(ShakeStep::Ask {
            request: Request {
                kind: wanted_kind(value),
                token: self.token.same(),
                reconnection: self.reconnection,
            },
        })
    }

    /// Takes the body of a control frame, and tells what to do. A handshake that is over takes none. Where memory ran out it
    /// waits as before.
    pub fn on_control<G: Signer>(
        &mut self,
        alloc: Global,
        signer: &G,
        body: &[u8],
    ) -> Result<ShakeStep, NoMemory>
        requires { self.old.stage ≢ stages.Over }
        ensures step { IfOk result (λ step. step ≡ spec.server_step (G.signature_of signer.now)
            (G.counts signer.now) self.old body.now) }
        ensures after { IfOk result (λ step. self.new ≡ spec.server_after self.old step) }
        ensures failed { OnErr result (self.new ≡ self.old) }
    {
        let value = reading(alloc, body)?;
        let step = match self.stage {
            Stage::First => self.on_first(alloc, signer, value.as_ref())?,
            Stage::Second => self.on_second(alloc, signer, value.as_ref())?,
            Stage::Over => unreachable!(),
        };
        self.stage = match step {
            ShakeStep::Say { .. } => Stage::Second,
            ShakeStep::Ask { .. } | ShakeStep::Refuse { .. } => Stage::Over,
        };
        Ok(step)
    }
}
