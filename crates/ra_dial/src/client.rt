//! Who dials, and with what each of its handshakes begins.
ghost use Rattle.std.specs.Prelude.{◌≡◌, IfOk};
ghost use Rattle.ra_dial.specs.Clients.{request_of, new_shaking};

use crate::handshake::Shaking;
use crate::values::copy_shake;
use ra_base::{Key, Message, NoMemory};
use ra_shake::{ClientShake, ShakeSettings, made};
use ra_sign::Keyed;
use ra_upgrade::request;
use std::alloc::Global;
use std::marker::Model;
use std::str;

/// Who dials.
#[derive(Drop)]
pub struct Client {
    pub shake: ShakeSettings,
    pub signer: Keyed,
    pub key: Key,
    pub host: Message,
    pub skip_frames: bool,
}

impl Model for Client {
    ghost use Rattle.ra_dial.specs.Clients.{Settings, CanDial};

    ghost Value = { Settings };

    ghost view = { λ c. record { shake = c.shake; sign_key = c.signer; key = c.key; host = c.host; skip_frames = c.skip_frames } };

    ghost invariant = { λ c. CanDial (record { shake = c.shake; sign_key = c.signer; key = c.key; host = c.host; skip_frames = c.skip_frames }) };
}

impl Client {
    /// The request of a new link, with this key.
    pub fn request(
        &self,
        alloc: Global,
        reconnection: bool,
        key: [u8; 16],
    ) -> Result<Message, NoMemory>
        ensures { IfOk result (λ text. text ≡ request_of self.now reconnection key) }
    {
        let host = str::from_utf8(self.host.as_slice()).unwrap();
        request(
            alloc,
            host,
            &self.key.token,
            reconnection,
            self.skip_frames,
            key,
        )
    }

    /// The handshake of a new link, with this key, and a challenge that is made of drawn bytes.
    pub fn shaking(
        &self,
        alloc: Global,
        key: [u8; 16],
        drawn: [u8; 16],
    ) -> Result<Shaking, NoMemory>
        ensures { IfOk result (λ s. s ≡ new_shaking self.now key drawn) }
    {
        let challenge = made(drawn)?;
        let challenge = Message::copy(alloc, challenge.as_text().as_bytes())?;
        let settings = copy_shake(alloc, &self.shake)?;
        let shake = ClientShake::new(settings, self.key.kind, challenge);
        Ok(Shaking::new(alloc, key, shake))
    }
}
