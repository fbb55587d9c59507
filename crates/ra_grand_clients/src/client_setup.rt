//! How a client is made.
ghost use Rattle.std.specs.Prelude.{◌≡◌, ◌≢◌, IfOk, codes};
ghost use Rattle.ra_base.specs.declared.kind.Kind.TheVariants as kinds;
ghost use Rattle.ra_registry.specs.Rows.{same_key};
ghost use Rattle.ra_values.specs.View.{tree};
ghost use Rattle.ra_dial.specs.View.{settings_of};
ghost use Rattle.ra_grand_clients.specs.ClientStates.{StandsForClient};
ghost use Rattle.ra_grand_runs.specs.GrandClients as grand;
ghost use Rattle.ra_grand_runs.specs.SetUps.{settings_for, context};

use crate::client::Client;
use ra_base::{Key, Message, Moment, NoMemory};
use ra_dial::{DialSettings, Dialer};
use ra_grand_runs::{Counted, copy_secret};
use ra_shake::ShakeSettings;
use ra_values::{Text, Value};
use std::alloc::Global;

/// What a management session says first.
fn window(alloc: Global) -> Result<Text, NoMemory>
    ensures { IfOk result (λ t. t ≡ codes "window") }
{
    match Text::of(alloc, "window") {
        Ok(text) => Ok(text),
        Err(_) => Err(NoMemory),
    }
}

/// What the client of this session dials with.
fn client_settings(alloc: Global, key: Key) -> Result<DialSettings, NoMemory>
    ensures settings { IfOk result (λ s. settings_of s ≡ settings_for key) }
    ensures context { IfOk result (λ s. tree s.context ≡ context) }
{
    let token = copy_secret(alloc)?;
    let sign_key = copy_secret(alloc)?;
    let host = Message::copy(alloc, b"localhost")?;
    let text = window(alloc)?;
    Ok(DialSettings {
        shake: ShakeSettings {
            secret: Some(token),
            commit: Message::empty(alloc),
        },
        sign_key,
        key,
        host,
        skip_frames: true,
        context: Value::Text { text },
    })
}

/// Whether two keys are the same one.
fn is_same(key: &Key, other: &Key) -> bool
    ensures { result ≡ same_key key.now other.now }
{
    key.cmp(other).is_eq()
}

impl Client {
    /// Whether this is its key.
    pub(crate) fn has(&self, key: &Key) -> bool
        ensures { result ≡ same_key key.now self.now.key }
    {
        is_same(key, &self.key)
    }

    /// A client of this session, which has no link: its first attempt is due at once.
    pub(crate) fn new(alloc: Global, key: Key, now: Moment) -> Result<Client, NoMemory>
        requires { key.kind ≢ kinds.Tunnel }
        ensures { IfOk result (λ c. StandsForClient c (grand.new_client key now)) }
    {
        let settings = client_settings(alloc, key.same())?;
        let dialer = Dialer::new(alloc, settings, now)?;
        Ok(Client {
            alloc,
            key,
            dialer,
            entropy: Counted::new(),
            held: Message::empty(alloc),
            links: Vec::new(alloc),
        })
    }
}
