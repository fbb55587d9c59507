//! What the server of a world goes by.
ghost use Rattle.std.specs.Prelude.{◌≡◌, IfOk};
ghost use Rattle.ra_grand_runs.specs.SetUps.{secret, shake_settings};

use ra_base::{Message, NoMemory};
use ra_grand_runs::copy_secret;
use ra_link_core::Settings;
use ra_shake::ShakeSettings;
use ra_sign::Keyed;
use std::alloc::Global;

/// The settings of each link, and the signer. Its fields are open, since the contracts of the server's calls name them.
#[derive(Drop)]
pub struct ServerSettings {
    pub link: Settings,
    pub signer: Keyed,
}

impl ServerSettings {
    /// Those of the world: the same token for all, and no version.
    pub fn new(alloc: Global) -> Result<ServerSettings, NoMemory>
        ensures { IfOk result (λ settings. settings ≡ record { link = record { shake = shake_settings }; signer = secret }) }
    {
        let token = copy_secret(alloc)?;
        let key = copy_secret(alloc)?;
        Ok(ServerSettings {
            link: Settings {
                shake: ShakeSettings {
                    secret: Some(token),
                    commit: Message::empty(alloc),
                },
            },
            signer: Keyed::new(key),
        })
    }
}
