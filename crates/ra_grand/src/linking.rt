//! Links that clients make, and those that they can't have.
ghost use Rattle.std.specs.Prelude.{◌≡◌, ◌≢◌, ◌+◌, Some, length, IfOk, OnErr};
ghost use Rattle.ra_base.specs.TokenGrammar.{IsToken};
ghost use Rattle.ra_base.specs.declared.kind.Kind.TheVariants as kinds;
ghost use Rattle.ra_dial.specs.declared.values.DialEvent.TheVariants as events;
ghost use Rattle.ra_model.specs.Links.{at_number};
ghost use Rattle.ra_grand_runs.specs.Grands as grand;
ghost use Rattle.ra_grand_runs.specs.GrandEffects as effects;
ghost use Rattle.ra_grand_runs.specs.GrandRefusals as refusals;
ghost use Rattle.ra_grand_runs.specs.GrandRuns.{joins, on_dialer, links};
ghost use Rattle.ra_grand.specs.GrandStates.{StandsForGrand, IsIndex, CallsAt};
ghost use Rattle.ra_grand_runs.specs.GrandViews.{Answers};

use crate::world::{GrandWorld, index_of};
use ra_base::{Key, NoMemory};
use ra_dial::DialEvent;
use ra_grand_runs::{GrandEffect, GrandFault, WritableAct};
use ra_upgrade::laws::answer_is_read;

/// The token of a key is one.
fn know_token(key: &Key)
    ensures { IsToken key.now.token }
{
    let _text = key.token.as_text();
}

impl GrandWorld {
    /// A client of the session of this key, which has no link, is made. No other client has the key.
    pub(crate) fn client(&mut self, key: Key) -> Result<GrandEffect, GrandFault>
        requires { key.kind ≢ kinds.Tunnel }
        ensures { (w : grand.Grand) → StandsForGrand self.old w
            → Answers result (refusals.if_taken key w.clients) (effects.made (length w.clients + 1)) (StandsForGrand self.new (joins key w)) (StandsForGrand self.new w) }
    {
        know_token(&key);
        match self.clients.holder(&key) {
            Some(client) => Err(GrandFault::TokenTaken { client }),
            None => match self.clients.add(self.alloc, key, self.moment) {
                Ok(number) => Ok(GrandEffect::Made { number }),
                Err(_) => Err(GrandFault::NoMemory),
            },
        }
    }

    /// The client at this place makes a link. Its number is answered.
    fn link_at(&mut self, client: u64, n: usize) -> Result<u64, NoMemory>
        requires { IsIndex client (length self.old.clients) (Some n) }
        ensures linked { IfOk result (λ number. (w : grand.Grand) → StandsForGrand self.old w → CallsAt n w → (number ≡ length w.places + 1) × StandsForGrand self.new (links client w)) }
        ensures stays { OnErr result ((w : grand.Grand) → StandsForGrand self.old w → StandsForGrand self.new w) }
    {
        answer_is_read();
        let Some(link) = (self.clients.link_count(n) as u64).checked_add(1) else {
            return Err(NoMemory);
        };
        let count = self.server.link_count();
        self.server.add_link(self.alloc, client, link)?;
        match self.clients.link(n, self.moment) {
            Ok(()) => Ok(self.server.link_count() as u64),
            Err(fault) => {
                self.server.keep_links(count);
                Err(fault)
            }
        }
    }

    /// A client's attempt has a link, which is made.
    pub(crate) fn linked(&mut self, client: u64) -> Result<GrandEffect, GrandFault>
        ensures { (w : grand.Grand) → StandsForGrand self.old w
            → Answers result (refusals.of_client client (refusals.if_not_dialling client) (at_number w.clients client)) (effects.made (length w.places + 1))
            (StandsForGrand self.new (links client w)) (StandsForGrand self.new w) }
    {
        match index_of(client, self.clients.len()) {
            None => Err(GrandFault::NoSuchClient { client }),
            Some(n) => {
                if !self.clients.is_calling(n) {
                    return Err(GrandFault::NotDialling { client });
                }
                match self.link_at(client, n) {
                    Ok(number) => Ok(GrandEffect::Made { number }),
                    Err(_) => Err(GrandFault::NoMemory),
                }
            }
        }
    }

    /// A client's attempt can have no link.
    pub(crate) fn no_link(&mut self, client: u64) -> Result<GrandEffect, GrandFault>
        ensures { (w : grand.Grand) → StandsForGrand self.old w
            → Answers result (refusals.of_client client (refusals.if_not_dialling client) (at_number w.clients client)) (effects.act_of events.NoLink client w)
            (StandsForGrand self.new (on_dialer client events.NoLink w)) (StandsForGrand self.new w) }
    {
        answer_is_read();
        match index_of(client, self.clients.len()) {
            None => Err(GrandFault::NoSuchClient { client }),
            Some(n) => {
                if !self.clients.is_calling(n) {
                    return Err(GrandFault::NotDialling { client });
                }
                match self.clients.dial(n, DialEvent::NoLink, self.moment) {
                    Ok(act) => Ok(GrandEffect::Act {
                        act: WritableAct::new(act),
                    }),
                    Err(_) => Err(GrandFault::NoMemory),
                }
            }
        }
    }
}
