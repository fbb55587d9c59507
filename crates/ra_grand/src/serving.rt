//! Bytes that come to the server's end of a link, and a link that the server leaves.
ghost use Rattle.std.specs.Prelude.{◌≡◌, ◌<◌, [], length, IfOk};
ghost use Rattle.ra_base.specs.declared.event.Side.TheVariants as sides;
ghost use Rattle.ra_link_core.specs.Makes.{outcome_of};
ghost use Rattle.ra_model.specs.Refusals.{or_fault};
ghost use Rattle.ra_grand_clients.specs.ClientLinks.{HasUnread};
ghost use Rattle.ra_grand_runs.specs.Fits.{MovesFit};
ghost use Rattle.ra_grand_runs.specs.Grands as grand;
ghost use Rattle.ra_grand_runs.specs.GrandEffects as effects;
ghost use Rattle.ra_grand_runs.specs.GrandRefusals as refusals;
ghost use Rattle.ra_grand_runs.specs.GrandRuns.{bytes_up};
ghost use Rattle.ra_grand.specs.GrandStates.{StandsForGrand};
ghost use Rattle.ra_grand_runs.specs.GrandViews.{Answers, effect_of};
ghost use Rattle.ra_grand_runs.specs.Marks.{Mark};
ghost use Rattle.ra_grand_runs.specs.ServedLinks.{piece_came, server_left};
ghost use Rattle.ra_grand.specs.Servings.{WaitsAt, ReceivesAt, DeliversAt, outcome_after};
ghost use Rattle.ra_grand_runs.specs.SetUps.{secret, shake_settings};
ghost use Rattle.ra_grand.specs.Spots.{IsThere};

use crate::spot::Spot;
use crate::world::GrandWorld;
use ra_base::{Count, Message, NoMemory, Side};
use ra_grand_runs::{GrandEffect, GrandFault};
use ra_grand_server::ServerSettings;
use ra_link_core::CoreEnd;

/// The end of a link whose bytes were put on it, or not for want of memory.
fn end_of(end: Option<CoreEnd>, put: Result<(), NoMemory>) -> Option<CoreEnd>
    ensures { outcome_of result ≡ outcome_after put (outcome_of end) }
{
    match put {
        Ok(()) => end,
        Err(_) => Some(CoreEnd::NoMemory),
    }
}

impl GrandWorld {
    /// Where the link with this number is, whose end at the server is not over.
    fn waiting(&self, link: u64) -> Result<Spot, GrandFault>
        ensures waits { (w : grand.Grand) → StandsForGrand self.now w → WaitsAt result link w }
        ensures there { IfOk result (λ spot. IsThere spot self.now) }
    {
        match self.find(link) {
            None => Err(GrandFault::NoSuchLink { link }),
            Some(spot) => {
                if self.server.is_over(spot.served) {
                    return Err(GrandFault::Over { link });
                }
                Ok(spot)
            }
        }
    }

    /// The server's end of the link takes bytes that it can read, and what it writes is put on the link.
    fn receive(&mut self, spot: Spot, settings: &ServerSettings, bytes: &[u8]) -> Option<CoreEnd>
        requires settings { settings.now ≡ record { link = record { shake = shake_settings }; signer = secret } }
        requires there { spot.served < length self.old.server.links }
        requires unread { HasUnread spot.client spot.link sides.B (length bytes.now) self.old.clients }
        ensures moment { self.new.moment ≡ self.old.moment }
        ensures count { length self.new.server.links ≡ length self.old.server.links }
        ensures receives { ReceivesAt spot (outcome_of result) bytes.now self.old self.new }
    {
        let mut out = Vec::new(self.alloc);
        let end = self
            .server
            .piece(spot.served, settings, bytes, self.moment, &mut out);
        let put = self
            .clients
            .exchange(spot.client, spot.link, bytes.len(), out.as_slice());
        end_of(end, put)
    }

    /// A piece comes to the server's end of the link, which is left where that ends it.
    fn deliver(&mut self, spot: Spot, settings: &ServerSettings, bytes: Message) -> GrandEffect
        requires settings { settings.now ≡ record { link = record { shake = shake_settings }; signer = secret } }
        requires there { spot.served < length self.old.server.links }
        requires unread { HasUnread spot.client spot.link sides.B (length bytes) self.old.clients }
        ensures { DeliversAt spot (effect_of result) bytes self.old self.new }
    {
        match self.receive(spot, settings, bytes.as_slice()) {
            None => GrandEffect::Moved { bytes, end: None },
            Some(end) => {
                self.server.leave(spot.served, self.moment);
                GrandEffect::Moved {
                    bytes,
                    end: Some(end),
                }
            }
        }
    }

    /// Bytes of a count come from the client to the server, as one piece.
    pub(crate) fn up(&mut self, link: u64, count: Count) -> Result<GrandEffect, GrandFault>
        ensures { (w : grand.Grand) → StandsForGrand self.old w
            → (mark : Mark) × Answers result (refusals.of_link link (λ l. or_fault (refusals.if_over link l) (refusals.if_unread sides.B count l)) (grand.find_link link w))
            (effects.moved_up mark (λ f. bytes_up count f.link) (grand.find_link link w) w)
            (StandsForGrand self.new (grand.on_link (λ f. piece_came mark (bytes_up count f.link) f) (grand.find_link link w) w)
            × MovesFit mark (λ f. bytes_up count f.link) (grand.find_link link w) w)
            (StandsForGrand self.new w) }
    {
        let spot = self.waiting(link)?;
        let bytes = self.bytes_of(spot, Side::B, count)?;
        match ServerSettings::new(self.alloc) {
            Ok(settings) => Ok(self.deliver(spot, &settings, bytes)),
            Err(_) => Err(GrandFault::NoMemory),
        }
    }

    /// Nothing came to the server's end of the link by this moment.
    pub(crate) fn idle(&mut self, link: u64) -> Result<GrandEffect, GrandFault>
        ensures { (w : grand.Grand) → StandsForGrand self.old w
            → (mark : Mark) × Answers result (refusals.of_link link (refusals.if_over link) (grand.find_link link w))
            (effects.moved_up mark (λ f. []) (grand.find_link link w) w)
            (StandsForGrand self.new (grand.on_link (piece_came mark []) (grand.find_link link w) w) × MovesFit mark (λ f. []) (grand.find_link link w) w)
            (StandsForGrand self.new w) }
    {
        let spot = self.waiting(link)?;
        match ServerSettings::new(self.alloc) {
            Ok(settings) => {
                let nothing = Message::empty(self.alloc);
                Ok(self.deliver(spot, &settings, nothing))
            }
            Err(_) => Err(GrandFault::NoMemory),
        }
    }

    /// The server leaves the link, whose seat is lost.
    pub(crate) fn gone(&mut self, link: u64) -> Result<GrandEffect, GrandFault>
        ensures { (w : grand.Grand) → StandsForGrand self.old w
            → Answers result (refusals.of_link link (refusals.if_over link) (grand.find_link link w)) effects.done
            (StandsForGrand self.new (grand.on_link server_left (grand.find_link link w) w)) (StandsForGrand self.new w) }
    {
        let spot = self.waiting(link)?;
        self.server.leave(spot.served, self.moment);
        Ok(GrandEffect::Done)
    }
}
