//! Bytes that move on a link.
ghost use Rattle.std.specs.Prelude.{◌≡◌, ◌≤◌, ◌<◌, length, None, IfOk, IfSome, OnOk};
ghost use Rattle.ra_base.specs.declared.event.Side.TheVariants as sides;
ghost use Rattle.ra_model.specs.Links.{amount};
ghost use Rattle.ra_grand_clients.specs.ClientLinks.{HasUnread, IsFlushedAt};
ghost use Rattle.ra_grand_runs.specs.GrandEffects as effects;
ghost use Rattle.ra_grand_runs.specs.GrandRefusals as refusals;
ghost use Rattle.ra_grand_runs.specs.GrandRuns.{bytes_down, comes_down, cuts};
ghost use Rattle.ra_grand_runs.specs.Grands as grand;
ghost use Rattle.ra_grand.specs.GrandStates.{StandsForGrand};
ghost use Rattle.ra_grand.specs.Spots.{FoundAt, IsSpot, IsThere, Chooses};
ghost use Rattle.ra_grand_runs.specs.GrandViews.{Answers, Causes};

use crate::spot::Spot;
use crate::world::{GrandWorld, index_of};
use ra_base::{Count, Message, Side};
use ra_grand_runs::{GrandEffect, GrandFault};
use ra_upgrade::laws::answer_is_read;

/// How many bytes a count takes of those that are there.
fn taken_of(count: Count, there: usize) -> Result<usize, GrandFault>
    ensures refused { Causes result (refusals.if_many count there) }
    ensures amount { IfOk result (λ n. n ≡ amount count there) }
    ensures within { IfOk result (λ n. n ≤ there) }
{
    match count {
        Count::All => Ok(there),
        Count::Exact { n } => {
            if n > there as u64 {
                return Err(GrandFault::TooMany {
                    asked: n,
                    there: there as u64,
                });
            }
            Ok(n as usize)
        }
        Count::Most { n } => Ok((n as usize).min(there)),
    }
}

impl GrandWorld {
    /// Where the link with this number is.
    pub(crate) fn find(&self, link: u64) -> Option<Spot>
        ensures found { (w : grand.Grand) → StandsForGrand self.now w → IsSpot result w (grand.find_link link w) }
        ensures there { IfSome result (λ spot. IsThere spot self.now) }
    {
        let served = index_of(link, self.server.link_count())?;
        let (client, link) = self.server.place(served);
        let client = index_of(client, self.clients.len())?;
        let link = index_of(link, self.clients.link_count(client))?;
        Some(Spot {
            served,
            client,
            link,
        })
    }

    /// The bytes of a count that a side can read on a link, once all that its client has to write is on the client's last link.
    pub(crate) fn bytes_of(
        &mut self,
        spot: Spot,
        side: Side,
        count: Count,
    ) -> Result<Message, GrandFault>
        requires { IsThere spot self.old }
        ensures stands { (w : grand.Grand) → StandsForGrand self.old w → StandsForGrand self.new w }
        ensures chosen { (w : grand.Grand) (f : grand.Found) → StandsForGrand self.old w → FoundAt spot w f → Chooses result side count f.link }
        ensures there { IsThere spot self.new }
        ensures unread { IfOk result (λ bytes. HasUnread spot.client spot.link side (length bytes) self.new.clients) }
        ensures flushed { OnOk result (IsFlushedAt spot.client self.old.clients self.new.clients) }
    {
        if self.clients.flush(spot.client).is_err() {
            return Err(GrandFault::NoMemory);
        }
        let there = self.clients.readable(spot.client, spot.link, side);
        let n = taken_of(count, there.len())?;
        match Message::copy(self.alloc, &there[..n]) {
            Ok(bytes) => Ok(bytes),
            Err(_) => Err(GrandFault::NoMemory),
        }
    }

    /// Bytes of a count come from the server to the client. Where the link is not the client's last one they are dropped.
    pub(crate) fn down(&mut self, link: u64, count: Count) -> Result<GrandEffect, GrandFault>
        ensures { (w : grand.Grand) → StandsForGrand self.old w
            → Answers result (refusals.of_link link (refusals.if_unread sides.A count) (grand.find_link link w)) (effects.moved_down count (grand.find_link link w))
            (StandsForGrand self.new (grand.on_link (λ f. comes_down (bytes_down count f.link) f) (grand.find_link link w) w)) (StandsForGrand self.new w) }
    {
        answer_is_read();
        let Some(spot) = self.find(link) else {
            return Err(GrandFault::NoSuchLink { link });
        };
        let bytes = self.bytes_of(spot, Side::A, count)?;
        match self
            .clients
            .take_down(spot.client, spot.link, &bytes, self.moment)
        {
            Ok(()) => Ok(GrandEffect::Moved { bytes, end: None }),
            Err(_) => Err(GrandFault::NoMemory),
        }
    }

    /// A link is cut: nothing more is written on it or read from it.
    pub(crate) fn cut(&mut self, link: u64) -> Result<GrandEffect, GrandFault>
        ensures { (w : grand.Grand) → StandsForGrand self.old w
            → Answers result (refusals.of_link link (λ l. None) (grand.find_link link w)) effects.done
            (StandsForGrand self.new (grand.on_link cuts (grand.find_link link w) w)) (StandsForGrand self.new w) }
    {
        let Some(spot) = self.find(link) else {
            return Err(GrandFault::NoSuchLink { link });
        };
        match self.clients.cut(spot.client, spot.link) {
            Ok(()) => Ok(GrandEffect::Done),
            Err(_) => Err(GrandFault::NoMemory),
        }
    }
}
