//! The session: what it keeps, and its links.
ghost use Rattle.std.specs.Prelude.{◌≡◌, ◌&&◌, ◌==◌, true, None, OnOk, OnErr, IfErr};
ghost use Rattle.ra_model.specs.Endpoints.{Endpoint as AbstractEndpoint, is_linked};
ghost use Rattle.ra_model.specs.EndpointStates.{StandsFor, IsConsistent};
ghost use Rattle.ra_proto.specs.Shown.{shown_of};
ghost use Rattle.ra_session.specs.Carried.{AttachCarries};
ghost use Rattle.ra_session.specs.SessionCalls as calls;
ghost use Rattle.ra_session.specs.SessionRefusals.{Refuses, IsEnd, attach_refusal, feed_refusal};
ghost use Rattle.ra_session.specs.SessionStates.{OfEachSession, SessionBecomes, StandsForSome};

use crate::values::SessionFault;
use ra_base::{Cause, Kind, Message, Moment};
use ra_chan_client::ChannelClient;
use ra_chan_server::ChannelServer;
use ra_proto::{Endpoint, Marks};
use std::alloc::Global;
use std::marker::Model;

/// A session. It is seen as what it keeps in memory.
#[derive(Drop)]
pub struct Session {
    pub(crate) endpoint: Endpoint,
    pub(crate) kind: Kind,
    pub(crate) serves: bool,
    pub(crate) server: ChannelServer,
    pub(crate) client: ChannelClient,
    pub(crate) cause: Option<Cause>,
}

impl Model for Session {
    ghost use Rattle.std.specs.Coded.{codes};
    ghost use Rattle.ra_values.specs.TreeCode.{coded_tree};
    ghost use Rattle.ra_session.specs.SessionStates.{SessionState, IsSound};

    ghost Value = { SessionState };

    ghost coded = { Prim.hlevel (codes, coded_tree) };

    ghost view = { λ s. record { endpoint = s.endpoint; kind = s.kind; serves = s.serves; server = s.server; client = s.client; cause = s.cause } };

    ghost invariant = { λ s. IsSound (record { endpoint = s.endpoint; kind = s.kind; serves = s.serves; server = s.server; client = s.client; cause = s.cause }) };
}

/// Fails where the session has ended.
pub(crate) fn running(cause: Option<Cause>) -> Result<(), SessionFault>
    ensures ok { OnOk result (cause ≡ None) }
    ensures err { IfErr result (λ fault. IsEnd fault cause) }
{
    match cause {
        Some(cause) => Err(SessionFault::Ended { cause }),
        None => Ok(()),
    }
}

/// Whether the peer waits for a Resume.
fn resumes(serves: bool, kind: Kind) -> bool
    ensures { result ≡ calls.resumes serves kind }
{
    match kind {
        Kind::Management => false,
        Kind::ExtensionHost | Kind::Tunnel => serves,
    }
}

impl Session {
    /// Why the session has ended, if it has.
    pub fn cause(&self) -> Option<Cause>
        ensures { result ≡ self.now.cause }
    {
        self.cause
    }

    /// The number of the present link, or of the last one; 0 before the first.
    pub fn epoch(&self) -> u64
        ensures { result ≡ self.now.endpoint.epoch }
    {
        self.endpoint.epoch()
    }

    /// The last ids given, handed up and acknowledged.
    pub fn marks(&self) -> Marks
        ensures consistent { IsConsistent self.now.endpoint }
        ensures stands { StandsForSome self.now }
        ensures marks { result ≡ record { sent = self.now.endpoint.sent; received = self.now.endpoint.received; acknowledged = self.now.endpoint.acknowledged } }
    {
        self.endpoint.marks()
    }

    /// Ends the session; where it has ended the first cause stays. It takes no memory.
    pub fn end(&mut self, cause: Cause)
        ensures { SessionBecomes self.old self.new (calls.end_session cause) }
    {
        if self.cause.is_none() {
            self.cause = Some(cause);
        }
    }

    /// A link is lost. True where it was the present one. It takes no memory.
    pub fn lose(&mut self, epoch: u64) -> bool
        ensures stands { SessionBecomes self.old self.new (calls.lose_session epoch) }
        ensures answer { result ≡ (is_linked self.old.endpoint.phase && (epoch == self.old.endpoint.epoch)) }
    {
        self.endpoint.lose_link(epoch)
    }

    /// All bytes that may be put on the link, which they are: none while the peer has asked for a pause. It takes no memory.
    pub fn take_out(&mut self) -> Message
        ensures out { result ≡ shown_of self.old.endpoint }
        ensures stands { SessionBecomes self.old self.new calls.take_out }
    {
        self.endpoint.take_out()
    }

    /// A link begins, with the bytes that were read of it. What is owed is written on it, behind an Ack where it is not the
    /// first, and before a Resume where an extension host is served.
    pub fn attach(
        &mut self,
        alloc: Global,
        epoch: u64,
        chunk: &[u8],
        now: Moment,
    ) -> Result<(), SessionFault>
        ensures stands { OnOk result (SessionBecomes self.old self.new (calls.attach epoch chunk.now now)) }
        ensures refused { OfEachSession self.old (λ s. Refuses result (attach_refusal epoch s)) }
        ensures carries { IfErr result AttachCarries }
        ensures same { OnErr result (self.new ≡ self.old) }
    {
        running(self.cause)?;
        let with_resume = resumes(self.serves, self.kind);
        self.endpoint
            .join_link(alloc, epoch, chunk, with_resume, now)?;
        Ok(())
    }

    /// Bytes come, and no frame is applied.
    pub fn feed(&mut self, epoch: u64, piece: &[u8], now: Moment) -> Result<(), SessionFault>
        ensures stands { OnOk result (SessionBecomes self.old self.new (calls.feed_session epoch piece.now now)) }
        ensures refused { OfEachSession self.old (λ s. Refuses result (feed_refusal epoch s)) }
        ensures same { OnErr result (self.new ≡ self.old) }
    {
        running(self.cause)?;
        self.endpoint.feed(epoch, piece, now)?;
        Ok(())
    }
}
