//! Tests of ra_registry: who is admitted and refused, what a loss or an end does to a session, and what is kept of an acceptance.
ghost use Rattle.std.specs.Prelude.{◌≡◌, ◌<◌, ◌&&◌, IsTrue};
ghost use Rattle.ra_registry.specs.Rows.{row_of};
ghost use Rattle.ra_registry.specs.Seats.{admits, ends, is_of, given, spent, IsUnspent};

use ra_base::{Cause, Key, Kind, Moment, Reason, Request, Seat, Token};
use ra_keep::{Keeper, MemKeeper};
use ra_registry::{AdmitFault, Did, Past, Registry, Row, RowState};
use std::alloc::{AllocError, Global};
use std::process::Abort;
use std::test::Fail;

const LONG: u64 = 10_800_000;

const SHORT: u64 = 300_000;

fn key(token: &str) -> Option<Key> {
    Some(Key {
        kind: Kind::Management,
        token: Token::from_text(token).ok()?,
    })
}

fn gives(seat: &Seat, past: &Past) -> bool
    ensures { result ≡ (admits past.now.did && is_of seat.now past.now) }
{
    match past.did {
        Did::Admitted { epoch, .. } => seat.key.cmp(&past.key).is_eq() && seat.epoch == epoch,
        Did::Refused { .. } | Did::Lost { .. } | Did::Closed { .. } => false,
        Did::Expired | Did::Missed => false,
    }
}

fn spends(seat: &Seat, past: &Past) -> bool
    ensures { result ≡ (ends past.now.did && is_of seat.now past.now) }
{
    match past.did {
        Did::Lost { epoch } => seat.key.cmp(&past.key).is_eq() && seat.epoch == epoch,
        Did::Closed { epoch, .. } => seat.key.cmp(&past.key).is_eq() && seat.epoch == epoch,
        Did::Admitted { .. } | Did::Refused { .. } | Did::Expired | Did::Missed => false,
    }
}

fn count_given(seat: &Seat, history: &[Past]) -> usize
    ensures { result ≡ given seat.now history.now }
{
    history.iter().filter(|past| gives(seat, past)).count()
}

fn count_spent(seat: &Seat, history: &[Past]) -> usize
    ensures { result ≡ spent seat.now history.now }
{
    history.iter().filter(|past| spends(seat, past)).count()
}

/// Whether a seat can be spent.
fn is_unspent(registry: &Registry, seat: &Seat) -> bool
    ensures { IsTrue result → IsUnspent seat.now registry.now.history }
{
    let history = registry.history();
    count_spent(seat, history) < count_given(seat, history)
}

/// A registry and its keeper, with moments as numbers and sessions of Management by their tokens.
#[derive(Drop)]
struct Trial {
    alloc: Global,
    keeper: MemKeeper,
    registry: Registry,
}

impl Trial {
    fn new(alloc: Global) -> Trial {
        Trial {
            alloc,
            keeper: MemKeeper::new(alloc),
            registry: Registry::new(alloc, LONG, SHORT),
        }
    }

    /// A trial that starts from what the keeper holds.
    fn over(alloc: Global, mut keeper: MemKeeper) -> Option<Trial> {
        let records = keeper.all(alloc).ok()?;
        let registry = Registry::from_records(alloc, LONG, SHORT, records.as_slice()).ok()?;
        Some(Trial {
            alloc,
            keeper,
            registry,
        })
    }

    fn request(
        &mut self,
        token: &str,
        reconnection: bool,
        at: u64,
    ) -> Option<Result<Seat, AdmitFault>> {
        let ask = Request {
            kind: Some(Kind::Management),
            token: Token::from_text(token).ok()?,
            reconnection,
        };
        let now = Moment::of_millis(at)?;
        Some(self.registry.admit(self.alloc, &mut self.keeper, ask, now))
    }

    fn admit(&mut self, token: &str, reconnection: bool, at: u64) -> Option<Seat> {
        self.request(token, reconnection, at)?.ok()
    }

    fn epoch(&mut self, token: &str, reconnection: bool, at: u64) -> Option<u64> {
        let seat = self.admit(token, reconnection, at)?;
        Some(seat.epoch)
    }

    fn fault(&mut self, token: &str, reconnection: bool, at: u64) -> Option<AdmitFault> {
        self.request(token, reconnection, at)?.err()
    }

    fn is_refused(&mut self, token: &str, reconnection: bool, at: u64, expected: Reason) -> bool {
        let Some(AdmitFault::Refused { reason }) = self.fault(token, reconnection, at) else {
            return false;
        };
        reason == expected
    }

    /// Reports a loss, where the seat can be spent.
    fn lose(&mut self, seat: Seat, at: u64) -> bool {
        let Some(now) = Moment::of_millis(at) else {
            return false;
        };
        if !is_unspent(&self.registry, &seat) {
            return false;
        }
        self.registry.lost(seat, now);
        true
    }

    /// Admits a new session, whose link is then lost.
    fn admit_and_lose(&mut self, token: &str, admitted: u64, lost: u64) -> bool {
        match self.admit(token, false, admitted) {
            Some(seat) => self.lose(seat, lost),
            None => false,
        }
    }

    /// Reports an end, where the seat can be spent.
    fn end(&mut self, seat: Seat, cause: Cause, at: u64) -> bool {
        let Some(now) = Moment::of_millis(at) else {
            return false;
        };
        if !is_unspent(&self.registry, &seat) {
            return false;
        }
        self.registry.close(seat, cause, now);
        true
    }

    /// Admits a new session, which then ends.
    fn admit_and_end(&mut self, token: &str, admitted: u64, cause: Cause, ended: u64) -> bool {
        match self.admit(token, false, admitted) {
            Some(seat) => seat.epoch == 1 && self.end(seat, cause, ended),
            None => false,
        }
    }

    /// Admits a new session and its reconnection at 50, and reports the loss of the first link at 60: the second seat.
    fn admit_twice(&mut self, token: &str) -> Option<Seat> {
        let first = self.admit(token, false, 0)?;
        let second = self.admit(token, true, 50)?;
        if self.lose(first, 60) {
            Some(second)
        } else {
            None
        }
    }

    /// Reports that something was told to a session, where it has no row.
    fn miss(&mut self, token: &str, at: u64) -> Option<()> {
        let key = key(token)?;
        let now = Moment::of_millis(at)?;
        if self.registry.row(&key).is_some() {
            return None;
        }
        self.registry.miss(&key, now).ok()
    }

    fn expire(&mut self, at: u64) -> Option<u64> {
        let now = Moment::of_millis(at)?;
        Some(self.registry.expire(now))
    }

    fn row(&self, token: &str) -> Option<Row> {
        self.registry.row(&key(token)?)
    }

    fn state(&self, token: &str) -> Option<RowState> {
        let row = self.row(token)?;
        Some(row.state)
    }

    fn last(&self) -> Option<Did> {
        let past = self.registry.history().last()?;
        Some(past.did)
    }

    /// How many records the keeper has, and the moments of them, added.
    fn kept(&mut self) -> Option<(usize, u64)> {
        let records = self.keeper.all(self.alloc).ok()?;
        let mut sum = 0u64;
        for kept in records.iter() {
            sum = sum.saturating_add(kept.at);
        }
        Some((records.len(), sum))
    }
}

#[test]
fn a_closed_session_was_seen_before(rt: HostRuntime) {
    let mut trial = Trial::new(rt.alloc());
    let cause = Cause::Disconnected;
    assert!(rt; trial.admit_and_end("t1", 0, cause, 5));
    assert_eq!(rt; trial.state("t1"), Some(RowState::Closed { cause }));
    for (token, reconnection, at, reason) in [
        ("t1", true, 10, Reason::SeenBefore),
        ("t1", false, 20, Reason::Duplicate),
        ("t2", true, 30, Reason::NeverSeen),
    ] {
        assert!(rt;
            trial.is_refused(token, reconnection, at, reason),
            "at {at}"
        );
    }
    assert_eq!(rt; trial.registry.history().len(), 5);
}

/// A session `t1` that was lost at 0, and shortened by another one's request at 1,000.
fn shortened(alloc: Global) -> Option<Trial> {
    let mut trial = Trial::new(alloc);
    if trial.admit_and_lose("t1", 0, 0) && trial.epoch("t2", false, 1_000).is_some() {
        Some(trial)
    } else {
        None
    }
}

#[test]
fn a_lost_session_is_kept_until_its_deadline(rt: HostRuntime) -> Result<(), Fail> {
    let mut trial = shortened(rt.alloc()).ok_or("t1")?;
    assert_eq!(rt; trial.epoch("t1", true, 300_999), Some(2));
    Ok(())
}

#[test]
fn a_lost_session_is_refused_from_its_deadline(rt: HostRuntime) -> Result<(), Fail> {
    let mut trial = shortened(rt.alloc()).ok_or("t1")?;
    assert!(rt; trial.is_refused("t1", true, 301_000, Reason::SeenBefore));
    Ok(())
}

#[test]
fn an_older_seat_loses_nothing(rt: HostRuntime) -> Result<(), Fail> {
    let mut trial = Trial::new(rt.alloc());
    let second = trial.admit_twice("t1").ok_or("t1")?;
    assert_eq!(rt; second.epoch, 2);
    assert_eq!(rt; trial.state("t1"), Some(RowState::Up));
    assert_eq!(rt; trial.last(), Some(Did::Lost { epoch: 1 }));
    assert!(rt; trial.lose(second, 70));
    let shortened = None;
    assert_eq!(rt;
        trial.state("t1"),
        Some(RowState::Lost { at: 70, shortened })
    );
    Ok(())
}

#[test]
fn a_refusal_shortens_once(rt: HostRuntime) {
    let mut trial = Trial::new(rt.alloc());
    assert!(rt; trial.admit_and_lose("t1", 0, 0));
    let shortened = Some(1_000);
    for at in [1_000, 2_000] {
        assert!(rt; trial.is_refused("t9", true, at, Reason::NeverSeen));
        assert_eq!(rt;
            trial.state("t1"),
            Some(RowState::Lost { at: 0, shortened })
        );
    }
}

#[test]
fn a_lost_session_expires_at_its_deadline(rt: HostRuntime) -> Result<(), Fail> {
    let mut trial = shortened(rt.alloc()).ok_or("t1")?;
    assert_eq!(rt; trial.expire(300_999), Some(0));
    assert_eq!(rt; trial.expire(301_000), Some(1));
    assert_eq!(rt; trial.last(), Some(Did::Expired));
    Ok(())
}

#[test]
fn a_session_with_no_row_is_missed(rt: HostRuntime) -> Result<(), Fail> {
    let mut trial = shortened(rt.alloc()).ok_or("t1")?;
    assert_eq!(rt; trial.expire(301_000), Some(1));
    assert_eq!(rt; trial.miss("t8", 301_000), Some(()));
    assert_eq!(rt; trial.last(), Some(Did::Missed));
    assert_eq!(rt; trial.state("t8"), None);
    Ok(())
}

#[test]
fn an_unknown_kind_is_refused_first(rt: HostRuntime) -> Result<(), Fail> {
    let mut trial = Trial::new(rt.alloc());
    let ask = Request {
        kind: None,
        token: Token::from_text("t1")?,
        reconnection: true,
    };
    let answer = trial
        .registry
        .admit(trial.alloc, &mut trial.keeper, ask, Moment::start());
    let reason = Reason::UnknownKind;
    assert!(rt; answer.err() == Some(AdmitFault::Refused { reason }));
    Ok(())
}

/// A trial whose keeper failed at its third call: `t1` and `t2` were admitted, the second one at its second try.
fn two_kept(rt: &impl Abort, alloc: Global) -> Result<Trial, Fail> {
    let keeper = MemKeeper::with(Vec::new(alloc), vec![in alloc; 3u64]?);
    let mut trial = Trial::over(alloc, keeper).ok_or("keeper")?;
    assert_eq!(rt; trial.epoch("t1", false, 0), Some(1));
    assert!(rt; trial.fault("t2", false, 5) == Some(AdmitFault::KeepFault));
    assert_eq!(rt; trial.registry.history().len(), 1);
    assert_eq!(rt; trial.state("t2"), None);
    assert_eq!(rt; trial.epoch("t2", false, 6), Some(1));
    Ok(trial)
}

#[test]
fn an_acceptance_is_kept(rt: HostRuntime) -> Result<(), Fail> {
    let mut trial = two_kept(&rt, rt.alloc())?;
    assert!(rt; trial.kept() == Some((2, 6)));
    Ok(())
}

#[test]
fn sessions_before_the_start_are_closed(rt: HostRuntime) -> Result<(), Fail> {
    let Trial { alloc, keeper, .. } = two_kept(&rt, rt.alloc())?;
    let mut trial = Trial::over(alloc, keeper).ok_or("keeper")?;
    assert_eq!(rt; trial.registry.start().len(), 2);
    assert!(rt; trial.is_refused("t1", true, 10, Reason::SeenBefore));
    assert!(rt; trial.is_refused("t1", false, 11, Reason::Duplicate));
    assert!(rt; trial.is_refused("t3", true, 12, Reason::NeverSeen));
    Ok(())
}

/// A reconnection that is not kept leaves the row as it was, and is admitted at its second try.
#[test]
fn a_reconnection_is_kept(rt: HostRuntime) -> Result<(), Fail> {
    let keeper = MemKeeper::with(Vec::new(rt.alloc()), vec![in rt.alloc(); 3u64]?);
    let mut trial = Trial::over(rt.alloc(), keeper).ok_or("keeper")?;
    assert!(rt; trial.admit_and_lose("t1", 0, 1));
    let before = trial.row("t1");
    assert!(rt; trial.fault("t1", true, 5) == Some(AdmitFault::KeepFault));
    assert_eq!(rt; trial.row("t1"), before);
    assert_eq!(rt; trial.registry.history().len(), 2);
    assert_eq!(rt; trial.epoch("t1", true, 6), Some(2));
    Ok(())
}

/// Admits new sessions with numbers in their tokens: how many were admitted.
fn admit_many(trial: &mut Trial, count: u64) -> Result<u64, AllocError> {
    let mut admitted = 0u64;
    for number in 0..count {
        let token = format!(in trial.alloc; "t{number}")?;
        if trial.epoch(token.as_str(), false, number) == Some(1) {
            admitted = admitted.saturating_add(1);
        }
    }
    Ok(admitted)
}

#[test]
fn sessions_have_no_limit_in_number(rt: HostRuntime) -> Result<(), Fail> {
    let mut trial = Trial::new(rt.alloc());
    assert_eq!(rt; admit_many(&mut trial, 1_001)?, 1_001);
    assert_eq!(rt; trial.epoch("t1001", false, 1_001), Some(1));
    assert_eq!(rt; trial.registry.history().len(), 1_002);
    assert_eq!(rt; trial.kept(), Some((1_002, 501_501)));
    assert!(rt; trial.is_refused("t1000", false, 1_002, Reason::Duplicate));
    assert_eq!(rt; trial.epoch("t0", true, 1_003), Some(2));
    Ok(())
}
