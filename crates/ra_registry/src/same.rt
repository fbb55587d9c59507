//! Whether two entries of a history are the same.
ghost use Rattle.std.specs.Prelude.{◌≡◌, ◌≢◌, MatchBool};
ghost use Rattle.ra_registry.specs.Rows as rows;

use crate::past::{Did, Past};
use ra_base::{Cause, Key, Kind, Reason};
use std::cmp::Ordering;

/// Whether two causes are the same.
fn is_same_cause(a: Cause, b: Cause) -> bool
    ensures { MatchBool result (a ≡ b) (a ≢ b) }
{
    a == b
}

/// Whether two reasons are the same.
fn is_same_reason(a: Reason, b: Reason) -> bool
    ensures { MatchBool result (a ≡ b) (a ≢ b) }
{
    a == b
}

/// Whether two kinds are the same, or both none.
fn is_same_kind(a: Option<Kind>, b: Option<Kind>) -> bool
    ensures { MatchBool result (a ≡ b) (a ≢ b) }
{
    match (a, b) {
        (None, None) => true,
        (Some(Kind::Management), Some(Kind::Management)) => true,
        (Some(Kind::ExtensionHost), Some(Kind::ExtensionHost)) => true,
        (Some(Kind::Tunnel), Some(Kind::Tunnel)) => true,
        _ => false,
    }
}

/// Whether the same happened.
fn is_same_did(a: Did, b: Did) -> bool
    ensures { MatchBool result (a ≡ b) (a ≢ b) }
{
    match (a, b) {
        (
            Did::Admitted {
                epoch: e,
                reconnection: r,
            },
            Did::Admitted {
                epoch,
                reconnection,
            },
        ) => e == epoch && r == reconnection,
        (
            Did::Refused {
                kind: k,
                reconnection: r,
                reason: w,
            },
            Did::Refused {
                kind,
                reconnection,
                reason,
            },
        ) => is_same_kind(k, kind) && r == reconnection && is_same_reason(w, reason),
        (Did::Lost { epoch: e }, Did::Lost { epoch }) => e == epoch,
        (Did::Closed { epoch: e, cause: c }, Did::Closed { epoch, cause }) => {
            e == epoch && is_same_cause(c, cause)
        }
        (Did::Expired, Did::Expired) => true,
        (Did::Missed, Did::Missed) => true,
        _ => false,
    }
}

/// Whether two keys compare as equal.
fn compares_equal(a: &Key, b: &Key) -> bool
    ensures { result ≡ rows.same_key a.now b.now }
{
    a.cmp(b) == Ordering::Equal
}

/// Whether two keys are the same.
#[tactic(auto, using(crate::proofs::SameKeys::key_decides))]
fn is_same_key(a: &Key, b: &Key) -> bool
    ensures { MatchBool result (a.now ≡ b.now) (a.now ≢ b.now) }
{
    compares_equal(a, b)
}

impl Past {
    /// The same entry again. It takes no memory.
    pub fn same(&self) -> Past
        ensures { result ≡ self.now }
    {
        Past {
            at: self.at,
            key: self.key.same(),
            did: self.did,
        }
    }

    /// Whether two entries are the same.
    pub fn is_same(&self, other: &Past) -> bool
        ensures { MatchBool result (self.now ≡ other.now) (self.now ≢ other.now) }
    {
        if self.at != other.at {
            return false;
        }
        if !is_same_did(self.did, other.did) {
            return false;
        }
        is_same_key(&self.key, &other.key)
    }
}
