//! Compares answers that were kept with the last states of the sessions.
ghost use Rattle.std.specs.Prelude.{◌≡◌, IfErr, OnOk, map};
ghost use Rattle.std.specs.BTreeMap.{get};
ghost use Rattle.ra_base.specs.Keys.{key_cmp};
ghost use Rattle.ra_shared.specs.Ends.{IsUntrueOf, IsUntrue};
ghost use Rattle.ra_shared.specs.LastStates as spec;
ghost use Rattle.ra_shared.specs.LastStates.{IsBorneOut, AreBorneOut};

use crate::answers::{KeptAnswer, LastState, is_borne_out};
use crate::fault::FinishFault;
use crate::session::SharedSession;
use ra_base::{Cause, Key};
use ra_keep::Record;
use ra_proto::Marks;
use std::alloc::{AllocError, Global};
use std::collections::BTreeMap;
use std::sync::Wait;

/// No id was given, handed up or acknowledged.
const NO_MARKS: Marks = Marks {
    sent: 0,
    received: 0,
    acknowledged: 0,
};

/// The last states of the sessions. A start record counts as a session that was stopped.
pub(crate) fn last_states<R: Wait>(
    rt: &R,
    alloc: Global,
    start: &[Record],
    sessions: &BTreeMap<Key, SharedSession>,
) -> Result<BTreeMap<Key, LastState>, AllocError> {
    let mut lasts = BTreeMap::new(alloc);
    for (key, session) in sessions {
        lasts.insert(key.same(), session.state(rt))?;
    }
    for record in start {
        let last = LastState {
            epoch: record.epoch,
            marks: NO_MARKS,
            cause: Some(Cause::Stopped),
        };
        lasts.insert(record.key.same(), last)?;
    }
    Ok(lasts)
}

/// The last state of a key. Where there is no session it has no link, no id and no cause.
fn last_of(lasts: &BTreeMap<Key, LastState>, key: &Key) -> LastState
    ensures { result ≡ spec.last_of lasts.now key.now }
{
    match lasts.get(key) {
        Some(last) => *last,
        None => LastState {
            epoch: 0,
            marks: NO_MARKS,
            cause: None,
        },
    }
}

/// Compares the answers that one handle kept.
fn check_book(
    lasts: &BTreeMap<Key, LastState>,
    book: &[KeptAnswer],
    number: u64,
) -> Result<(), FinishFault>
    ensures borne { OnOk result (IsBorneOut lasts.now book.now) }
    ensures fault { IfErr result (IsUntrueOf number book.now) }
{
    for answer in book {
        let last = last_of(lasts, &answer.key);
        if !is_borne_out(last, answer.told) {
            return Err(FinishFault::Untrue {
                handle: number,
                key: answer.key.same(),
                told: answer.told,
                last,
            });
        }
    }
    Ok(())
}

/// Compares the answers that all handles kept.
pub(crate) fn check_books(
    lasts: &BTreeMap<Key, LastState>,
    books: &[Vec<KeptAnswer>],
) -> Result<(), FinishFault>
    ensures borne { OnOk result (AreBorneOut lasts.now (map (λ b. b.items) books.now)) }
    ensures fault { IfErr result (IsUntrue (map (λ b. b.items) books.now)) }
{
    for (number, book) in books.iter().enumerate() {
        match check_book(lasts, book.as_slice(), number as u64) {
            Ok(()) => {}
            Err(fault) => return Err(fault),
        }
    }
    Ok(())
}
