//! What the seats of a queue have put and taken, and how each step keeps the balance.
//! What the seats of a queue have put and taken, and the rule that each step keeps.
ghost use Rattle.std.specs.Prelude.{ℕ};

use crossbeam_queue::protocol::{Join, Lesson, Outcome, Protocol, Split};
use ra_hub::Job;
use std::collections::LinkedList;
use std::marker::Brand;

/// Names one queue, so that its seats are no seats of another.
pub trait QueueName {
    ghost use Rattle.atomic_table.specs.Seated.{TableId};

    ghost table: { TableId };
}

impl QueueName for Brand {
    ghost use Rattle.ra_jobs.specs.Names.{no_table};

    ghost table = { no_table };
}

/// What a pass has put, what those that it took in had put, what all these have taken, and how many parts of the right to know the whole it
/// holds. It is seen by proofs alone: no value of it is made.
pub struct SeatLog {
    pub parts: u64,
    pub put: LinkedList<Job>,
    pub joined: LinkedList<LinkedList<Job>>,
    pub taken: LinkedList<Job>,
}

/// The rule of a queue: what was put was taken or is there, in one order.
pub struct JobsProtocol;

impl Protocol<Job, SeatLog> for JobsProtocol {
    ghost use Rattle.std.specs.Prelude.{[], ◌^◌};
    ghost use Rattle.ra_jobs.specs.Logs.{seat_log, Balanced};

    ghost holds = { Balanced };

    ghost first = { seat_log (2 ^ 62) [] [] [] };
}

/// A seat is cut off, and taken in again.
pub struct Shares;

impl Split<SeatLog> for Shares {
    ghost use Rattle.std.specs.Prelude.{[], ◌-◌};
    ghost use Rattle.ra_jobs.specs.Logs.{seat_log};

    ghost left = { λ v. seat_log (v.parts - 1) v.put v.joined v.taken };

    ghost right = { λ v. seat_log 1 [] [] [] };
}

impl Join<SeatLog> for Shares {
    ghost use Rattle.std.specs.Prelude.{[], ◌+◌, ◌++◌, ◌∷◌};
    ghost use Rattle.ra_jobs.specs.Logs.{seat_log};

    ghost both = { λ v w. seat_log (v.parts + w.parts) v.put (v.joined ++ w.put ∷ w.joined) (v.taken ++ w.taken) };

    ghost spent = { seat_log 0 [] [] [] };
}

/// A job is put.
pub struct Puts;

impl Outcome<Job, SeatLog> for Puts {
    ghost use Rattle.std.specs.Prelude.{[], ◌∷◌, ◌++◌, ◌≡◌};
    ghost use Rattle.ra_jobs.specs.Logs.{seat_log};

    ghost then = { λ v x w. w ≡ seat_log v.parts (v.put ++ x ∷ []) v.joined v.taken };
}

impl Lesson<Job, SeatLog> for Puts {
    ghost fact = { λ v items. Unit {0} };
}

/// A job is taken.
pub struct Takes;

impl Outcome<Job, SeatLog> for Takes {
    ghost use Rattle.std.specs.Prelude.{[], ◌∷◌, ◌++◌, ◌≡◌};
    ghost use Rattle.ra_jobs.specs.Logs.{seat_log};

    ghost then = { λ v x w. w ≡ seat_log v.parts v.put v.joined (v.taken ++ x ∷ []) };
}

/// Learns nothing of what is there.
impl Lesson<Job, SeatLog> for Takes {
    ghost fact = { λ v items. Unit {0} };
}

/// Takes what is left, and learns that nothing is.
pub struct Drains;

impl Outcome<Job, SeatLog> for Drains {
    ghost use Rattle.std.specs.Prelude.{[], ◌∷◌, ◌++◌, ◌≡◌};
    ghost use Rattle.ra_jobs.specs.Logs.{seat_log};

    ghost then = { λ v x w. w ≡ seat_log v.parts v.put v.joined (v.taken ++ x ∷ []) };
}

impl Lesson<Job, SeatLog> for Drains {
    ghost use Rattle.ra_jobs.specs.Logs.{Whole};

    ghost fact = { Whole };
}
