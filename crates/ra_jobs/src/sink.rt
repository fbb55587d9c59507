//! A seat of a queue as a sink of jobs.
ghost use Rattle.std.specs.Prelude.{◌≡◌, ◌++◌, ◌∷◌, []};
ghost use Rattle.ra_jobs.specs.Seats.{put_by, taken_by};

use crate::job_seat::JobSeat;
use crate::protocol::QueueName;
use crate::queue::JobQueue;
use ra_base::NoMemory;
use ra_hub::{Job, JobSink};
use std::sync::Wait;
use std::thread;

/// A seat as a sink of jobs, which tells what the seat has put. Its `put` tries again while the queue is full, so it may wait.
#[derive(Drop)]
pub struct QueueJobs<'a, R: Wait, B: QueueName> {
    rt: R,
    queue: &'a JobQueue<B>,
    seat: &'a mut JobSeat<B>,
}

impl<'a, R: Wait, B: QueueName> QueueJobs<'a, R, B> {
    /// The sink of this seat, which was made at this queue.
    pub fn new(rt: R, queue: &'a JobQueue<B>, seat: &'a mut JobSeat<B>) -> QueueJobs<'a, R, B> {
        QueueJobs { rt, queue, seat }
    }
}

impl<'a, R: Wait, B: QueueName> JobSink for QueueJobs<'a, R, B> {
    ghost use Rattle.std.specs.Prelude.{Some, map};
    ghost use Rattle.ra_hub.specs.Jobs.{seen};
    ghost use Rattle.ra_jobs.specs.Seats.{put_by};

    ghost told = { λ s. Some (map seen (put_by s.seat.now.pass)) };

    ghost room = { λ s. 1 };

    fn reserve(&mut self) -> Result<(), NoMemory> {
        Ok(())
    }

    fn put(&mut self, job: Job) {
        put_waiting(&self.rt, self.queue, self.seat, job)
    }
}

/// Tries again while the queue is full.
fn put_waiting<R: Wait, B: QueueName>(rt: &R, queue: &JobQueue<B>, seat: &mut JobSeat<B>, job: Job)
    ensures put { put_by seat.new.pass ≡ put_by seat.old.pass ++ job ∷ [] }
    ensures taken { taken_by seat.new.pass ≡ taken_by seat.old.pass }
{
    let mut next = job;
    for _ in rt.forever() {
        match queue.put(rt, seat, next) {
            Ok(()) => return,
            Err(full) => {
                next = full.job;
                thread::yield_now();
            }
        }
    }
    unreachable!()
}
