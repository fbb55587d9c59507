//! A thread's seat at a queue.
ghost use Rattle.std.specs.Prelude.{◌≡◌, []};
ghost use Rattle.crossbeam_queue.specs.Passes.{view};

use crate::protocol::{QueueName, SeatLog};
use crossbeam_queue::Pass;
use ra_hub::Job;
use std::marker::PhantomData;

/// One thread's right to put and take at the queue of that name. A contract sees what it has put and taken.
#[derive(Drop)]
pub struct JobSeat<B: QueueName> {
    pub pass: Pass<Job, SeatLog>,
    pub(crate) of: PhantomData<B>,
    pub ghost seated: { pass.table_id ≡ B.table },
    pub ghost no_slot: { pass.me.1 ≡ [] },
    pub ghost one_part: { (view pass).parts ≡ 1 },
    pub ghost alone: { (view pass).joined ≡ [] },
}
