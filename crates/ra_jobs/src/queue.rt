//! A queue of jobs, with a seat for each thread.
ghost use Rattle.std.specs.Prelude.{◌+◌, ◌^◌, ℕ, map, length, Err, ◌≡◌, ◌≢◌, ◌∷◌, ◌++◌, [], ◌<◌, ◌≤◌, MatchResult, MatchOption, IfOk, IfErr};
ghost use Rattle.crossbeam_queue.specs.Passes.{view, ruled_capacity, IsPassOf};
ghost use Rattle.ra_jobs.specs.Logs.{seat_log};
ghost use Rattle.ra_jobs.specs.Orders.{InOneOrder, WholeOrder};
ghost use Rattle.ra_jobs.specs.Seats.{all_taken, log_of, put_by, taken_by};

use crate::job_seat::JobSeat;
use crate::protocol::{Drains, JobsProtocol, Puts, QueueName, SeatLog, Shares, Takes};
use crossbeam_queue::{Pass, RuledArrayQueue};
use ra_base::NoMemory;
use ra_hub::Job;
use std::alloc::Global;
use std::marker::{Model, PhantomData};
use std::sync::{Mutex, Wait};

/// What a queue keeps its jobs in.
pub type Ring = RuledArrayQueue<Job, SeatLog, JobsProtocol>;

/// What makes seats.
#[derive(Drop)]
struct Maker<B: QueueName> {
    pass: Pass<Job, SeatLog>,
    made: u64,
    of: PhantomData<B>,
}

impl<B: QueueName> Model for Maker<B> {
    ghost use Rattle.std.specs.Prelude.{◌≡◌, ℕ, ◌+◌, ◌<◌, ◌^◌, []};
    ghost use Rattle.crossbeam_queue.specs.Passes.{view as known};
    ghost use Rattle.ra_jobs.specs.Logs.{seat_log};

    ghost Value = { ℕ };

    ghost view = { λ m. m.made };

    ghost invariant = { λ m. (m.pass.table_id ≡ B.table) × (m.pass.me.1 ≡ []) × (known m.pass ≡ seat_log (known m.pass).parts [] [] []) × ((known m.pass).parts + m.made ≡ 2 ^ 62) × (m.made < 2 ^ 62) };
}

/// A queue of jobs for threads, of bounded length.
#[derive(Drop)]
pub struct JobQueue<B: QueueName> {
    pub ring: Ring,
    maker: Mutex<Maker<B>>,
    ghost named: { ring.table.shared.table_id ≡ B.table },
}

/// The queue was full, so the job is given back.
#[derive(Drop)]
pub struct Full {
    pub job: Job,
}

impl<B: QueueName> JobQueue<B> {
    /// Puts a job behind all that wait, or gives it back where the queue is full.
    pub fn put<R: Wait>(&self, rt: &R, seat: &mut JobSeat<B>, job: Job) -> Result<(), Full>
        ensures put { MatchResult result (λ _. put_by seat.new.pass ≡ put_by seat.old.pass ++ job ∷ []) (λ full. put_by seat.new.pass ≡ put_by seat.old.pass) }
        ensures taken { taken_by seat.new.pass ≡ taken_by seat.old.pass }
        ensures full { IfErr result (λ full. full.job ≡ job) }
    {
        match self.ring.push_as::<Puts, R>(rt, &mut seat.pass, job) {
            Ok(()) => Ok(()),
            Err(job) => Err(Full { job }),
        }
    }

    /// Takes the job that waits longest, if one waits.
    pub fn take<R: Wait>(&self, rt: &R, seat: &mut JobSeat<B>) -> Option<Job>
        ensures put { put_by seat.new.pass ≡ put_by seat.old.pass }
        ensures taken { MatchOption result (taken_by seat.new.pass ≡ taken_by seat.old.pass) (λ job. taken_by seat.new.pass ≡ taken_by seat.old.pass ++ job ∷ []) }
    {
        self.ring.pop_as::<Takes, R>(rt, &mut seat.pass)
    }

    /// A seat for one thread, with which nothing was put or taken. There are 2^62 - 1 of them; one more counts as out of memory.
    pub fn seat<R: Wait>(&self, rt: &R) -> Result<JobSeat<B>, NoMemory>
        ensures put { IfOk result (λ s. put_by s.pass ≡ []) }
        ensures taken { IfOk result (λ s. taken_by s.pass ≡ []) }
    {
        let mut maker = self.maker.lock(rt);
        maker.seat(&self.ring)
    }

    /// Hands out the jobs that were not taken, once every seat is given back. All that the seats have put is what they have taken and
    /// what is handed out, each job as often, and there is one order of it in which the jobs of each seat stand as it put them. It is
    /// refused with `NotAll` where a seat is not given back.
    pub fn finish<R: Wait>(
        self,
        rt: &R,
        alloc: Global,
        seats: Vec<JobSeat<B>>,
    ) -> Result<Vec<Job>, JobsFault>
        ensures ok { IfOk result (λ rest. InOneOrder (map (λ s. put_by s.pass) seats.items) (all_taken (map (λ s. log_of s.pass) seats.items) ++ rest.items)) }
        ensures not_all { (given made : ℕ) → result ≡ Err (JobsFault.NotAll given made) → (given ≡ length seats.items) × (given ≢ made) }
    {
        let JobQueue { ring, maker } = self;
        let Maker { pass, made, of: _ } = maker.into_inner();
        let given = seats.len() as u64;
        if given != made {
            return Err(JobsFault::NotAll { given, made });
        }
        let mut pass = gather::<B>(&ring, pass, seats);
        drain(rt, alloc, &ring, &mut pass)
    }
}

/// Why a queue could not be finished.
#[derive(Drop)]
pub enum JobsFault {
    /// So many seats were given back, of so many that were made.
    NotAll { given: u64, made: u64 },
    NoMemory,
}

impl<B: QueueName> Maker<B> {
    fn seat(&mut self, ring: &Ring) -> Result<JobSeat<B>, NoMemory>
        requires { ring.now.table.shared.table_id ≡ B.table }
        ensures { IfOk result (λ s. view s.pass ≡ seat_log 1 [] [] []) }
    {
        if self.made >= MOST_SEATS {
            return Err(NoMemory);
        }
        let pass = ring.another::<Shares>(&mut self.pass);
        self.made += 1;
        Ok(JobSeat {
            pass,
            of: PhantomData,
        })
    }
}

/// How many seats a queue has.
const MOST_SEATS: u64 = (1 << 62) - 1;

/// Takes in what the seats know.
fn gather<B: QueueName>(
    ring: &Ring,
    mut pass: Pass<Job, SeatLog>,
    seats: Vec<JobSeat<B>>,
) -> Pass<Job, SeatLog>
    requires ring { ring.now.table.shared.table_id ≡ B.table }
    requires pass { (pass.table_id ≡ B.table) × (pass.me.1 ≡ []) }
    requires some { 0 < (view pass).parts }
    ensures seated { (result.table_id ≡ B.table) × (result.me.1 ≡ []) }
    ensures parts { (view result).parts ≡ (view pass).parts + length seats.items }
    ensures put { ((view result).put ≡ (view pass).put) × ((view result).joined ≡ (view pass).joined ++ map (λ s. (log_of s.pass).put) seats.items) }
    ensures taken { (view result).taken ≡ (view pass).taken ++ all_taken (map (λ s. log_of s.pass) seats.items) }
{
    for seat in seats {
        let JobSeat { pass: other, of: _ } = seat;
        ring.absorb::<Shares>(&mut pass, other);
    }
    pass
}

/// Takes what is left.
fn drain<R: Wait>(
    rt: &R,
    alloc: Global,
    ring: &Ring,
    pass: &mut Pass<Job, SeatLog>,
) -> Result<Vec<Job>, JobsFault>
    requires pass { IsPassOf ring.now pass.old }
    requires whole { (view pass.old).parts ≡ 2 ^ 62 }
    ensures ok { IfOk result (λ rest. WholeOrder (view pass.old) ((view pass.old).taken ++ rest.items)) }
    ensures err { IfErr result (λ e. e ≡ JobsFault.NoMemory) }
{
    let mut rest = Vec::new(alloc);
    for _ in rt.forever() {
        if rest.reserve(1).is_err() {
            return Err(JobsFault::NoMemory);
        }
        match ring.pop_as::<Drains, R>(rt, pass) {
            Some(job) => rest.push_reserved(job),
            None => break,
        }
    }
    Ok(rest)
}

/// A queue that has no name yet.
pub struct Opened {
    pub ring: Ring,
    pass: Pass<Job, SeatLog>,
    ghost seated: { pass.table_id ≡ ring.table.shared.table_id },
    ghost no_slot: { pass.me.1 ≡ [] },
    ghost fresh: { view pass ≡ seat_log (2 ^ 62) [] [] [] },
}

impl Opened {
    /// An empty queue for so many jobs, of 1 at least. It is refused for want of memory alone.
    pub fn new(alloc: Global, capacity: usize) -> Result<Opened, NoMemory>
        requires { 0 < capacity }
        ensures { IfOk result (λ q. ruled_capacity q.ring ≡ capacity) }
    {
        let (ring, pass) = Ring::ruled(alloc, capacity)?;
        Ok(Opened { ring, pass })
    }

    /// The queue under a name.
    pub fn named<B: QueueName>(self) -> JobQueue<B>
        requires { self.ring.table.shared.table_id ≡ B.table }
        ensures { ruled_capacity result.ring ≡ ruled_capacity self.ring }
    {
        let Opened { ring, pass } = self;
        JobQueue {
            ring,
            maker: Mutex::new(Maker {
                pass,
                made: 0,
                of: PhantomData,
            }),
        }
    }
}
