//! Jobs: what the sessions' peers ask an application for, where it is put, and a list of it in memory.
ghost use Rattle.std.specs.Prelude.{◌≡◌, ◌<◌, ◌+◌, ◌-◌, ◌++◌, ℕ, List, [], Option, Some, map, drop, take, length, OnOk};

use ra_base::{Key, NoMemory};
use ra_session::Work;
use std::alloc::Global;
use std::marker::Model;

/// What the peer of one session asks for. It fits: its argument can be written.
#[derive(Drop)]
pub struct Job {
    key: Key,
    work: Work,
}

impl Model for Job {
    ghost use Rattle.std.specs.Coded.{codes};
    ghost use Rattle.ra_values.specs.contracts.value.Value as v;
    ghost use Rattle.ra_hub.specs.Jobs.{JobState};
    ghost use Rattle.ra_session.specs.View.{WorkFits};

    ghost Value = { JobState };

    ghost coded = { Prim.hlevel (codes, v.the_row.coded) };

    ghost view = { λ j. record { key = j.key; work = j.work } };

    ghost invariant = { λ j. WorkFits j.work };
}

impl Job {
    ghost use Rattle.ra_session.specs.View.{WorkFits};

    /// What the session of this key asks for. It needs an argument that fits.
    pub fn new(key: Key, work: Work) -> Job
        requires fits { WorkFits work }
        ensures { result ≡ record { key = key; work = work } }
    {
        Job { key, work }
    }

    /// Whose session asks.
    pub fn key(&self) -> &Key
        ensures { result.now ≡ self.now.key }
    {
        &self.key
    }

    /// What it asks for.
    pub fn work(&self) -> &Work
        ensures work { result.now ≡ self.now.work }
        ensures fits { WorkFits self.now.work }
    {
        &self.work
    }

    /// Its parts.
    pub fn into_parts(self) -> (Key, Work)
        ensures parts { result ≡ (self.key, self.work) }
        ensures fits { WorkFits self.work }
    {
        (self.key, self.work)
    }
}

/// Where jobs are put, in order.
pub trait JobSink {
    ghost use Rattle.ra_hub.specs.Jobs.{SeenJob, with_job};

    // The jobs that wait, the oldest first, where the sink tells.
    ghost told: { Self → Option (List SeenJob) };

    // For how many jobs there is room.
    ghost room: { Self → ℕ };

    /// Makes room for one job.
    fn reserve(&mut self) -> Result<(), NoMemory>
        ensures room { OnOk result (0 < room self.new) }
        ensures same { told self.new ≡ told self.old };

    /// Puts a job behind the others. It takes no memory.
    fn put(&mut self, job: Job)
        requires { 0 < room self.old }
        ensures { told self.new ≡ with_job (told self.old) job };
}

/// Jobs in memory, the oldest first.
#[derive(Drop)]
pub struct JobList {
    pub(crate) jobs: Vec<Job>,
}

impl JobList {
    ghost use Rattle.ra_hub.specs.JobLists.{jobs_in};
    ghost use Rattle.std.specs.List.{slice_get};

    /// No jobs. It takes no memory.
    pub fn new(alloc: Global) -> JobList
        ensures { jobs_in result ≡ [] }
    {
        JobList {
            jobs: Vec::new(alloc),
        }
    }

    /// The jobs that wait.
    pub fn jobs(&self) -> &[Job]
        ensures { result.now ≡ jobs_in self.now }
    {
        self.jobs.as_slice()
    }

    /// Takes the job at this place, from 0, out; the order of the others stays. None where there is no such place. It takes no
    /// memory.
    pub fn remove(&mut self, at: usize) -> Option<Job>
        ensures job { result ≡ slice_get (jobs_in self.old) at }
        ensures left { jobs_in self.new ≡ take at (jobs_in self.old) ++ drop (at + 1) (jobs_in self.old) }
    {
        if at < self.jobs.len() {
            Some(self.jobs.remove(at))
        } else {
            None
        }
    }
}

impl JobSink for JobList {
    ghost use Rattle.std.specs.Vec.{vec_capacity};
    ghost use Rattle.ra_hub.specs.Jobs.{seen, with_job};
    ghost use Rattle.ra_hub.specs.JobLists.{jobs_in};

    ghost told = { λ l. Some (map seen (jobs_in l)) };

    ghost room = { λ l. vec_capacity l.jobs - length (jobs_in l) };

    fn reserve(&mut self) -> Result<(), NoMemory> {
        self.jobs.reserve(1)?;
        Ok(())
    }

    fn put(&mut self, job: Job) {
        self.jobs.push(job).unwrap();
    }
}
