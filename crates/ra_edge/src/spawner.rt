//! Tasks that run beside their caller.
ghost use Rattle.std.specs.Prelude.{◌≡◌, ℕ, true, false, [], IfErr, IsErr};
ghost use Rattle.ra_ports.specs.Causes.{HasCause};
ghost use Rattle.ra_edge.specs.Starts.{StartsAsListed};

use std::alloc::Global;
use std::marker::Model;
use std::sync::{Arc, Mutex, Wait};
use std::thread;
use std::thread::Threads;

/// A task.
pub trait Run: Send + Drop {
    /// Runs it to its end.
    fn run(self);
}

/// What threads are made with.
#[derive(Drop)]
struct Maker<R> {
    rt: R,
    alloc: Global,
}

/// What starts tasks: each in a thread of its own, or each at once on the caller, where listed starts fail.
#[derive(Drop)]
pub struct Spawner<R> {
    maker: Option<Maker<R>>,
    failing: Vec<u64>,
    starts: u64,
    faults: u64,
}

impl<R> Model for Spawner<R> {
    ghost use Rattle.std.specs.Prelude.{is_none};
    ghost use Rattle.ra_edge.specs.Starts.{SpawnScript};

    ghost Value = { SpawnScript };

    ghost view = { λ s. record {
      here = is_none s.maker;
      failing = s.failing.items;
      starts = s.starts;
      faults = s.faults;
    } };
}

impl<R> Spawner<R> {
    /// Tasks run in threads, each in its own. Nobody waits for such a thread.
    pub fn in_threads(rt: R, alloc: Global) -> Spawner<R>
        ensures { result ≡ record { here = false; failing = []; starts = 0; faults = 0 } }
    {
        Spawner {
            maker: Some(Maker { rt, alloc }),
            failing: Vec::new(alloc),
            starts: 0,
            faults: 0,
        }
    }

    /// Tasks run at once on the caller. The starts with the numbers in `failing`, from 1, fail.
    pub fn here(failing: Vec<u64>) -> Spawner<R>
        ensures { result ≡ record { here = true; failing = failing.items; starts = 0; faults = 0 } }
    {
        Spawner {
            maker: None,
            failing,
            starts: 0,
            faults: 0,
        }
    }

    /// How often a task was not started.
    pub fn faults(&self) -> u64
        ensures { result ≡ self.now.faults }
    {
        self.faults
    }
}

impl<R: Threads + Wait + Copy + Send + 'static> Spawner<R> {
    /// Starts a task. An error hands it back, where no thread could be made, or the start is listed.
    pub fn start<T: Run + 'static>(&mut self, task: T) -> Result<(), T>
        ensures cause { HasCause self.old.faults self.new.faults result }
        ensures listed { StartsAsListed self.old self.new task result }
    {
        self.starts = self.starts.saturating_add(1);
        let left = if self.failing.contains(&self.starts) {
            Some(task)
        } else {
            start_by(&self.maker, task)
        };
        match left {
            None => Ok(()),
            Some(task) => {
                self.faults = self.faults.saturating_add(1);
                Err(task)
            }
        }
    }
}

/// Starts a task in a thread, or runs it where there is nothing to make one with. It hands the task back where no thread could be
/// made.
fn start_by<R: Threads + Wait + Copy + Send + 'static, T: Run + 'static>(
    maker: &Option<Maker<R>>,
    task: T,
) -> Option<T>
    ensures { maker.now ≡ None → result ≡ None }
{
    match maker {
        Some(maker) => start_in_thread(maker.rt, maker.alloc, task),
        None => {
            task.run();
            None
        }
    }
}

/// Hands the task back where no thread could be made.
fn start_in_thread<R: Threads + Wait + Copy + Send + 'static, T: Run + 'static>(
    rt: R,
    alloc: Global,
    task: T,
) -> Option<T> {
    let place = match Arc::new(alloc, Mutex::new(Some(task))) {
        Ok(place) => place,
        Err(refused) => return refused.value.into_inner(),
    };
    let Ok(theirs) = Arc::try_clone(&place) else {
        return place.lock(&rt).take();
    };
    match thread::spawn(&rt, move || run_placed(&rt, &theirs)) {
        Ok(_thread) => None,
        Err(_refused) => place.lock(&rt).take(),
    }
}

/// Runs the task that lies in this place, if there is one.
fn run_placed<T: Run>(rt: &impl Wait, place: &Mutex<Option<T>>) {
    let task = place.lock(rt).take();
    if let Some(task) = task {
        task.run();
    }
}
