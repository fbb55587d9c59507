//! The queue of jobs between two threads.
ghost use Rattle.std.specs.Prelude.{◌≡◌};

use crate::jobs::{byte_of, job};
use ra_hub::JobSink;
use ra_jobs::{JobQueue, JobSeat, Opened, QueueJobs, QueueName};
use std::alloc::Global;
use std::marker::Brand;
use std::sync::Wait;
use std::test::Fail;
use std::thread;
use std::thread::{Threads, join};

/// Puts so many jobs, whose bytes count from 0 to 199 and again. Answers how many it put.
fn put_all<R: Wait + Copy, B: QueueName>(
    rt: R,
    alloc: Global,
    queue: &JobQueue<B>,
    seat: &mut JobSeat<B>,
    count: u32,
) -> u32 {
    let mut sink = QueueJobs::new(rt, queue, seat);
    let mut put = 0;
    for number in 0..count {
        if let Some(job) = job(alloc, (number % 200) as u8) {
            if sink.reserve().is_ok() {
                sink.put(job);
                put = number + 1;
            }
        }
    }
    put
}

/// Takes so many jobs. Answers how many came with the byte that is due.
fn take_all<R: Wait, B: QueueName>(
    rt: &R,
    queue: &JobQueue<B>,
    seat: &mut JobSeat<B>,
    count: u32,
) -> u32 {
    let mut taken = 0u32;
    let mut well = 0u32;
    for _ in rt.forever() {
        if taken == count {
            return well;
        }
        match queue.take(rt, seat) {
            Some(job) => {
                if u32::from(byte_of(&job)) == taken % 200 {
                    well = well.saturating_add(1);
                }
                taken = taken.saturating_add(1);
            }
            None => thread::yield_now(),
        }
    }
    well
}

/// How many jobs one thread put, and how many of them another took in their order.
fn between<B: QueueName + Send + Sync, R: Threads + Wait + Copy + Send + Sync>(
    rt: &R,
    alloc: Global,
    opened: Opened,
    count: u32,
) -> Option<(u32, u32)>
    requires { opened.ring.table.shared.table_id ≡ B.table }
{
    let queue: JobQueue<B> = opened.named();
    let Ok(mut first) = queue.seat(rt) else {
        return None;
    };
    let Ok(mut second) = queue.seat(rt) else {
        return None;
    };
    let counts = join(
        rt,
        || put_all(*rt, alloc, &queue, &mut first, count),
        || take_all(rt, &queue, &mut second, count),
    );
    Some(counts)
}

#[test]
fn jobs_go_from_one_thread_to_another(rt: HostRuntime) -> Result<(), Fail> {
    let opened = Opened::new(rt.alloc(), 8)?;
    let counts = between::<Brand, _>(&rt, rt.alloc(), opened, 1_001);
    assert!(rt; counts == Some((1_001, 1_001)));
    Ok(())
}
