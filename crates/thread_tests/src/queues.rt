//! The queue of jobs: full and empty, what is left, seats that are not back, a sink.
ghost use Rattle.std.specs.Prelude.{◌≡◌};

use crate::jobs::{byte_of, job};
use ra_hub::JobSink;
use ra_jobs::{Gate, JobQueue, JobSeat, JobsFault, OpenGate, Opened, QueueJobs, QueueName};
use std::alloc::Global;
use std::marker::Brand;
use std::sync::Wait;
use std::test::Fail;

/// Whether a job of this byte was put.
fn puts<R: Wait, B: QueueName>(
    rt: &R,
    alloc: Global,
    queue: &JobQueue<B>,
    seat: &mut JobSeat<B>,
    byte: u8,
) -> bool {
    match job(alloc, byte) {
        Some(job) => queue.put(rt, seat, job).is_ok(),
        None => false,
    }
}

/// The byte of the job that is taken, or 0 where none is.
fn takes<R: Wait, B: QueueName>(rt: &R, queue: &JobQueue<B>, seat: &mut JobSeat<B>) -> u8 {
    match queue.take(rt, seat) {
        Some(job) => byte_of(&job),
        None => 0,
    }
}

/// The bytes of the jobs that are left once this seat is back.
fn left<R: Wait, B: QueueName>(
    rt: &R,
    alloc: Global,
    queue: JobQueue<B>,
    seat: JobSeat<B>,
) -> Option<(u8, usize)> {
    let mut seats = Vec::new(alloc);
    if seats.push(seat).is_err() {
        return None;
    }
    match queue.finish(rt, alloc, seats) {
        Ok(rest) => Some((rest.as_slice().first().map_or(0, byte_of), rest.len())),
        Err(_) => None,
    }
}

/// A queue for two jobs, of which a third is not put; one is taken, and one is left.
fn full<B: QueueName, R: Wait>(rt: &R, alloc: Global, opened: Opened) -> Option<bool>
    requires { opened.ring.table.shared.table_id ≡ B.table }
{
    let queue: JobQueue<B> = opened.named();
    let Ok(mut seat) = queue.seat(rt) else {
        return None;
    };
    let empty = takes(rt, &queue, &mut seat) == 0;
    let both = puts(rt, alloc, &queue, &mut seat, 1) && puts(rt, alloc, &queue, &mut seat, 2);
    let third = puts(rt, alloc, &queue, &mut seat, 3);
    let first = takes(rt, &queue, &mut seat);
    let rest = left(rt, alloc, queue, seat);
    Some(empty && both && !third && first == 1 && rest == Some((2, 1)))
}

#[test]
fn a_full_queue_gives_the_job_back(rt: HostRuntime) -> Result<(), Fail> {
    let opened = Opened::new(rt.alloc(), 2)?;
    let well = full::<Brand, _>(&rt, rt.alloc(), opened);
    assert!(rt; well == Some(true));
    Ok(())
}

/// The numbers of seats given back and made, where one seat is not back.
fn kept_back<B: QueueName, R: Wait>(rt: &R, alloc: Global, opened: Opened) -> Option<(u64, u64)>
    requires { opened.ring.table.shared.table_id ≡ B.table }
{
    let queue: JobQueue<B> = opened.named();
    let Ok(seat) = queue.seat(rt) else {
        return None;
    };
    let finished = queue.finish(rt, alloc, Vec::new(alloc));
    drop(seat);
    match finished {
        Err(JobsFault::NotAll { given, made }) => Some((given, made)),
        Err(JobsFault::NoMemory) | Ok(_) => None,
    }
}

#[test]
fn a_seat_that_is_not_back_is_missed(rt: HostRuntime) -> Result<(), Fail> {
    let opened = Opened::new(rt.alloc(), 1)?;
    let counts = kept_back::<Brand, _>(&rt, rt.alloc(), opened);
    assert!(rt; counts == Some((0, 1)));
    Ok(())
}

/// Whether so many jobs go through a sink, and are taken in order.
fn through_a_sink<R: Wait, B: QueueName>(
    rt: &R,
    alloc: Global,
    queue: &JobQueue<B>,
    seat: &mut JobSeat<B>,
    byte: u8,
) -> bool {
    let Some(job) = job(alloc, byte) else {
        return false;
    };
    OpenGate.begun(&job);
    OpenGate.ended(job.key());
    let mut sink = QueueJobs::new(rt, queue, seat);
    if sink.reserve().is_err() {
        return false;
    }
    sink.put(job);
    takes(rt, queue, seat) == byte
}

/// How many of so many jobs went through a queue for one, each by a sink.
fn many<B: QueueName, R: Wait>(rt: &R, alloc: Global, opened: Opened, count: u32) -> u32
    requires { opened.ring.table.shared.table_id ≡ B.table }
{
    let queue: JobQueue<B> = opened.named();
    let Ok(mut seat) = queue.seat(rt) else {
        return 0;
    };
    let mut well = 0;
    for number in 0..count {
        if through_a_sink(rt, alloc, &queue, &mut seat, (number % 200) as u8 + 1) {
            well = number + 1;
        }
    }
    well
}

#[test]
fn many_jobs_go_through_a_sink(rt: HostRuntime) -> Result<(), Fail> {
    let opened = Opened::new(rt.alloc(), 1)?;
    let well = many::<Brand, _>(&rt, rt.alloc(), opened, 1_001);
    assert_eq!(rt; well, 1_001);
    Ok(())
}
