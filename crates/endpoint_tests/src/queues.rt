//! Tests of ra_queue: ids and the messages that wait for an ack.

use ra_base::Message;
use ra_queue::{Entry, Ids, Unacked};
use std::alloc::Global;
use std::test::Fail;

fn entry(alloc: Global, id: u64) -> Result<Entry, Fail> {
    Ok(Entry {
        id,
        ack: 0,
        body: Message::copy(alloc, b"body")?,
        written: None,
    })
}

/// Ids go on from 0, and end with the greatest number of 64 bits.
#[test]
fn ids(rt: HostRuntime) {
    let mut ids = Ids::after(0);
    assert_eq!(rt; ids.take(), Some(1));
    assert_eq!(rt; ids.take(), Some(2));
    let mut ids = Ids::after(u64::MAX - 1);
    assert_eq!(rt; ids.take(), Some(u64::MAX));
    assert_eq!(rt; ids.take(), None);
    assert_eq!(rt; ids.take(), None);
}

/// A queue in which ids 1 to 3 wait.
fn three_waiting(alloc: Global) -> Result<Unacked, Fail> {
    let mut queue = Unacked::new(alloc);
    queue.reserve(3)?;
    for id in 1..4 {
        queue.reserve(1)?;
        queue.push(entry(alloc, id)?);
    }
    Ok(queue)
}

/// When the oldest entry was written, before and after all are marked as written at 7.
fn marked(queue: &mut Unacked) -> (Option<u64>, Option<u64>) {
    let before = queue.oldest_written();
    queue.mark_written(7);
    (before, queue.oldest_written())
}

fn id_at(queue: &Unacked, at: usize) -> Option<u64> {
    let entry = queue.entry(at)?;
    Some(entry.id)
}

fn len_of((first, second): (&[Entry], &[Entry])) -> usize {
    first.len().saturating_add(second.len())
}

/// How many entries a copy has, and how many behind the first one.
fn lens_of_copy(alloc: Global, queue: &Unacked) -> Result<(usize, usize), Fail> {
    let copy = queue.copy(alloc)?;
    if copy.is_empty() {
        return Err("empty".into());
    }
    let all = len_of(copy.as_slices());
    Ok((all, len_of(copy.slices_from(1))))
}

/// An ack of 2 leaves the third of three entries.
#[test]
fn front(rt: HostRuntime) -> Result<(), Fail> {
    assert!(rt; Unacked::new(rt.alloc()).is_empty());
    let mut queue = three_waiting(rt.alloc())?;
    assert_eq!(rt; marked(&mut queue), (None, Some(7)));
    assert_eq!(rt; queue.acknowledge(2), 2);
    assert_eq!(rt; queue.acknowledge(2), 0);
    assert_eq!(rt; queue.len(), 1);
    assert_eq!(rt; (id_at(&queue, 0), id_at(&queue, 1)), (Some(3), None));
    assert_eq!(rt; lens_of_copy(rt.alloc(), &queue)?, (1, 0));
    queue.truncate(0);
    assert!(rt; queue.is_empty());
    Ok(())
}
