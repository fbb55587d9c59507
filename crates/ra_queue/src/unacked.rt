//! The queue of what is not acknowledged.
ghost use Rattle.std.specs.Prelude.{◌≡◌, ◌+◌, ◌-◌, ◌<◌, ◌≤◌, ◌∷◌, ◌++◌, ◌↔◌, [], length, take, drop, map, IfOk, OnOk, OnErr, IsTrue};
ghost use Rattle.std.specs.Slice.{IsItemAt};
ghost use Rattle.ra_model.specs.Endpoints.{first_written};
ghost use Rattle.ra_model.specs.EndpointStates.{behind, entry_written};
ghost use Rattle.ra_queue.specs.Queues.{leads};

use ra_base::{Message, NoMemory};
use ra_model::Entry;
use std::alloc::Global;
use std::collections::VecDeque;
use std::marker::Model;

/// Messages that the peer has not acknowledged, the oldest first. It is seen as these, and how many more it has room for.
#[derive(Drop)]
pub struct Unacked {
    entries: VecDeque<Entry>,
}

impl Model for Unacked {
    ghost use Rattle.std.specs.Prelude.{◌-◌};
    ghost use Rattle.std.specs.VecDeque.{deque_len, deque_capacity};
    ghost use Rattle.ra_queue.specs.Queues.{Queue};

    ghost Value = { Queue };

    ghost view = { λ u. record { entries = u.entries.items; spare = deque_capacity u.entries - deque_len u.entries } };
}

/// The front has an id up to this one.
fn leads(entries: &VecDeque<Entry>, upto: u64) -> bool
    ensures { result ≡ leads upto entries.now.items }
{
    match entries.front() {
        Some(entry) => entry.id <= upto,
        None => false,
    }
}

/// Marks each message as written.
fn mark_each(entries: &mut [Entry], now: u64)
    ensures { entries.new ≡ map (entry_written now) entries.old }
{
    for entry in entries.iter_mut() {
        entry.written = Some(now);
    }
}

/// Adds copies of messages, or a front of them where memory is wanting.
fn append_copies(alloc: Global, to: &mut VecDeque<Entry>, entries: &[Entry]) -> Result<(), NoMemory>
    ensures { OnOk result (to.new.items ≡ to.old.items ++ entries.now) }
{
    for entry in entries {
        let body = Message::copy(alloc, entry.body.as_slice())?;
        to.push_back(Entry {
            id: entry.id,
            ack: entry.ack,
            body,
            written: entry.written,
        })?;
    }
    Ok(())
}

impl Unacked {
    /// No messages. It takes no memory.
    pub fn new(alloc: Global) -> Unacked
        ensures { result.entries ≡ [] }
    {
        Unacked {
            entries: VecDeque::new(alloc),
        }
    }

    /// Makes room for n more messages at least.
    pub fn reserve(&mut self, n: usize) -> Result<(), NoMemory>
        ensures entries { self.new.entries ≡ self.old.entries }
        ensures ok { OnOk result (n ≤ self.new.spare) }
        ensures kept { self.old.spare ≤ self.new.spare }
    {
        self.entries.reserve(n)?;
        Ok(())
    }

    /// Puts a message behind the others. There must be room for it: `reserve` makes it.
    pub fn push(&mut self, entry: Entry)
        requires { 0 < self.old.spare }
        ensures entries { self.new.entries ≡ self.old.entries ++ entry ∷ [] }
        ensures spare { self.new.spare + 1 ≡ self.old.spare }
    {
        self.entries.push_back(entry).unwrap();
    }

    /// Keeps the first `len` messages alone. It takes no memory.
    pub fn truncate(&mut self, len: usize)
        ensures entries { self.new.entries ≡ take len self.old.entries }
        ensures spare { self.old.spare ≤ self.new.spare }
    {
        self.entries.truncate(len);
    }

    /// Removes the messages at the front whose ids are at most `upto`, and answers how many these are.
    pub fn acknowledge(&mut self, upto: u64) -> usize
        ensures rest { self.new.entries ≡ behind upto self.old.entries }
        ensures count { result + length self.new.entries ≡ length self.old.entries }
        ensures spare { self.old.spare ≤ self.new.spare }
    {
        let mut count = 0;
        while leads(&self.entries, upto) {
            self.entries.pop_front();
            count += 1;
        }
        count
    }

    /// All messages were written at this moment.
    pub fn mark_written(&mut self, now: u64)
        ensures { self.new.entries ≡ map (entry_written now) self.old.entries }
    {
        mark_each(self.entries.make_contiguous(), now);
    }

    pub fn len(&self) -> usize
        ensures { result ≡ length self.now.entries }
    {
        self.entries.len()
    }

    pub fn is_empty(&self) -> bool
        ensures { IsTrue result ↔ (self.now.entries ≡ []) }
    {
        self.entries.is_empty()
    }

    /// The message at this place, from the front.
    pub fn entry(&self, at: usize) -> Option<&Entry>
        ensures { IsItemAt self.now.entries at result }
    {
        self.entries.get(at)
    }

    /// When the message at the front was last written.
    pub fn oldest_written(&self) -> Option<u64>
        ensures { result ≡ first_written self.now.entries }
    {
        match self.entries.front() {
            Some(entry) => entry.written,
            None => None,
        }
    }

    /// All messages, in two parts.
    pub fn as_slices(&self) -> (&[Entry], &[Entry])
        ensures { result.0.now ++ result.1.now ≡ self.now.entries }
    {
        self.entries.as_slices()
    }

    /// The messages from this place on, in two parts.
    pub fn slices_from(&self, at: usize) -> (&[Entry], &[Entry])
        requires { at ≤ length self.now.entries }
        ensures { result.0.now ++ result.1.now ≡ drop at self.now.entries }
    {
        let (first, second) = self.entries.as_slices();
        let skipped = at.min(first.len());
        (&first[skipped..], &second[at - skipped..])
    }

    /// A queue with the same messages.
    pub fn copy(&self, alloc: Global) -> Result<Unacked, NoMemory>
        ensures { IfOk result (λ queue. queue.entries ≡ self.now.entries) }
    {
        let mut entries = VecDeque::with_capacity(alloc, self.entries.len())?;
        let (first, second) = self.entries.as_slices();
        append_copies(alloc, &mut entries, first)?;
        append_copies(alloc, &mut entries, second)?;
        Ok(Unacked { entries })
    }
}
