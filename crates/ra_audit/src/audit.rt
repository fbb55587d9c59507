//! The audit of what a keeper kept.
ghost use Rattle.std.specs.Prelude.{◌≡◌, ◌≢◌, ◌⊎◌, ◌++◌, ◌↔◌, [], IfOk, OnOk, OnErr, IsTrue, Some, List, ℕ};
ghost use Rattle.ra_keep.specs.declared.record.Record.{Record as Kept};
ghost use Rattle.ra_keep.specs.Causes as kept;
ghost use Rattle.ra_ports.specs.Causes.{Rose, AppendsFront};
ghost use Rattle.std.specs.Io.KnownBytes.{Appends};
ghost use Rattle.ra_audit.specs.Audits.{audit, AreDue, refused_line};

use crate::counts::count;
use crate::lines::{push_end, push_record, push_wrong};
use ra_base::NoMemory;
use ra_keep::{KeepFault, Keeper, Record};
use ra_ports::{Sink, write_all};
use std::alloc::Global;
use std::collections::BTreeMap;

/// Adds the audit of the records, and answers whether each epoch is due.
fn push_audit(alloc: Global, text: &mut Vec<u8>, records: &[Record]) -> Result<bool, NoMemory>
    ensures text { OnOk result (text.new.items ≡ text.old.items ++ audit records.now) }
    ensures due { IfOk result (λ due. IsTrue due ↔ AreDue records.now) }
{
    let mut counts = BTreeMap::new(alloc);
    let mut n = 0u64;
    for kept in records {
        n += 1;
        let due = count(&mut counts, &kept.key)?;
        if kept.epoch != due {
            push_wrong(text, n, kept.epoch, due)?;
            return Ok(false);
        }
        push_record(text, n, kept)?;
    }
    push_end(text, n)?;
    Ok(true)
}

/// Writes a text, and answers 4 where the sink failed, and this status elsewhere.
fn write<K: Sink>(sink: &mut K, text: &[u8], status: u8) -> u8
    requires { status ≢ 4 }
    ensures done { result ≡ status → Appends (K.taken sink.old) (K.taken sink.new) text.now }
    ensures stopped { result ≡ 4 → AppendsFront (K.taken sink.old) (K.taken sink.new) text.now }
    ensures cause { result ≡ 4 → Rose (K.faults sink.old) (K.faults sink.new) }
    ensures either { (result ≡ status) ⊎ (result ≡ 4) }
{
    match write_all(sink, text) {
        Ok(()) => status,
        Err(_) => 4,
    }
}

/// Writes the audit of the records.
fn print<K: Sink>(alloc: Global, sink: &mut K, records: &[Record]) -> u8
    ensures whole { (result ≡ 0) ⊎ (result ≡ 5) → Appends (K.taken sink.old) (K.taken sink.new) (audit records.now) }
    ensures due { result ≡ 0 → AreDue records.now }
    ensures wrong { result ≡ 5 → ¬ AreDue records.now }
    ensures stopped { result ≡ 4 → Rose (K.faults sink.old) (K.faults sink.new) }
    ensures front { result ≡ 4 → AppendsFront (K.taken sink.old) (K.taken sink.new) (audit records.now) }
    ensures memory { result ≡ 6 → K.taken sink.new ≡ K.taken sink.old }
    ensures statuses { (result ≡ 0) ⊎ ((result ≡ 5) ⊎ ((result ≡ 4) ⊎ (result ≡ 6))) }
{
    let mut text = Vec::new(alloc);
    match push_audit(alloc, &mut text, records) {
        Ok(true) => write(sink, text.as_slice(), 0),
        Ok(false) => write(sink, text.as_slice(), 5),
        Err(_) => 6,
    }
}

/// Reads what a keeper kept, writes the audit of it to the sink, and answers the status: 0 where each epoch is due, 5 where one isn't, 10 where
/// the keeper failed, 4 where the sink failed, and 6 where memory ran out.
pub fn audit_run<R: Keeper, K: Sink>(alloc: Global, keeper: &mut R, sink: &mut K) -> u8
    ensures whole { (result ≡ 0) ⊎ (result ≡ 5) → (list : List Kept) → R.told keeper.new ≡ Some list → Appends (K.taken sink.old) (K.taken sink.new) (audit list) }
    ensures due { result ≡ 0 → (list : List Kept) → R.told keeper.new ≡ Some list → AreDue list }
    ensures wrong { result ≡ 5 → (list : List Kept) → R.told keeper.new ≡ Some list → ¬ AreDue list }
    ensures refused { result ≡ 10 → Appends (K.taken sink.old) (K.taken sink.new) refused_line × kept.Rose (R.faults keeper.old) (R.faults keeper.new) }
    ensures stopped { result ≡ 4 → Rose (K.faults sink.old) (K.faults sink.new) }
    ensures memory { result ≡ 6 → K.taken sink.new ≡ K.taken sink.old }
    ensures front { result ≡ 4 → (list : List Kept) → R.told keeper.new ≡ Some list
        → AppendsFront (K.taken sink.old) (K.taken sink.new) (audit list) ⊎ (AppendsFront (K.taken sink.old) (K.taken sink.new) refused_line × kept.Rose (R.faults keeper.old) (R.faults keeper.new)) }
    ensures same { kept.TellsOnly (R.told keeper.old) (R.told keeper.new) }
    ensures statuses { (result ≡ 0) ⊎ ((result ≡ 5) ⊎ ((result ≡ 10) ⊎ ((result ≡ 4) ⊎ (result ≡ 6)))) }
{
    match keeper.all(alloc) {
        Ok(records) => print(alloc, sink, records.as_slice()),
        Err(KeepFault::NoMemory) => 6,
        Err(KeepFault::Failed) => write(sink, b"refused: records\n", 10),
    }
}
