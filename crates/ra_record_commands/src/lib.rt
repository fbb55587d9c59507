//! The command `audit`: prints the audit of the records that a file holds.
#![tactic(auto)]

ghost use Rattle.std.specs.Prelude.{◌≡◌};
ghost use Rattle.std.specs.Io.KnownBytes.{Appends};
ghost use Rattle.ra_ports.specs.Causes.{Rose};
ghost use Rattle.ra_audit.specs.Audits.{refused_line};

use ra_audit::audit_run;
use ra_keep_sql::{OpenFault, SqlKeeper};
use ra_ports::{Sink, write_all};
use std::rt::HostRuntime;

/// Prints the audit of the records in the file at the path, and answers its status: that of `audit_run`, and 10 with the line of a keeper that
/// failed where the file can't be opened or has a row that is no record.
pub fn audit<K: Sink>(rt: &HostRuntime, path: &str, sink: &mut K) -> u8
    ensures stopped { result ≡ 4 → Rose (K.faults sink.old) (K.faults sink.new) }
    ensures refused { result ≡ 10 → Appends (K.taken sink.old) (K.taken sink.new) refused_line }
{
    let mut keeper = match SqlKeeper::open(rt, path) {
        Ok(keeper) => keeper,
        Err(OpenFault::NoMemory) => return 6,
        Err(_) => {
            return match write_all(sink, b"refused: records\n") {
                Ok(()) => 10,
                Err(_) => 4,
            };
        }
    };
    audit_run(rt.alloc(), &mut keeper, sink)
}
