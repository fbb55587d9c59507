//! The keeper over a table.
ghost use Rattle.std.specs.Prelude.{◌≡◌, ◌≢◌, ◌<◌, ◌≤◌, ◌+◌, ◌^◌, ℕ, List, [], ◌∷◌, ◌++◌, Some, None, Err, All, option_map, length, IfOk, IfErr, OnOk, OnErr, IsTrue, true};
ghost use Rattle.ra_base.specs.declared.kind.Kind.TheVariants.{Tunnel};
ghost use Rattle.ra_keep.specs.Causes.{HasCause, OnFailed, IsOfNoTunnel, TellsOnly};
ghost use Rattle.ra_keep.specs.declared.record.Record.{Record as Kept};
ghost use Rattle.ra_keep.specs.declared.keeper.KeepFault.TheVariants as kept_faults;
ghost use Rattle.ra_keep_sql.specs.declared.open_fault.OpenFault.TheVariants as faults;
ghost use Rattle.sqlite.specs.Held.{state};
ghost use Rattle.sqlite.specs.Steps.{over_memory};
ghost use Rattle.sqlite.specs.State.{HasCleanDisk};
ghost use Rattle.sqlite_disk.specs.Disk.{MoreFaults};

use crate::calls::{add, prepare, read_all};
use crate::open_fault::OpenFault;
use ra_keep::{KeepFault, Keeper, Record};
use sqlite::{Alter, Connection, Error, ErrorCode, File, FileStore, MemStore};
use std::alloc::Global;
use std::marker::Model;
use std::rt::HostRuntime;

/// A keeper over a connection of its own. A contract sees the connection, and how often the keeper failed.
pub struct SqlKeeper<S: Alter> {
    conn: Connection<S>,
    next: u64,
    faults: u64,
}

impl<S: Alter> Model for SqlKeeper<S> {
    ghost use Rattle.std.specs.Prelude.{IsTrue};
    ghost use Rattle.ra_keep_sql.specs.Keepers.{SqlKept, kept_code, Serves};
    ghost use Rattle.sqlite.specs.Held.{state};
    ghost use Rattle.sqlite.specs.State.{HasCleanDisk};

    ghost Value = { SqlKept S };

    ghost coded = { kept_code S.code };

    ghost view = { λ k. record { connection = k.conn; faults = k.faults } };

    ghost invariant = { λ k. HasCleanDisk (state S.Store k.conn) → IsTrue (state S.Store k.conn).is_open → Serves (state S.Store k.conn) k.next };
}

impl<S: Alter + Drop> Drop for SqlKeeper<S> {
    fn drop(self) {
        let SqlKeeper {
            conn: _,
            next: _,
            faults: _,
        } = self;
    }
}

/// A connection over which no keeper was made, and why.
pub struct Refused<S: Alter> {
    pub fault: OpenFault,
    pub connection: Connection<S>,
}

impl<S: Alter + Drop> Drop for Refused<S> {
    fn drop(self) {
        let Refused {
            fault: _,
            connection: _,
        } = self;
    }
}

impl<S: Alter> Refused<S> {
    /// Gives the connection back.
    pub fn into_connection(self) -> Connection<S>
        ensures { result ≡ self.connection }
    {
        let Refused {
            fault: _,
            connection,
        } = self;
        connection
    }
}

impl<S: Alter> SqlKeeper<S> {
    ghost use Rattle.ra_keep_sql.specs.Keepers.{told_in, Adopts, IsRefused};

    /// A keeper over the connection, in whose database it makes the table where there is no table. It clears the connection's limit on steps.
    ///
    /// A connection in a transaction, another table, view or index beside it, and a refused statement are `Failed`.
    pub fn adopt(alloc: Global, mut connection: Connection<S>) -> Result<SqlKeeper<S>, Refused<S>>
        ensures adopted { IfOk result (λ k. HasCleanDisk (state S.Store k.connection) → Adopts (state S.Store connection) (state S.Store k.connection)) }
        ensures unfailed { IfOk result (λ k. k.faults ≡ 0) }
        ensures refused { IfErr result (λ r. HasCleanDisk (state S.Store r.connection) → IsRefused (state S.Store connection) (state S.Store r.connection) r.fault) }
        ensures busy { (state S.Store connection).in_transaction ≡ true → IfOk result (λ _. ⊥) × IfErr result (λ r. r.fault ≡ faults.Failed) }
    {
        connection.set_step_limit(None);
        match prepare(alloc, &mut connection) {
            Ok(next) => Ok(SqlKeeper {
                conn: connection,
                next,
                faults: 0,
            }),
            Err(fault) => Err(Refused { fault, connection }),
        }
    }

    /// Gives the connection back.
    pub fn into_connection(self) -> Connection<S>
        ensures { result ≡ self.connection }
    {
        let SqlKeeper {
            conn,
            next: _,
            faults: _,
        } = self;
        conn
    }
}

impl SqlKeeper<MemStore> {
    ghost use Rattle.ra_keep_sql.specs.Keepers.{told_in};

    /// A keeper of no records in memory, which does not outlive the process.
    pub fn in_memory(alloc: Global) -> Result<SqlKeeper<MemStore>, OpenFault>
        ensures told { IfOk result (λ k. told_in (state over_memory k.connection) ≡ Some []) }
        ensures unfailed { IfOk result (λ k. k.faults ≡ 0) }
        ensures cause { IfErr result (λ fault. fault ≡ faults.NoMemory) }
    {
        let Ok(connection) = Connection::open_in_memory(alloc) else {
            return Err(OpenFault::NoMemory);
        };
        match SqlKeeper::adopt(alloc, connection) {
            Ok(keeper) => Ok(keeper),
            Err(refused) => Err(refused.fault),
        }
    }
}

impl SqlKeeper<FileStore<File>> {
    /// A keeper over the file at the path, which is made where it is missing. What it holds is known by `all` alone.
    pub fn open(rt: &HostRuntime, path: &str) -> Result<SqlKeeper<FileStore<File>>, OpenFault>
        ensures { IfOk result (λ k. k.faults ≡ 0) }
    {
        let connection = match Connection::open(rt, path) {
            Ok(connection) => connection,
            Err(Error::SqliteFailure(ErrorCode::OutOfMemory)) => return Err(OpenFault::NoMemory),
            Err(_) => return Err(OpenFault::Failed),
        };
        match SqlKeeper::adopt(rt.alloc(), connection) {
            Ok(keeper) => Ok(keeper),
            Err(refused) => Err(refused.fault),
        }
    }

    /// Copies the log back into the file, and closes it. Where the keeper is dropped instead, the file and its log belong together.
    pub fn close(self) -> Result<(), OpenFault> {
        match self.into_connection().close() {
            Ok(()) => Ok(()),
            Err(Error::SqliteFailure(ErrorCode::OutOfMemory)) => Err(OpenFault::NoMemory),
            Err(_) => Err(OpenFault::Failed),
        }
    }
}

impl<S: Alter> Keeper for SqlKeeper<S> {
    ghost use Rattle.ra_keep_sql.specs.Keepers.{told_in, LeavesEither, Leaves};

    ghost told = { λ k. told_in (state S.Store k.connection) };

    ghost faults = { λ k. k.faults };

    ghost calls = { λ _. None };

    fn append(&mut self, _alloc: Global, kept: &Record) -> Result<(), KeepFault>
        requires kind { IsOfNoTunnel kept.now }
        requires epoch { kept.now.epoch < 2 ^ 63 }
        requires at { kept.now.at < 2 ^ 53 }
        ensures added { OnOk result (TellsOnly (option_map (λ list. list ++ kept.now ∷ []) (told_in (state S.Store self.old.connection))) (told_in (state S.Store self.new.connection))) }
        ensures refused { OnErr result (TellsOnly (told_in (state S.Store self.old.connection)) (told_in (state S.Store self.new.connection))) }
        ensures cause { HasCause self.old.faults self.new.faults result }
        ensures failed { (list : List Kept) → told_in (state S.Store self.old.connection) ≡ Some list → length list + 1 < 2 ^ 63 → HasCleanDisk (state S.Store self.new.connection)
            → OnFailed result (MoreFaults (state S.Store self.old.connection).faults (state S.Store self.new.connection).faults) }
        ensures full { (list : List Kept) → told_in (state S.Store self.old.connection) ≡ Some list → 2 ^ 63 ≤ length list + 1 → result ≡ Err kept_faults.Failed }
        ensures crash { (list : List Kept) → told_in (state S.Store self.old.connection) ≡ Some list → HasCleanDisk (state S.Store self.new.connection)
            → LeavesEither (state S.Store self.new.connection) list (list ++ kept.now ∷ []) }
        ensures lasts { (list : List Kept) → told_in (state S.Store self.old.connection) ≡ Some list → HasCleanDisk (state S.Store self.new.connection)
            → OnOk result (Leaves (state S.Store self.new.connection) (list ++ kept.now ∷ [])) }
    {
        if self.next >= 1 << 63 {
            self.faults = self.faults.saturating_add(1);
            return Err(KeepFault::Failed);
        }
        match add(&mut self.conn, self.next, kept) {
            Ok(()) => {
                self.next += 1;
                Ok(())
            }
            Err(KeepFault::NoMemory) => Err(KeepFault::NoMemory),
            Err(KeepFault::Failed) => {
                self.faults = self.faults.saturating_add(1);
                Err(KeepFault::Failed)
            }
        }
    }

    fn all(&mut self, alloc: Global) -> Result<Vec<Record>, KeepFault>
        ensures records { IfOk result (λ records. (list : List Kept) → told_in (state S.Store self.new.connection) ≡ Some list → records.items ≡ list) }
        ensures kinds { IfOk result (λ records. All IsOfNoTunnel records.items) }
        ensures same { TellsOnly (told_in (state S.Store self.old.connection)) (told_in (state S.Store self.new.connection)) }
        ensures cause { HasCause self.old.faults self.new.faults result }
        ensures failed { (list : List Kept) → told_in (state S.Store self.old.connection) ≡ Some list → HasCleanDisk (state S.Store self.new.connection)
            → OnFailed result (MoreFaults (state S.Store self.old.connection).faults (state S.Store self.new.connection).faults) }
    {
        match read_all(alloc, &mut self.conn) {
            Ok(records) => Ok(records),
            Err(KeepFault::NoMemory) => Err(KeepFault::NoMemory),
            Err(KeepFault::Failed) => {
                self.faults = self.faults.saturating_add(1);
                Err(KeepFault::Failed)
            }
        }
    }
}
