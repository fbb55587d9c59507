//! What a keeper does on its connection.
ghost use Rattle.std.specs.Prelude.{◌≡◌, ◌≢◌, ◌↔◌, ◌<◌, ◌^◌, ◌+◌, ℕ, List, [], ◌∷◌, ◌++◌, Some, None, Err, All, IfOk, IfErr, OnOk, OnErr, IsTrue, true, false};
ghost use Rattle.ra_base.specs.declared.kind.Kind.TheVariants.{Tunnel};
ghost use Rattle.ra_keep.specs.Causes.{OnFailed, IsOfNoTunnel};
ghost use Rattle.ra_keep.specs.declared.record.Record.{Record as Kept};
ghost use Rattle.ra_keep_sql.specs.declared.open_fault.OpenFault.TheVariants as faults;
ghost use Rattle.ra_keep_sql.specs.KeptTable.{kept_schema, no_schema, select_text};
ghost use Rattle.ra_keep_sql.specs.KeptRows.{records_from, bad_from};
ghost use Rattle.ra_keep_sql.specs.Keepers.{list_in, told_in, Serves, Adds, Stays, LeavesEither, Leaves, Queries, IsServed, IsRefused};
ghost use Rattle.sqlite.specs.declared.error.Error.TheVariants.{SqliteFailure};
ghost use Rattle.sqlite.specs.declared.error.ErrorCode.TheVariants as codes;
ghost use Rattle.sqlite.specs.declared.error.Error.{Error};
ghost use Rattle.sqlite.specs.Order.{Row};
ghost use Rattle.sqlite.specs.Held.{state};
ghost use Rattle.sqlite.specs.State.{HasCleanDisk, Survives, CommitsShowing, Shown, FailsToQuery};
ghost use Rattle.sqlite_disk.specs.Disk.{MoreFaults};

use crate::open_fault::OpenFault;
use crate::read::records_in;
use crate::shape::{is_blank, is_kept_alone};
use crate::statements::{create, insert, select};
use ra_keep::{KeepFault, Record};
use sqlite::{Alter, Connection, Error, ErrorCode};
use std::alloc::Global;

/// Whether the error is that memory ran out.
fn is_memory(error: &Error) -> bool
    ensures { IsTrue result ↔ (error.now ≡ SqliteFailure codes.OutOfMemory) }
{
    matches!(error, Error::SqliteFailure(ErrorCode::OutOfMemory))
}

/// Adds the record with this number behind the others.
pub fn add<S: Alter>(conn: &mut Connection<S>, n: u64, kept: &Record) -> Result<(), KeepFault>
    requires number { n < 2 ^ 63 }
    requires kind { kept.now.key.kind ≢ Tunnel }
    requires epoch { kept.now.epoch < 2 ^ 63 }
    requires at { kept.now.at < 2 ^ 53 }
    requires serves { HasCleanDisk (state S.Store conn.old) → IsTrue (state S.Store conn.old).is_open → Serves (state S.Store conn.old) n }
    ensures added { HasCleanDisk (state S.Store conn.new) → OnOk result (Adds (state S.Store conn.old) (state S.Store conn.new) n kept.now) }
    ensures same { HasCleanDisk (state S.Store conn.new) → OnErr result (Stays (state S.Store conn.old) (state S.Store conn.new) n) }
    ensures failed { HasCleanDisk (state S.Store conn.new) → IsTrue (state S.Store conn.old).is_open → OnFailed result (MoreFaults (state S.Store conn.old).faults (state S.Store conn.new).faults) }
    ensures crash { HasCleanDisk (state S.Store conn.new) → IsTrue (state S.Store conn.old).is_open → (list : List Kept) → list_in (state S.Store conn.old).now ≡ Some list → LeavesEither (state S.Store conn.new) list (list ++ kept.now ∷ []) }
    ensures lasts { HasCleanDisk (state S.Store conn.new) → IsTrue (state S.Store conn.old).is_open → (list : List Kept) → list_in (state S.Store conn.old).now ≡ Some list → OnOk result (Leaves (state S.Store conn.new) (list ++ kept.now ∷ [])) }
    ensures clean { HasCleanDisk (state S.Store conn.new) → HasCleanDisk (state S.Store conn.old) }
{
    match insert(conn, n, kept) {
        Ok(_) => Ok(()),
        Err(error) => {
            if is_memory(&error) {
                Err(KeepFault::NoMemory)
            } else {
                Err(KeepFault::Failed)
            }
        }
    }
}

/// The records that the query reads.
fn read<S: Alter>(alloc: Global, conn: &mut Connection<S>) -> Result<Vec<Record>, OpenFault>
    ensures read { IfOk result (λ records. HasCleanDisk (state S.Store conn.new) → (rows : List Row) × Shown select_text [] (state S.Store conn.old) (state S.Store conn.new) rows × (records_from 1 rows ≡ Some records.items)) }
    ensures kinds { IfOk result (λ records. All IsOfNoTunnel records.items) }
    ensures bad { (row : _) → result ≡ Err (faults.BadRow row) → HasCleanDisk (state S.Store conn.new) → (rows : List Row) × Shown select_text [] (state S.Store conn.old) (state S.Store conn.new) rows × (bad_from 1 rows ≡ Some row) }
    ensures failed { result ≡ Err faults.Failed → HasCleanDisk (state S.Store conn.new) → (e : Error) × FailsToQuery select_text [] (state S.Store conn.old) (state S.Store conn.new) e × (e ≢ SqliteFailure codes.OutOfMemory) }
    ensures queries { HasCleanDisk (state S.Store conn.new) → Queries (state S.Store conn.old) (state S.Store conn.new) }
    ensures survives { Survives (state S.Store conn.old) (state S.Store conn.new) (CommitsShowing select_text [] (state S.Store conn.old)) }
{
    match select(conn) {
        Ok(rows) => records_in(alloc, rows.as_slice()),
        Err(error) => {
            if is_memory(&error) {
                Err(OpenFault::NoMemory)
            } else {
                Err(OpenFault::Failed)
            }
        }
    }
}

/// The records that the table has.
pub fn read_all<S: Alter>(alloc: Global, conn: &mut Connection<S>) -> Result<Vec<Record>, KeepFault>
    ensures records { IfOk result (λ records. (n : ℕ) → (HasCleanDisk (state S.Store conn.old) → IsTrue (state S.Store conn.old).is_open → Serves (state S.Store conn.old) n)
        → (list : List Kept) → told_in (state S.Store conn.new) ≡ Some list → records.items ≡ list) }
    ensures kinds { IfOk result (λ records. All IsOfNoTunnel records.items) }
    ensures same { (n : ℕ) → (HasCleanDisk (state S.Store conn.old) → IsTrue (state S.Store conn.old).is_open → Serves (state S.Store conn.old) n)
        → HasCleanDisk (state S.Store conn.new) → Stays (state S.Store conn.old) (state S.Store conn.new) n }
    ensures failed { (n : ℕ) → Serves (state S.Store conn.old) n → IsTrue (state S.Store conn.old).is_open → (list : List Kept) → list_in (state S.Store conn.old).now ≡ Some list
        → HasCleanDisk (state S.Store conn.new) → OnFailed result (MoreFaults (state S.Store conn.old).faults (state S.Store conn.new).faults) }
{
    match read(alloc, conn) {
        Ok(records) => Ok(records),
        Err(OpenFault::NoMemory) => Err(KeepFault::NoMemory),
        Err(OpenFault::Failed) => Err(KeepFault::Failed),
        Err(OpenFault::BadRow { row: _ }) => Err(KeepFault::Failed),
    }
}

/// The number of the next record, where the rows of the table are records.
fn read_on<S: Alter>(alloc: Global, conn: &mut Connection<S>) -> Result<u64, OpenFault>
    requires schema { (state S.Store conn.old).now.schema ≡ kept_schema }
    requires settled { IsTrue (state S.Store conn.old).is_open → (state S.Store conn.old).now ≡ (state S.Store conn.old).committed }
    requires autocommit { (state S.Store conn.old).in_transaction ≡ false }
    requires unlimited { (state S.Store conn.old).step_limit ≡ None }
    ensures served { IfOk result (λ n. HasCleanDisk (state S.Store conn.new) → IsServed (state S.Store conn.old) (state S.Store conn.new) n) }
    ensures refused { IfErr result (λ fault. HasCleanDisk (state S.Store conn.new) → IsRefused (state S.Store conn.old) (state S.Store conn.new) fault) }
{
    match read(alloc, conn) {
        Ok(records) => Ok(records.len() as u64 + 1),
        Err(fault) => Err(fault),
    }
}

/// Makes the table, which is not there, and answers the number of the first record.
fn begin<S: Alter>(conn: &mut Connection<S>) -> Result<u64, OpenFault>
    requires schema { (state S.Store conn.old).now.schema ≡ no_schema }
    requires autocommit { (state S.Store conn.old).in_transaction ≡ false }
    requires unlimited { (state S.Store conn.old).step_limit ≡ None }
    ensures served { IfOk result (λ n. HasCleanDisk (state S.Store conn.new) → IsServed (state S.Store conn.old) (state S.Store conn.new) n) }
    ensures refused { IfErr result (λ fault. HasCleanDisk (state S.Store conn.new) → IsRefused (state S.Store conn.old) (state S.Store conn.new) fault) }
{
    match create(conn) {
        Ok(_) => Ok(1),
        Err(error) => {
            if is_memory(&error) {
                Err(OpenFault::NoMemory)
            } else {
                Err(OpenFault::Failed)
            }
        }
    }
}

/// Makes the table where it is missing, or reads it. Answers the number of the next record.
pub fn prepare<S: Alter>(alloc: Global, conn: &mut Connection<S>) -> Result<u64, OpenFault>
    requires { (state S.Store conn.old).step_limit ≡ None }
    ensures served { IfOk result (λ n. HasCleanDisk (state S.Store conn.new) → IsServed (state S.Store conn.old) (state S.Store conn.new) n) }
    ensures refused { IfErr result (λ fault. HasCleanDisk (state S.Store conn.new) → IsRefused (state S.Store conn.old) (state S.Store conn.new) fault) }
    ensures busy { (state S.Store conn.old).in_transaction ≡ true → result ≡ Err faults.Failed }
{
    if !conn.is_autocommit() {
        return Err(OpenFault::Failed);
    }
    if is_kept_alone(conn.schema()) {
        return read_on(alloc, conn);
    }
    if is_blank(conn.schema()) {
        return begin(conn);
    }
    Err(OpenFault::Failed)
}
