//! A row as a record.
ghost use Rattle.std.specs.Prelude.{◌≡◌, ◌≢◌, Err, Some, IfOk};
ghost use Rattle.sqlite.specs.Order.{column};
ghost use Rattle.ra_keep_sql.specs.KeptRows as spec;
ghost use Rattle.ra_keep_sql.specs.KeptRows.{number_in, token_in, kind_in, records_from, bad_from};
ghost use Rattle.ra_keep_sql.specs.declared.open_fault.OpenFault.TheVariants as faults;

use crate::open_fault::OpenFault;
use ra_base::{Key, Kind, Token};
use ra_keep::Record;
use sqlite::Row;
use sqlite_value::value::ValueRef;
use std::alloc::Global;

/// The number in the place, where it is an integer from 0.
fn number(row: &Row, at: usize) -> Option<u64>
    ensures { result ≡ number_in (column row.now at) }
{
    match row.get_ref(at) {
        Ok(ValueRef::Int(n)) => u64::try_from(n).ok(),
        _ => None,
    }
}

/// The token in the place.
fn token(row: &Row, at: usize) -> Option<Token>
    ensures { result ≡ token_in (column row.now at) }
{
    match row.get_ref(at) {
        Ok(ValueRef::Text(bytes)) => match std::str::from_utf8(bytes) {
            Ok(text) => Token::from_text(text).ok(),
            Err(_) => None,
        },
        _ => None,
    }
}

/// The kind that the number in the place stands for.
fn kind(row: &Row, at: usize) -> Option<Kind>
    ensures { result ≡ kind_in (column row.now at) }
{
    match number(row, at) {
        Some(1) => Some(Kind::Management),
        Some(2) => Some(Kind::ExtensionHost),
        _ => None,
    }
}

/// The record that the row is, where it has that number.
pub fn record_in(row: &Row, n: u64) -> Option<Record>
    ensures { result ≡ spec.record_in n row.now }
{
    if number(row, 0)? != n {
        return None;
    }
    let kind = kind(row, 1)?;
    let token = token(row, 2)?;
    let epoch = number(row, 3)?;
    let at = number(row, 4)?;
    if at >= 1 << 53 {
        return None;
    }
    Some(Record {
        key: Key { kind, token },
        epoch,
        at,
    })
}

/// The records that the rows are, or the first row that is none.
pub fn records_in(alloc: Global, rows: &[Row]) -> Result<Vec<Record>, OpenFault>
    ensures records { IfOk result (λ records. records_from 1 rows.now ≡ Some records.items) }
    ensures bad { (row : _) → result ≡ Err (faults.BadRow row) → bad_from 1 rows.now ≡ Some row }
    ensures only { result ≢ Err faults.Failed }
{
    let mut records = Vec::new(alloc);
    for row in rows {
        let n = records.len() as u64 + 1;
        let Some(record) = record_in(row, n) else {
            return Err(OpenFault::BadRow { row: n });
        };
        if records.push(record).is_err() {
            return Err(OpenFault::NoMemory);
        }
    }
    Ok(records)
}
