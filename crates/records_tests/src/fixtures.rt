//! What several of these tests begin with: moments, records, requests, and keepers over disks.
ghost use Rattle.std.specs.Prelude.{◌≡◌, ◌≢◌, ◌<◌, Some, IfOk};
ghost use Rattle.ra_base.specs.declared.kind.Kind.TheVariants as kinds;
ghost use Rattle.ra_keep.specs.Causes.{IsOfNoTunnel};

use ra_base::{Key, Kind, Moment, Reason, Request, Seat, Token};
use ra_hub::{Hub, HubFault};
use ra_keep::Record;
use ra_keep_sql::SqlKeeper;
use sqlite::{Connection, FileStore, Files, Options};
use sqlite_disk::{Disk, Fuse, Memory};
use std::alloc::Global;
use std::test::Fail;

pub(crate) const LONG: u64 = 10_800_000;

pub(crate) const SHORT: u64 = 300_000;

/// This moment, or the first one where there is none.
pub(crate) fn at(millis: u64) -> Moment {
    match Moment::of_millis(millis) {
        Some(moment) => moment,
        None => Moment::start(),
    }
}

/// The record of a link of a window.
pub(crate) fn record(text: &str, epoch: u64, at: u64) -> Result<Record, Fail>
    ensures kind { IfOk result (λ kept. IsOfNoTunnel kept) }
    ensures epoch { IfOk result (λ kept. kept.epoch ≡ epoch) }
    ensures at { IfOk result (λ kept. kept.at ≡ at) }
{
    let key = Key {
        kind: Kind::Management,
        token: Token::from_text(text)?,
    };
    Ok(Record { key, epoch, at })
}

fn ask(text: &str, reconnection: bool) -> Result<Request, Fail>
    ensures { IfOk result (λ ask. ask.kind ≢ Some kinds.Tunnel) }
{
    Ok(Request {
        kind: Some(Kind::Management),
        token: Token::from_text(text)?,
        reconnection,
    })
}

/// A new session.
pub(crate) fn admit<H: Hub>(
    hub: &mut H,
    alloc: Global,
    text: &str,
    millis: u64,
) -> Result<Seat, Fail>
    ensures { IfOk result (λ seat. 0 < H.seats hub.new seat) }
{
    let ask = ask(text, false)?;
    Ok(hub.admit(alloc, ask, at(millis))?)
}

/// Why a request is refused.
pub(crate) fn refusal<H: Hub>(
    hub: &mut H,
    alloc: Global,
    text: &str,
    reconnection: bool,
    millis: u64,
) -> Result<Option<Reason>, Fail> {
    let ask = ask(text, reconnection)?;
    match hub.admit(alloc, ask, at(millis)) {
        Err(HubFault::Refused { reason }) => Ok(Some(reason)),
        Ok(_) | Err(_) => Ok(None),
    }
}

/// Two files in memory that stop at the call behind so many.
pub(crate) fn fused(alloc: Global, calls: u64) -> Files<Fuse<Memory>> {
    Files {
        log: Fuse::new(Memory::new(alloc), calls),
        db: Fuse::new(Memory::new(alloc), calls),
    }
}

/// A keeper over the files, whose log is copied back after so many frames; or the files again, where they are refused.
pub(crate) fn adopt<D: Disk + Drop>(
    alloc: Global,
    files: Files<D>,
    frames: usize,
) -> Result<SqlKeeper<FileStore<D>>, Files<D>> {
    if !files.may_be_used() {
        return Err(files);
    }
    let mut options = Options::new(1);
    options.checkpoint_frames = frames;
    let connection = match Connection::open_files(alloc, files, options) {
        Ok(connection) => connection,
        Err((_, left)) => return Err(left.into_files()),
    };
    match SqlKeeper::adopt(alloc, connection) {
        Ok(keeper) => Ok(keeper),
        Err(refused) => Err(refused.into_connection().into_store().close()),
    }
}

/// The files of a keeper, which ends.
pub(crate) fn files_of<D: Disk + Drop>(keeper: SqlKeeper<FileStore<D>>) -> Files<D> {
    keeper.into_connection().into_store().close()
}
