//! The row of one session.
ghost use Rattle.std.specs.Prelude.{◌≡◌, ◌+◌, nat_lt, option_map};
ghost use Rattle.ra_registry.specs.Grace as grace;
ghost use Rattle.ra_registry.specs.RowChanges as changes;
ghost use Rattle.ra_registry.specs.Rows as rows;
ghost use Rattle.ra_registry.specs.Admission as admission;
ghost use Rattle.ra_registry.specs.Legal as legal;

use ra_base::Cause;

/// Where a session stands.
#[derive(Clone, Copy, Debug, PartialEq, Eq)]
pub enum RowState {
    /// It has a link.
    Up,
    /// Its link was lost at this moment, and its grace was shortened at that one. Moments are in milliseconds.
    Lost { at: u64, shortened: Option<u64> },
    /// It is over.
    Closed { cause: Cause },
}

/// What is known of a session.
#[derive(Clone, Copy, Debug, PartialEq, Eq)]
pub struct Row {
    /// The number of its latest link.
    pub epoch: u64,
    pub state: RowState,
    /// The moment of its last admission, shortening or loss, in milliseconds. A call with an earlier moment counts as made at it.
    pub changed: u64,
}

/// How long a session whose link was lost can be reconnected, in milliseconds: after the loss, and after the shortening.
#[derive(Clone, Copy)]
pub(crate) struct Graces {
    pub long: u64,
    pub short: u64,
}

/// The moment of a call as the row sees it.
fn moment_of(row: &Row, at: u64) -> u64
    ensures { result ≡ grace.moment_of row.now at }
{
    at.max(row.changed)
}

/// The row, shortened where it is lost and was not shortened.
pub(crate) fn shorten(row: Row, at: u64) -> Row
    ensures { result ≡ changes.shorten at row }
{
    let RowState::Lost {
        at: lost,
        shortened,
    } = row.state
    else {
        return row;
    };
    if shortened.is_some() {
        return row;
    }
    let moment = moment_of(&row, at);
    Row {
        state: RowState::Lost {
            at: lost,
            shortened: Some(moment),
        },
        changed: moment,
        ..row
    }
}

/// The row, lost where it is up with that epoch.
pub(crate) fn lose(row: Row, epoch: u64, at: u64) -> Row
    ensures { result ≡ changes.lose epoch at row }
{
    let moment = moment_of(&row, at);
    if row.epoch != epoch {
        return row;
    }
    match row.state {
        RowState::Up => Row {
            state: RowState::Lost {
                at: moment,
                shortened: None,
            },
            changed: moment,
            ..row
        },
        _ => row,
    }
}

/// The row, closed where it is not closed yet.
fn close_any(row: Row, cause: Cause) -> Row
    ensures { result ≡ changes.close_in row row.state cause }
{
    match row.state {
        RowState::Closed { .. } => row,
        RowState::Up | RowState::Lost { .. } => Row {
            state: RowState::Closed { cause },
            ..row
        },
    }
}

/// The row, closed where it has that epoch and is not closed yet.
pub(crate) fn close(row: Row, epoch: u64, cause: Cause) -> Row
    ensures { result ≡ changes.close epoch cause row }
{
    if row.epoch == epoch {
        close_any(row, cause)
    } else {
        row
    }
}

/// The row, closed since its grace is over.
pub(crate) fn expire(row: Row) -> Row
    ensures { result ≡ changes.expire row }
{
    close_any(row, Cause::GraceOver)
}

/// The row of a session that is admitted.
pub(crate) fn admitted(row: Option<Row>, epoch: u64, at: u64) -> Row
    ensures { result ≡ changes.admitted_at epoch at row }
{
    let changed = match row {
        Some(row) => moment_of(&row, at),
        None => at,
    };
    Row {
        epoch,
        state: RowState::Up,
        changed,
    }
}

/// The row of a session that ended before the start.
pub(crate) fn stopped(epoch: u64) -> Row
    ensures { result ≡ rows.stopped epoch }
{
    Row {
        epoch,
        state: RowState::Closed {
            cause: Cause::Stopped,
        },
        changed: 0,
    }
}

/// Whether the row is not closed.
pub(crate) fn is_open(row: Option<Row>) -> bool
    ensures { result ≡ changes.is_open row }
{
    match row {
        Some(row) => !matches!(row.state, RowState::Closed { .. }),
        None => false,
    }
}

/// Whether a moment is before the end of a span that begins at another.
fn is_before(now: u64, start: u64, span: u64) -> bool
    ensures { result ≡ nat_lt now (start + span) }
{
    now < span || now - span < start
}

/// Whether a moment is before the deadline of a lost row.
fn is_in_grace(graces: Graces, lost: u64, shortened: Option<u64>, now: u64) -> bool
    ensures { result ≡ nat_lt now (grace.deadline graces.long graces.short lost shortened) }
{
    match shortened {
        Some(at) => is_before(now, lost, graces.long) && is_before(now, at, graces.short),
        None => is_before(now, lost, graces.long),
    }
}

/// Whether the session can be reconnected.
fn is_live(graces: Graces, row: &Row, at: u64) -> bool
    ensures { result ≡ grace.is_live graces.long graces.short row.now at }
{
    let now = moment_of(row, at);
    match row.state {
        RowState::Up => true,
        RowState::Lost {
            at: lost,
            shortened,
        } => is_in_grace(graces, lost, shortened, now),
        RowState::Closed { .. } => false,
    }
}

/// Whether the session can be reconnected, once its grace is shortened where it is lost.
pub(crate) fn can_reconnect(graces: Graces, row: Option<Row>, at: u64) -> bool
    ensures { result ≡ admission.is_live_row graces.long graces.short (option_map (changes.shorten at) row) at }
{
    match row {
        Some(row) => is_live(graces, &shorten(row, at), at),
        None => false,
    }
}

/// Whether the row is lost and its grace is over.
pub(crate) fn is_over(graces: Graces, row: &Row, at: u64) -> bool
    ensures { result ≡ legal.is_over_in graces.long graces.short row.now row.now.state at }
{
    match row.state {
        RowState::Lost { .. } => !is_live(graces, row, at),
        RowState::Up | RowState::Closed { .. } => false,
    }
}
