//! The three statements on the table.
ghost use Rattle.std.specs.Prelude.{◌≡◌, ◌<◌, ◌^◌, pos, [], ◌∷◌, IfOk, IfErr};
ghost use Rattle.ra_keep_sql.specs.KeptTable.{create_text, insert_text, select_text, inserted, kind_number};
ghost use Rattle.ra_base.specs.TokenGrammar.{IsToken};
ghost use Rattle.sqlite.specs.declared.types.Value.TheVariants.{Int, Text as Words};
ghost use Rattle.sqlite.specs.Held.{state};
ghost use Rattle.sqlite.specs.State.{HasCleanDisk, Executes, Survives, CommitsBy, Shown, FailsToQuery, CommitsShowing};

use ra_base::Kind;
use ra_keep::Record;
use sqlite::{Alter, Connection, Error, Row, params};

/// The number that the kind is kept as.
fn number_of(kind: Kind) -> i64
    ensures { result ≡ pos (kind_number kind) }
{
    match kind {
        Kind::Management => 1,
        Kind::ExtensionHost => 2,
        Kind::Tunnel => 3,
    }
}

/// Makes the table where it is missing.
pub fn create<S: Alter>(conn: &mut Connection<S>) -> Result<usize, Error>
    ensures runs { HasCleanDisk (state S.Store conn.new) → Executes create_text [] (state S.Store conn.old) (state S.Store conn.new) result }
    ensures survives { Survives (state S.Store conn.old) (state S.Store conn.new) (CommitsBy create_text [] (state S.Store conn.old)) }
{
    conn.execute(
        "CREATE TABLE IF NOT EXISTS kept (n INTEGER PRIMARY KEY, kind INTEGER NOT NULL, token TEXT NOT NULL, epoch INTEGER NOT NULL, moment INTEGER NOT NULL) STRICT",
        &[],
    )
}

/// Runs the statement that adds a record.
fn run_insert<S: Alter>(
    conn: &mut Connection<S>,
    n: i64,
    kind: i64,
    token: &str,
    epoch: i64,
    moment: i64,
) -> Result<usize, Error>
    ensures runs { HasCleanDisk (state S.Store conn.new) → Executes insert_text (Int n ∷ Int kind ∷ Words token.now ∷ Int epoch ∷ Int moment ∷ []) (state S.Store conn.old) (state S.Store conn.new) result }
    ensures survives { Survives (state S.Store conn.old) (state S.Store conn.new) (CommitsBy insert_text (Int n ∷ Int kind ∷ Words token.now ∷ Int epoch ∷ Int moment ∷ []) (state S.Store conn.old)) }
{
    conn.execute(
        "INSERT INTO kept (n, kind, token, epoch, moment) VALUES (?1, ?2, ?3, ?4, ?5)",
        params![n, kind, token, epoch, moment],
    )
}

/// Adds the record with this number.
pub fn insert<S: Alter>(conn: &mut Connection<S>, n: u64, kept: &Record) -> Result<usize, Error>
    requires number { n < 2 ^ 63 }
    requires epoch { kept.now.epoch < 2 ^ 63 }
    requires at { kept.now.at < 2 ^ 53 }
    ensures runs { HasCleanDisk (state S.Store conn.new) → Executes insert_text (inserted n kept.now) (state S.Store conn.old) (state S.Store conn.new) result }
    ensures survives { Survives (state S.Store conn.old) (state S.Store conn.new) (CommitsBy insert_text (inserted n kept.now) (state S.Store conn.old)) }
    ensures token { IsToken kept.now.key.token }
{
    let kind = number_of(kept.key.kind);
    run_insert(
        conn,
        n as i64,
        kind,
        kept.key.token.as_text(),
        kept.epoch as i64,
        kept.at as i64,
    )
}

/// Reads the rows, by their numbers.
pub fn select<S: Alter>(conn: &mut Connection<S>) -> Result<Vec<Row>, Error>
    ensures shown { HasCleanDisk (state S.Store conn.new) → IfOk result (λ rows. Shown select_text [] (state S.Store conn.old) (state S.Store conn.new) rows.items) }
    ensures refused { HasCleanDisk (state S.Store conn.new) → IfErr result (FailsToQuery select_text [] (state S.Store conn.old) (state S.Store conn.new)) }
    ensures survives { Survives (state S.Store conn.old) (state S.Store conn.new) (CommitsShowing select_text [] (state S.Store conn.old)) }
{
    conn.query_all(
        "SELECT n, kind, token, epoch, moment FROM kept ORDER BY n",
        &[],
    )
}
