//! Whether a schema is that of the table of records alone.
ghost use Rattle.std.specs.Prelude.{◌≡◌, ◌↔◌, [], ◌∷◌, Some, false, true, IsTrue};
ghost use Rattle.sqlite_schema.specs.declared.schema.Kind.TheVariants as kinds;
ghost use Rattle.sqlite_value.specs.declared.value.Value.TheVariants as values;
ghost use Rattle.sqlite_value.specs.declared.keys.Collation.TheVariants as collations;
ghost use Rattle.ra_keep_sql.specs.KeptTable.{number_column, kept_table, kept_schema, no_schema};

use sqlite_schema::code::Terms;
use sqlite_schema::schema::{Column, Kind, Schema, Stamps, Table};
use sqlite_value::keys::Collation;
use sqlite_value::value::Value;

/// Whether the column has this name, this kind and no default.
fn is_column(column: &Column, name: &[u8], kind: Kind, not_null: bool) -> bool
    ensures { IsTrue result ↔ (column.now ≡ record { name = name.now; kind = kind; is_strict = true; not_null = not_null; default = values.Null; collation = collations.Binary }) }
{
    column.name.as_slice() == name
        && column.kind == kind
        && column.is_strict
        && column.not_null == not_null
        && matches!(column.default, Value::Null)
        && matches!(column.collation, Collation::Binary)
}

/// Whether these are the five columns of the table.
fn are_columns(columns: &[Column]) -> bool
    ensures { IsTrue result ↔ (columns.now ≡ kept_table.columns) }
{
    match columns {
        [n, kind, token, epoch, moment] => {
            is_column(n, b"n", Kind::Integer, false)
                && is_column(kind, b"kind", Kind::Integer, true)
                && is_column(token, b"token", Kind::Text, true)
                && is_column(epoch, b"epoch", Kind::Integer, true)
                && is_column(moment, b"moment", Kind::Integer, true)
        }
        _ => false,
    }
}

fn is_rowid(places: &[usize]) -> bool
    ensures { IsTrue result ↔ (places.now ≡ 0 ∷ []) }
{
    match places {
        [place] => *place == 0,
        _ => false,
    }
}

fn are_none(terms: &Terms) -> bool
    ensures { IsTrue result ↔ (terms.now ≡ []) }
{
    terms.roots.is_empty()
}

fn is_unstamped(stamps: &Stamps) -> bool
    ensures { IsTrue result ↔ (stamps.now ≡ record { places = []; terms = []; formats = [] }) }
{
    stamps.places.is_empty() && are_none(&stamps.terms) && stamps.formats.is_empty()
}

/// Whether the table has no rule beside those of its columns.
fn is_plain(table: &Table) -> bool
    ensures { IsTrue result ↔ ((table.now.uniques ≡ []) × (table.now.orders ≡ []) × (table.now.checks ≡ []) × (table.now.references ≡ []) × (table.now.computed ≡ []) × (table.now.stamps ≡ record { places = []; terms = []; formats = [] }) × (table.now.is_counted ≡ false)) }
{
    table.uniques.is_empty()
        && table.orders.is_empty()
        && are_none(&table.checks)
        && table.references.is_empty()
        && table.computed.is_empty()
        && is_unstamped(&table.stamps)
        && !table.is_counted
}

fn is_kept(table: &Table) -> bool
    ensures { IsTrue result ↔ (table.now ≡ kept_table) }
{
    table.name.as_slice() == b"kept".as_slice()
        && table.tree == 0
        && are_columns(table.columns.as_slice())
        && table.key == Some(0)
        && is_rowid(table.primary.as_slice())
        && is_plain(table)
}

/// Whether the schema is that of the table of records alone.
pub fn is_kept_alone(schema: &Schema) -> bool
    ensures { IsTrue result ↔ (schema.now ≡ kept_schema) }
{
    match schema.tables.as_slice() {
        [table] => is_kept(table) && schema.indexes.is_empty() && schema.views.is_empty(),
        _ => false,
    }
}

/// Whether the schema has no table, no index and no view.
pub fn is_blank(schema: &Schema) -> bool
    ensures { IsTrue result ↔ (schema.now ≡ no_schema) }
{
    schema.tables.is_empty() && schema.indexes.is_empty() && schema.views.is_empty()
}
