//! Whether a database has our tables, those of the first schema, or none.

ghost use Rattle.std.specs.Prelude.{◌≡◌, [], ◌∷◌, IsTrue, false, map};
ghost use Rattle.sqlite_value.specs.Keys.{plain};
ghost use Rattle.sqlite.specs.Held.{state};
ghost use Rattle.mr_rows.specs.Schema.{no_schema, column_of, first_schema, our_schema};
ghost use Rattle.mr_sql.specs.OurSchema.{IsPlainTable, kind_told, columns_told, primary_told, table_told, index_told, schema_told};

use crate::our_tables::{OURS, Wanted};
use mr_rows::Idle;
use sqlite::Alter;
use sqlite_items::Items;
use sqlite_schema::code::Terms;
use sqlite_schema::schema::{Column, Index, Kind, Schema, Stamps, Table};
use sqlite_value::keys::{Collation, Order};
use sqlite_value::value::Value;

// The kind of the column of this name.
fn kind_of(name: &str, texts: &[&str]) -> Kind
    ensures { result ≡ kind_told texts.now name.now }
{
    if texts.contains(&name) {
        Kind::Text
    } else {
        Kind::Integer
    }
}

// Strict, never NULL, compared byte by byte, and with no default.
fn is_column(column: &Column, name: &str, kind: Kind) -> bool
    ensures same { IsTrue result → column.now ≡ column_of name.now kind }
    ensures other { result ≡ false → column.now ≡ column_of name.now kind → ⊥ }
{
    column.name.as_slice() == name.as_bytes()
        && column.kind == kind
        && column.is_strict
        && column.not_null
        && matches!(column.default, Value::Null)
        && column.collation == Collation::Binary
}

fn are_columns(columns: &[Column], names: &str, texts: &[&str]) -> bool
    ensures same { IsTrue result → columns.now ≡ columns_told texts.now names.now }
    ensures other { result ≡ false → columns.now ≡ columns_told texts.now names.now → ⊥ }
{
    let Some((column, rest)) = columns.split_first() else {
        return false;
    };
    match names.split_once(' ') {
        Some((name, names)) => is_column(column, name, kind_of(name, texts))
            && are_columns(rest, names, texts),
        None => is_column(column, names, kind_of(names, texts)) && rest.is_empty(),
    }
}

fn are_places(places: &Items<usize>, wanted: &[usize]) -> bool
    ensures same { IsTrue result → places.now ≡ wanted.now }
    ensures other { result ≡ false → places.now ≡ wanted.now → ⊥ }
{
    places.as_slice() == wanted
}

// The key's places, or none if it is merely unique.
fn is_primary_key(places: &Items<usize>, wanted: &Wanted) -> bool
    ensures same { IsTrue result → places.now ≡ primary_told wanted.now }
    ensures other { result ≡ false → places.now ≡ primary_told wanted.now → ⊥ }
{
    if wanted.is_primary {
        are_places(places, wanted.key)
    } else {
        places.is_empty()
    }
}

// One key, by these places.
fn is_one_key(keys: &[Items<usize>], key: &[usize]) -> bool
    ensures same { IsTrue result → keys.now ≡ key.now ∷ [] }
    ensures other { result ≡ false → keys.now ≡ key.now ∷ [] → ⊥ }
{
    keys.len() == 1 && are_places(&keys[0], key)
}

// The order of one key, in which each column ascends.
fn is_one_order(orders: &[Order]) -> bool
    ensures same { IsTrue result → orders.now ≡ plain ∷ [] }
    ensures other { result ≡ false → orders.now ≡ plain ∷ [] → ⊥ }
{
    orders.len() == 1 && orders[0].digits == 0
}

fn has_no_terms(terms: &Terms) -> bool
    ensures same { IsTrue result → terms.now ≡ [] }
    ensures other { result ≡ false → terms.now ≡ [] → ⊥ }
{
    terms.roots.len() == 0
}

fn has_no_stamps(stamps: &Stamps) -> bool
    ensures same { IsTrue result → stamps.now ≡ record { places = []; terms = []; formats = [] } }
    ensures other { result ≡ false → stamps.now ≡ record { places = []; terms = []; formats = [] } → ⊥ }
{
    stamps.places.len() == 0 && has_no_terms(&stamps.terms) && stamps.formats.len() == 0
}

// No rowid alias, no check, no reference, no default that is computed, no counter.
fn is_plain(table: &Table) -> bool
    ensures same { IsTrue result → IsPlainTable table.now }
    ensures other { result ≡ false → IsPlainTable table.now → ⊥ }
{
    table.key.is_none()
        && has_no_terms(&table.checks)
        && table.references.len() == 0
        && table.computed.len() == 0
        && has_no_stamps(&table.stamps)
        && !table.is_counted
}

fn is_table(table: &Table, wanted: &Wanted) -> bool
    ensures same { IsTrue result → table.now ≡ table_told wanted.now }
    ensures other { result ≡ false → table.now ≡ table_told wanted.now → ⊥ }
{
    is_plain(table)
        && table.name.as_slice() == wanted.name.as_bytes()
        && table.tree == wanted.tree
        && are_columns(table.columns.as_slice(), wanted.columns, wanted.texts)
        && is_primary_key(&table.primary, wanted)
        && is_one_key(table.uniques.as_slice(), wanted.key)
        && is_one_order(table.orders.as_slice())
}

fn is_index(index: &Index, wanted: &Wanted) -> bool
    ensures same { IsTrue result → index.now ≡ index_told wanted.now }
    ensures other { result ≡ false → index.now ≡ index_told wanted.now → ⊥ }
{
    index.name.as_slice() == wanted.index.as_bytes()
        && u64::from(index.tree) == u64::from(wanted.tree) + 1
        && index.table == wanted.tree
        && are_places(&index.columns, wanted.key)
        && index.order.digits == 0
        && index.is_unique
}

fn are_tables(tables: &[Table], wanted: &[Wanted]) -> bool
    ensures same { IsTrue result → tables.now ≡ map table_told wanted.now }
    ensures other { result ≡ false → tables.now ≡ map table_told wanted.now → ⊥ }
{
    if tables.len() != wanted.len() {
        return false;
    }
    'at: for at in 0..tables.len() {
        if !is_table(&tables[at], &wanted[at]) {
            return false;
        }
    }
    true
}

fn are_indexes(indexes: &[Index], wanted: &[Wanted]) -> bool
    ensures same { IsTrue result → indexes.now ≡ map index_told wanted.now }
    ensures other { result ≡ false → indexes.now ≡ map index_told wanted.now → ⊥ }
{
    if indexes.len() != wanted.len() {
        return false;
    }
    'at: for at in 0..indexes.len() {
        if !is_index(&indexes[at], &wanted[at]) {
            return false;
        }
    }
    true
}

// These tables with their indexes, and nothing else.
fn has_only(schema: &Schema, wanted: &[Wanted]) -> bool
    ensures same { IsTrue result → schema.now ≡ schema_told wanted.now }
    ensures other { result ≡ false → schema.now ≡ schema_told wanted.now → ⊥ }
{
    are_tables(schema.tables.as_slice(), wanted)
        && are_indexes(schema.indexes.as_slice(), wanted)
        && schema.views.len() == 0
}

fn has_ours(schema: &Schema) -> bool
    ensures same { IsTrue result → schema.now ≡ our_schema }
    ensures other { result ≡ false → schema.now ≡ our_schema → ⊥ }
{
    has_only(schema, &OURS)
}

fn has_first(schema: &Schema) -> bool
    ensures same { IsTrue result → schema.now ≡ first_schema }
    ensures other { result ≡ false → schema.now ≡ first_schema → ⊥ }
{
    has_only(schema, &OURS[..7])
}

/// Whether the database has no table, index or view.
pub(crate) fn is_blank<S: Alter>(conn: &Idle<S>) -> bool
    ensures same { IsTrue result → (state S.Store conn.now).now.schema ≡ no_schema }
    ensures other { result ≡ false → (state S.Store conn.now).now.schema ≡ no_schema → ⊥ }
{
    let schema = conn.connection.schema();
    schema.tables.len() == 0 && schema.indexes.len() == 0 && schema.views.len() == 0
}

/// Whether the database has our tables with their indexes, and nothing else. One of the first schema, which has seven of these ten tables,
/// hasn't.
pub(crate) fn is_ours<S: Alter>(conn: &Idle<S>) -> bool
    ensures same { IsTrue result → (state S.Store conn.now).now.schema ≡ our_schema }
    ensures other { result ≡ false → (state S.Store conn.now).now.schema ≡ our_schema → ⊥ }
{
    has_ours(conn.connection.schema())
}

/// Whether the database has the tables of the first schema with their indexes, and nothing else.
pub(crate) fn is_first<S: Alter>(conn: &Idle<S>) -> bool
    ensures same { IsTrue result → (state S.Store conn.now).now.schema ≡ first_schema }
    ensures other { result ≡ false → (state S.Store conn.now).now.schema ≡ first_schema → ⊥ }
{
    has_first(conn.connection.schema())
}
