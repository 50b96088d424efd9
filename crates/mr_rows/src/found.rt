ghost use Rattle.std.specs.Prelude.{◌≡◌, ◌≢◌, [], ◌∷◌, ◌++◌, ◌≤◌, ℕ, length, map, IfErr, OnOk, IsTrue, ⊤};
ghost use Rattle.sqlite_value.specs.declared.value.Value.TheVariants.{Null};
ghost use Rattle.sqlite_trees.specs.Tree.{Trees};
ghost use Rattle.sqlite_schema.specs.declared.schema.Schema.{Schema};
ghost use Rattle.sqlite.specs.Held.{state};
ghost use Rattle.mr_rows.specs.Schema.{our_schema};
ghost use Rattle.mr_rows.specs.Shown.{IsShownAs, AreStoredAs, AreOurRows};
ghost use Rattle.mr_rows.specs.Kept.{AreTested, AreRowsOf, AreAllFound};
ghost use Rattle.mr_rows.specs.Reads.{Looks, LooksIn};
ghost use Rattle.mr_rows.specs.Causes.{FailsByStoreIn, FailsByStore, AsksAll};

use crate::idle::Idle;
use crate::meta_table::find_meta;
use crate::order::sort_rows;
use crate::queries::ask_all;
use crate::stored_rows::{StoredRow, add_row, test_row};
use mr_base::RoomName;
use mr_tables::{BookingRow, CancelRow, CancelledRow, ErrorRow, LogRow, Tables, VectorRow};
use sqlite::{Alter, Error, ErrorCode, Row};
use std::alloc::Global;

// One pass over all rows of all tables tests each, so that a row that breaks the table's rules or the limits is found. Rows of tables that
// may have many come one at a time, and are read if they are to be kept; those of `meta`, `write_log` and `undo` are listed whole.

/// Takes a row that a query shows: it is tested, and if it is to be kept it is read and put behind those that are there.
fn take_row<R: StoredRow>(
    alloc: Global,
    row: &Row,
    keep: bool,
    out: &mut Vec<R>,
) -> Result<(), Error>
    ensures shown { OnOk result (IsShownAs R.form row.now) }
    ensures kept { OnOk result (IsTrue keep → out.new.items ≡ out.old.items ++ R.form.row_in (Null ∷ row.now) ∷ []) }
    ensures refused { IfErr result (λ e. e ≢ Error.SqliteFailure ErrorCode.OutOfMemory → ¬ IsShownAs R.form row.now) }
{
    if keep {
        add_row(alloc, row, out)
    } else {
        test_row::<R>(row)
    }
}

/// Takes the rows, one after the other, that a text shows which asks for all rows of the table.
fn take_rows<R: StoredRow, S: Alter>(
    conn: &mut Idle<S>,
    alloc: Global,
    sql: &str,
    keep: bool,
) -> Result<Vec<R>, Error>
    ensures looks { (under : Schema) → AsksAll under R.form.table.tree (length R.form.table.columns) sql.now
        → LooksIn under (state S.Store conn.old) (state S.Store conn.new) result (λ out. AreTested R.form keep (state S.Store conn.old).now.trees out.items) }
    ensures cause { (under : Schema) → AsksAll under R.form.table.tree (length R.form.table.columns) sql.now
        → FailsByStoreIn under (AreStoredAs R.form) (state S.Store conn.old) (state S.Store conn.new) result }
{
    let mut out = Vec::new(alloc);
    let mut rows = conn.connection.query(sql, &[])?;
    'rows: for _ in 0..u64::MAX {
        rows.advance()?;
        match rows.get() {
            Some(row) => take_row(alloc, row, keep, &mut out)?,
            None => return Ok(out),
        }
    }
    // More rows than any machine holds are out of memory.
    Err(Error::SqliteFailure(ErrorCode::OutOfMemory))
}

/// Rows of one table, or of several.
pub trait FoundRows: Drop {
    // which schemas have the tables
    ghost stand_in: { Schema → Type 0 };

    // each row keeps the rules of its table, and the limits
    ghost are_stored: { Trees → Type 0 };

    // these are the rows, of each table in the order of its keys
    ghost are_all: { Trees → Self → Type 0 };

    /// Finds that each row keeps the rules and the limits, and answers the rows if they are to be kept.
    fn find<S: Alter>(conn: &mut Idle<S>, alloc: Global, keep: bool) -> Result<Self, Error>
        ensures looks { (under : Schema) → stand_in under → LooksIn under (state S.Store conn.old) (state S.Store conn.new) result
            (λ found. are_stored (state S.Store conn.old).now.trees × (IsTrue keep → are_all (state S.Store conn.old).now.trees found)) }
        ensures cause { (under : Schema) → stand_in under → FailsByStoreIn under are_stored (state S.Store conn.old) (state S.Store conn.new) result };
}

impl<R: StoredRow> FoundRows for Vec<R> {
    ghost stand_in = { R.stands_in };

    ghost are_stored = { AreStoredAs R.form };

    ghost are_all = { λ trees rows. AreRowsOf R.form trees rows.items };

    fn find<S: Alter>(conn: &mut Idle<S>, alloc: Global, keep: bool) -> Result<Vec<R>, Error> {
        let mut rows = take_rows::<R, S>(conn, alloc, R::texts().all, keep)?;
        sort_rows(&mut rows)?;
        Ok(rows)
    }
}

impl<A: FoundRows, B: FoundRows> FoundRows for (A, B) {
    ghost stand_in = { λ under. A.stand_in under × B.stand_in under };

    ghost are_stored = { λ trees. A.are_stored trees × B.are_stored trees };

    ghost are_all = { λ trees found. A.are_all trees found.0 × B.are_all trees found.1 };

    fn find<S: Alter>(conn: &mut Idle<S>, alloc: Global, keep: bool) -> Result<(A, B), Error> {
        let first = A::find(conn, alloc, keep)?;
        let second = B::find(conn, alloc, keep)?;
        Ok((first, second))
    }
}

fn are_none(rows: &[Row]) -> Result<(), Error>
    ensures none { OnOk result (rows.now ≡ []) }
    ensures refused { IfErr result (λ _. rows.now ≢ []) }
{
    match rows {
        [] => Ok(()),
        _ => Err(Error::InvalidQuery),
    }
}

// That a table has no row, by a text that asks for all of them.
fn find_none<S: Alter>(conn: &mut Idle<S>, sql: &str) -> Result<(), Error>
    ensures looks { (under : Schema) (tree n : ℕ) → AsksAll under tree n sql.now
        → LooksIn under (state S.Store conn.old) (state S.Store conn.new) result (λ _. (state S.Store conn.old).now.trees tree ≡ []) }
    ensures cause { (under : Schema) (tree n : ℕ) → AsksAll under tree n sql.now
        → FailsByStoreIn under (λ trees. trees tree ≡ []) (state S.Store conn.old) (state S.Store conn.new) result }
{
    let rows = ask_all(conn, sql)?;
    are_none(&rows)
}

/// The rows of the first schema's logs, of which ours has none.
#[derive(Drop)]
struct NoOldLogs {}

impl FoundRows for NoOldLogs {
    ghost stand_in = { λ under. under ≡ our_schema };

    ghost are_stored = { λ trees. (trees 6 ≡ []) × (trees 8 ≡ []) };

    ghost are_all = { λ _ _. ⊤ };

    fn find<S: Alter>(conn: &mut Idle<S>, _alloc: Global, _keep: bool) -> Result<NoOldLogs, Error> {
        find_none(conn, "SELECT server FROM write_log")?;
        find_none(conn, "SELECT server FROM undo")?;
        Ok(NoOldLogs {})
    }
}

type Heads = (Vec<RoomName>, Vec<VectorRow>);

type Board = (Vec<BookingRow>, Vec<ErrorRow>);

type Cancels = (Vec<CancelledRow>, Vec<CancelRow>);

/// Finds the row of `meta`, if there is one, and that all rows of all tables keep the tables' rules and the limits. If `meta` has a row,
/// the answer is tables with that row, and with all other rows if these are to be kept; if not, without others.
pub fn find_all<S: Alter>(
    conn: &mut Idle<S>,
    alloc: Global,
    keep: bool,
) -> Result<Option<Tables>, Error>
    ensures looks { Looks (state S.Store conn.old) (state S.Store conn.new) result (AreAllFound keep (state S.Store conn.old).now.trees) }
    ensures cause { FailsByStore (λ trees. AreOurRows trees × (length (trees 0) ≤ 1)) (state S.Store conn.old) (state S.Store conn.new) result }
{
    let rows = <((Heads, Vec<LogRow>), (Board, (Cancels, NoOldLogs))) as FoundRows>::find(
        conn, alloc, keep,
    )?;
    match find_meta(conn, 2)? {
        None => Ok(None),
        Some(meta) => Ok(Some(Tables {
            meta,
            room: rows.0.0.0,
            vector: rows.0.0.1,
            log: rows.0.1,
            booking: rows.1.0.0,
            errorlog: rows.1.0.1,
            cancelled: rows.1.1.0.0,
            cancels: rows.1.1.0.1,
        })),
    }
}
