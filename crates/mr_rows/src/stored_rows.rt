ghost use Rattle.std.specs.Prelude.{◌≡◌, ◌≢◌, [], ◌∷◌, ◌++◌, length, map, List, IfOk, IfErr, OnOk, IsTrue};
ghost use Rattle.std.specs.List.{All};
ghost use Rattle.sqlite_value.specs.declared.value.Value.TheVariants.{Null};
ghost use Rattle.sqlite_value.specs.Order.{Row as Cells};
ghost use Rattle.sqlite_schema.specs.declared.schema.Schema.{Schema};
ghost use Rattle.sqlite.specs.State.{Survives};
ghost use Rattle.sqlite.specs.Held.{state};
ghost use Rattle.mr_model.specs.Writes.{Id};
ghost use Rattle.mr_model.specs.Tables.{Tables};
ghost use Rattle.mr_tables.specs.TableOrders.{IsOrder};
ghost use Rattle.mr_rows.specs.Form.{Form};
ghost use Rattle.mr_rows.specs.Shown.{columns_from, IsShownAs};
ghost use Rattle.mr_rows.specs.Schema.{our_schema};
ghost use Rattle.mr_rows.specs.Database.{AreHeld, tables_in};
ghost use Rattle.mr_rows.specs.TableSteps.{PutsRow, TakesRow, IsTableOf};
ghost use Rattle.mr_rows.specs.Causes.{AsksAll};
ghost use Rattle.mr_rows.specs.Facts.{Puts, Takes};
ghost use Rattle.mr_rows.specs.MadeRows.{IsMade};

use crate::cells::passes;
use crate::columns::Cells;
use crate::params_of::lent;
use mr_base::WriteId;
use mr_tables::TableRow;
use sqlite::{Alter, Error, ErrorCode, Row, Transaction, params};
use std::alloc::Global;

/// The text that asks for all rows of a table, and the one that puts a row.
#[derive(Clone, Copy, Debug)]
pub struct RowTexts {
    pub all: &'static str,
    pub put: &'static str,
}

/// A row of a table that a database keeps, with one row for each key.
pub trait StoredRow: TableRow {
    // by which no two rows of the table are alike
    ghost Key: { Type 0 };

    // the table, its cells and its keys
    ghost form: { Form Self Key };

    // which schemas have the table
    ghost stands_in: { Schema → Type 0 };

    /// What statements on the table say.
    fn texts() -> RowTexts
        ensures asks { (under : Schema) → stands_in under → AsksAll under form.table.tree (length form.table.columns) result.all.now }
        ensures puts { (under : Schema) → stands_in under → Puts under form result.put.now };

    /// The values of the columns, in the order of the table.
    type Parts: Cells;

    ghost of: { Self.Parts → Self };

    /// The row of these values.
    fn of(parts: Self::Parts) -> Self
        ensures { result ≡ of parts };

    /// The values of the row.
    fn parts(self) -> Self::Parts
        ensures { self ≡ of result };

    // of which the row is made
    ghost made: { IsMade form Self.Parts.columns of };

    ghost order: { IsOrder Key form.before };

    // which is that of the rows
    ghost ordered: { (a b : Self) → Self.TableRow.before (Self.TableRow.key a) (Self.TableRow.key b) ≡ form.before (form.key a) (form.key b) };
}

/// A row of a table of ours.
pub trait OurRow: StoredRow {
    ghost rows_of: { Tables → List Self };

    ghost with_rows: { List Self → Tables → Tables };

    ghost is_ours: { IsTableOf AreHeld tables_in Self.StoredRow.form rows_of with_rows };

    ghost stands: { Self.StoredRow.stands_in our_schema };
}

/// A row of a table that has one row for each request.
pub(crate) trait RequestRow: OurRow {
    ghost id_of: { Self → Id };

    /// The text that takes the row with an id away.
    fn taking() -> &'static str
        ensures { Takes Self.form id_of result.now };
}

/// Reads a row that a query shows, with the columns in the order of the table.
pub fn read_row<R: StoredRow>(alloc: Global, row: &Row) -> Result<R, Error>
    ensures row { IfOk result (λ r. r ≡ R.form.row_in (Null ∷ row.now)) }
    ensures cells { IfOk result (λ r. R.form.cells r ≡ columns_from 0 (length R.form.table.columns) row.now) }
    ensures within { IfOk result (λ r. IsTrue (R.form.within r)) }
    ensures refused { IfErr result (λ e. e ≢ Error.SqliteFailure ErrorCode.OutOfMemory → ¬ IsShownAs R.form row.now) }
{
    let parts = R::Parts::read(alloc, row, 0)?;
    Ok(R::of(parts))
}

/// Reads a row that a query shows, and puts it behind those that are there.
pub(crate) fn add_row<R: StoredRow>(alloc: Global, row: &Row, out: &mut Vec<R>) -> Result<(), Error>
    ensures added { OnOk result (out.new.items ≡ out.old.items ++ R.form.row_in (Null ∷ row.now) ∷ []) }
    ensures shown { OnOk result (IsShownAs R.form row.now) }
    ensures refused { IfErr result (λ e. e ≢ Error.SqliteFailure ErrorCode.OutOfMemory → ¬ IsShownAs R.form row.now) }
{
    out.push(read_row(alloc, row)?)?;
    Ok(())
}

/// Tests a row that a query shows, as `read_row` does, and makes nothing of it.
pub fn test_row<R: StoredRow>(row: &Row) -> Result<(), Error>
    ensures passes { OnOk result (IsShownAs R.form row.now) }
    ensures refused { IfErr result (λ _. ¬ IsShownAs R.form row.now) }
{
    passes(R::Parts::has(row, 0))
}

/// Puts the row in place of the one with its key, if there is one.
pub fn put_row<R: StoredRow, S: Alter>(
    tx: &mut Transaction<'_, S>,
    alloc: Global,
    row: &R,
) -> Result<usize, Error>
    ensures same_reference { tx.new.conn.ghost_name ≡ tx.old.conn.ghost_name }
    ensures put { PutsRow R.stands_in R.form row.now (state S.Store tx.old.conn.now) (state S.Store tx.new.conn.now) result }
    ensures survives { Survives (state S.Store tx.old.conn.now) (state S.Store tx.new.conn.now) (λ _. ⊥) }
{
    let mut cells = Vec::new(alloc);
    row.copied(alloc)?.parts().add(alloc, &mut cells)?;
    let params = lent(alloc, &cells)?;
    tx.execute(R::texts().put, &params)
}

/// Takes the row with the id away, if there is one.
pub(crate) fn take_by_id<R: RequestRow, S: Alter>(
    tx: &mut Transaction<'_, S>,
    id: WriteId,
) -> Result<usize, Error>
    ensures same_reference { tx.new.conn.ghost_name ≡ tx.old.conn.ghost_name }
    ensures taken { TakesRow our_schema R.form R.id_of id (state S.Store tx.old.conn.now) (state S.Store tx.new.conn.now) result }
    ensures survives { Survives (state S.Store tx.old.conn.now) (state S.Store tx.new.conn.now) (λ _. ⊥) }
{
    tx.execute(R::taking(), params![id.server.number(), id.n])
}

/// The rows of an answer, in its order.
pub fn read_all<R: StoredRow>(alloc: Global, rows: &[Row]) -> Result<Vec<R>, Error>
    ensures same { IfOk result (λ out. out.items ≡ map (λ row. R.form.row_in (Null ∷ row)) rows.now) }
    ensures refused { IfErr result (λ e. e ≢ Error.SqliteFailure ErrorCode.OutOfMemory → ¬ All (IsShownAs R.form) rows.now) }
{
    let mut out = Vec::new(alloc);
    'rows: for row in rows {
        add_row(alloc, row, &mut out)?;
    }
    Ok(out)
}
