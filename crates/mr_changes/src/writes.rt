ghost use Rattle.std.specs.Prelude.{◌≡◌, ◌∷◌, [], IfOk, OnOk, IsTrue};
ghost use Rattle.sqlite_value.specs.declared.value.Value.TheVariants.{Int};
ghost use Rattle.sqlite_trees.specs.View.{IsClean};
ghost use Rattle.mr_rows.specs.Database.{tables_in};
ghost use Rattle.mr_rows.specs.TableSteps.{rows_put, rows_taken};
ghost use Rattle.mr_changes.specs.Fit.{IsFit};
ghost use Rattle.mr_changes.specs.Found.{IsPlaceFor};
ghost use Rattle.mr_changes.specs.Steps.{IsStoreStep, Makes};

use crate::finds::{find, place_of};
use crate::key_indexes::indexes;
use crate::placed::{IdRow, PlacedRow, put_id};
use mr_base::WriteId;
use mr_rows::StoredRow;
use mr_rows::columns::Cells;
use sqlite::{Error, ErrorCode};
use sqlite_exec::work::Workspace;
use sqlite_exec::write;
use sqlite_schema::code::lend_value;
use sqlite_trees::error::StoreError;
use sqlite_trees::store::Store;
use sqlite_value::row::Row;
use sqlite_value::value::{Value, ValueRef};
use std::alloc::{AllocError, Global};

/// A rowid, and these cells behind it.
fn behind(alloc: Global, id: i64, cells: &[Value]) -> Result<Row, AllocError>
    ensures { IfOk result (λ row. row ≡ Int id ∷ cells.now) }
{
    let mut row = Row::new(alloc);
    row.push(ValueRef::Int(id))?;
    'cells: for cell in cells {
        row.push(lend_value(cell))?;
    }
    Ok(row)
}

/// Why a row has no cells: there was no memory, or one of its numbers is out of the range of a column.
fn of_cells(error: Error) -> StoreError {
    if error == Error::SqliteFailure(ErrorCode::OutOfMemory) {
        return StoreError::OutOfMemory;
    }
    StoreError::Unstorable
}

/// The row as the tree has it, and it is read back so.
fn make_stored<R: StoredRow>(alloc: Global, row: &R, id: i64) -> Result<Row, StoreError>
    ensures stored { IfOk result (λ stored. stored ≡ Int id ∷ R.form.cells row.now) }
    ensures back { OnOk result (R.form.row_in (Int id ∷ R.form.cells row.now) ≡ row.now) }
{
    let mut cells = Vec::new(alloc);
    let parts = row.copied(alloc)?.parts();
    match parts.add(alloc, &mut cells) {
        Ok(()) => Ok(behind(alloc, id, &cells)?),
        Err(error) => Err(of_cells(error)),
    }
}

/// Puts the row at this rowid, which is that of its key.
fn put_at<R: PlacedRow, S: Store>(
    store: &mut S,
    work: &mut Workspace,
    alloc: Global,
    row: &R,
    id: i64,
) -> Result<(), StoreError>
    requires fit { IsClean (S.Store.view store.old) → IsFit (S.Store.view store.old) }
    ensures put { OnOk result (IsClean (S.Store.view store.new)
        → IsPlaceFor R.StoredRow.form (R.StoredRow.form.key row.now) ((S.Store.view store.old).trees R.StoredRow.form.table.tree) id
        → Makes (S.Store.view store.old) (S.Store.view store.new) (rows_put R.StoredRow.form R.OurRow.rows_of R.OurRow.with_rows (row.now ∷ []) (tables_in (S.Store.view store.old).trees))) }
    ensures step { IsStoreStep S.Store store.old store.new }
{
    let stored = make_stored(alloc, row, id)?;
    write::put(store, work, indexes(), R::table(), &stored)
}

/// Puts the row in place of the one with its key, if there is one.
pub(crate) fn put_row<R: PlacedRow, S: Store>(
    store: &mut S,
    work: &mut Workspace,
    alloc: Global,
    row: &R,
) -> Result<(), StoreError>
    requires fit { IsClean (S.Store.view store.old) → IsFit (S.Store.view store.old) }
    ensures put { OnOk result (IsClean (S.Store.view store.new)
        → Makes (S.Store.view store.old) (S.Store.view store.new) (rows_put R.StoredRow.form R.OurRow.rows_of R.OurRow.with_rows (row.now ∷ []) (tables_in (S.Store.view store.old).trees))) }
    ensures step { IsStoreStep S.Store store.old store.new }
{
    let id = place_of(store, alloc, row)?;
    put_at(store, work, alloc, row, id)
}

/// Takes the row with the id away, if there is one.
pub(crate) fn take_row<R: IdRow, S: Store>(
    store: &mut S,
    work: &mut Workspace,
    alloc: Global,
    id: WriteId,
) -> Result<(), StoreError>
    requires fit { IsClean (S.Store.view store.old) → IsFit (S.Store.view store.old) }
    ensures taken { OnOk result (IsClean (S.Store.view store.new)
        → Makes (S.Store.view store.old) (S.Store.view store.new) (rows_taken R.id_of R.OurRow.rows_of R.OurRow.with_rows (id ∷ []) (tables_in (S.Store.view store.old).trees))) }
    ensures step { IsStoreStep S.Store store.old store.new }
{
    let mut key = Row::new(alloc);
    put_id(id, &mut key)?;
    let mut entry = Row::new(alloc);
    match find::<R, S>(store, &key, &mut entry)? {
        Some(rowid) => write::delete(store, work, indexes(), R::table(), rowid),
        None => Ok(()),
    }
}
