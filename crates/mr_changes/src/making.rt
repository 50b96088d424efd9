ghost use Rattle.std.specs.Prelude.{◌≡◌, OnOk};
ghost use Rattle.sqlite_trees.specs.View.{IsClean};
ghost use Rattle.mr_rows.specs.Database.{tables_in};
ghost use Rattle.mr_rows.specs.TableSteps.{rows_put as rows_in, rows_taken as rows_gone};
ghost use Rattle.mr_rows.specs.ChangeParts.{board_taken, change_taken, heads_put, board_put, cancels_put, change_put, rows_made};
ghost use Rattle.mr_changes.specs.Fit.{IsFit};
ghost use Rattle.mr_changes.specs.Steps.{IsStoreStep, Makes};

use crate::meta::put_meta;
use crate::placed::{IdRow, PlacedRow};
use crate::writes::{put_row, take_row};
use mr_base::{RoomName, WriteId};
use mr_tables::{BookingRow, CancelRow, CancelledRow, Change, ErrorRow, LogRow, VectorRow};
use sqlite_exec::work::Workspace;
use sqlite_trees::error::StoreError;
use sqlite_trees::store::Store;
use std::alloc::Global;

/// Takes away the rows of these ids.
fn take_all<R: IdRow, S: Store>(
    store: &mut S,
    work: &mut Workspace,
    alloc: Global,
    gone: &[WriteId],
) -> Result<(), StoreError>
    requires fit { IsClean (S.Store.view store.old) → IsFit (S.Store.view store.old) }
    ensures made { OnOk result (IsClean (S.Store.view store.new) → Makes (S.Store.view store.old) (S.Store.view store.new) (rows_gone R.id_of R.OurRow.rows_of R.OurRow.with_rows gone.now (tables_in (S.Store.view store.old).trees))) }
    ensures step { IsStoreStep S.Store store.old store.new }
{
    'gone: for id in gone {
        take_row::<R, S>(store, work, alloc, *id)?;
    }
    Ok(())
}

/// Puts the rows, one after the other.
fn put_all<R: PlacedRow, S: Store>(
    store: &mut S,
    work: &mut Workspace,
    alloc: Global,
    rows: &[R],
) -> Result<(), StoreError>
    requires fit { IsClean (S.Store.view store.old) → IsFit (S.Store.view store.old) }
    ensures made { OnOk result (IsClean (S.Store.view store.new) → Makes (S.Store.view store.old) (S.Store.view store.new) (rows_in R.StoredRow.form R.OurRow.rows_of R.OurRow.with_rows rows.now (tables_in (S.Store.view store.old).trees))) }
    ensures step { IsStoreStep S.Store store.old store.new }
{
    'rows: for row in rows {
        put_row(store, work, alloc, row)?;
    }
    Ok(())
}

/// Takes rows away from both tables of a board.
fn take_from_board<S: Store>(
    store: &mut S,
    work: &mut Workspace,
    alloc: Global,
    change: &Change,
) -> Result<(), StoreError>
    requires fit { IsClean (S.Store.view store.old) → IsFit (S.Store.view store.old) }
    ensures made { OnOk result (IsClean (S.Store.view store.new) → Makes (S.Store.view store.old) (S.Store.view store.new) (board_taken change.now (tables_in (S.Store.view store.old).trees))) }
    ensures step { IsStoreStep S.Store store.old store.new }
{
    take_all::<BookingRow, S>(store, work, alloc, &change.unbooked)?;
    take_all::<ErrorRow, S>(store, work, alloc, &change.unlogged)
}

/// Takes the rows away.
fn take_rows<S: Store>(
    store: &mut S,
    work: &mut Workspace,
    alloc: Global,
    change: &Change,
) -> Result<(), StoreError>
    requires fit { IsClean (S.Store.view store.old) → IsFit (S.Store.view store.old) }
    ensures made { OnOk result (IsClean (S.Store.view store.new) → Makes (S.Store.view store.old) (S.Store.view store.new) (change_taken change.now (tables_in (S.Store.view store.old).trees))) }
    ensures step { IsStoreStep S.Store store.old store.new }
{
    take_all::<LogRow, S>(store, work, alloc, &change.dropped)?;
    take_from_board(store, work, alloc, change)?;
    take_all::<CancelledRow, S>(store, work, alloc, &change.uncancelled)
}

/// Puts rows into both tables of a board.
fn put_into_board<S: Store>(
    store: &mut S,
    work: &mut Workspace,
    alloc: Global,
    change: &Change,
) -> Result<(), StoreError>
    requires fit { IsClean (S.Store.view store.old) → IsFit (S.Store.view store.old) }
    ensures made { OnOk result (IsClean (S.Store.view store.new) → Makes (S.Store.view store.old) (S.Store.view store.new) (board_put change.now (tables_in (S.Store.view store.old).trees))) }
    ensures step { IsStoreStep S.Store store.old store.new }
{
    put_all::<BookingRow, S>(store, work, alloc, &change.booking)?;
    put_all::<ErrorRow, S>(store, work, alloc, &change.errorlog)
}

/// Puts rows into both tables that cancels fill.
fn put_into_cancels<S: Store>(
    store: &mut S,
    work: &mut Workspace,
    alloc: Global,
    change: &Change,
) -> Result<(), StoreError>
    requires fit { IsClean (S.Store.view store.old) → IsFit (S.Store.view store.old) }
    ensures made { OnOk result (IsClean (S.Store.view store.new) → Makes (S.Store.view store.old) (S.Store.view store.new) (cancels_put change.now (tables_in (S.Store.view store.old).trees))) }
    ensures step { IsStoreStep S.Store store.old store.new }
{
    put_all::<CancelledRow, S>(store, work, alloc, &change.cancelled)?;
    put_all::<CancelRow, S>(store, work, alloc, &change.cancels)
}

/// Puts the rows of the log, of the board and of cancels.
fn put_rows<S: Store>(
    store: &mut S,
    work: &mut Workspace,
    alloc: Global,
    change: &Change,
) -> Result<(), StoreError>
    requires fit { IsClean (S.Store.view store.old) → IsFit (S.Store.view store.old) }
    ensures made { OnOk result (IsClean (S.Store.view store.new) → Makes (S.Store.view store.old) (S.Store.view store.new) (change_put change.now (tables_in (S.Store.view store.old).trees))) }
    ensures step { IsStoreStep S.Store store.old store.new }
{
    put_all::<LogRow, S>(store, work, alloc, &change.log)?;
    put_into_board(store, work, alloc, change)?;
    put_into_cancels(store, work, alloc, change)
}

/// Puts the numbers of the replica, rooms and rows of the vector.
pub(crate) fn put_heads<S: Store>(
    store: &mut S,
    work: &mut Workspace,
    alloc: Global,
    change: &Change,
) -> Result<(), StoreError>
    requires fit { IsClean (S.Store.view store.old) → IsFit (S.Store.view store.old) }
    ensures made { OnOk result (IsClean (S.Store.view store.new) → Makes (S.Store.view store.old) (S.Store.view store.new) (heads_put change.now (tables_in (S.Store.view store.old).trees))) }
    ensures step { IsStoreStep S.Store store.old store.new }
{
    put_meta(store, work, alloc, &change.meta)?;
    put_all::<RoomName, S>(store, work, alloc, &change.room)?;
    put_all::<VectorRow, S>(store, work, alloc, &change.vector)
}

/// Takes the rows away, and then puts the rows, all but the heads.
pub(crate) fn make_rows<S: Store>(
    store: &mut S,
    work: &mut Workspace,
    alloc: Global,
    change: &Change,
) -> Result<(), StoreError>
    requires fit { IsClean (S.Store.view store.old) → IsFit (S.Store.view store.old) }
    ensures made { OnOk result (IsClean (S.Store.view store.new) → Makes (S.Store.view store.old) (S.Store.view store.new) (rows_made change.now (tables_in (S.Store.view store.old).trees))) }
    ensures step { IsStoreStep S.Store store.old store.new }
{
    take_rows(store, work, alloc, change)?;
    put_rows(store, work, alloc, change)
}
