//! Every row of a copy is tested by itself, and each key of a table against its index, as the kit's own open does it by SQL.

ghost use Rattle.std.specs.Prelude.{◌≡◌, ◌<◌, [], OnOk};
ghost use Rattle.sqlite_trees.specs.View.{IsClean, IsQuiet};
ghost use Rattle.sqlite_exec.specs.Calls.{OnlyReads};
ghost use Rattle.mr_rows.specs.Shown.{IsStoredAs, AreStoredAs};
ghost use Rattle.mr_trees.specs.Tested.{WritesAreTested, FatesAreTested};

use crate::entries::{Entry, IdEntry, are_apart, has_just, sort_entries};
use crate::rows::TreeRow;
use crate::troubles::Trouble;
use mr_base::RoomName;
use mr_rows::columns::Cells;
use mr_tables::{BookingRow, CancelRow, CancelledRow, ErrorRow, LogRow, VectorRow};
use sqlite_exec::work::FromRow;
use sqlite_trees::store::{Direction, Store};
use sqlite_value::row::Row;
use std::alloc::Global;

/// Tests a row as the tree has it, with the rowid in front. Nothing is made of it.
fn test_stored<R: TreeRow>(alloc: Global, row: &Row) -> Result<(), Trouble>
    ensures { OnOk result (IsStoredAs R.StoredRow.form row.now) }
{
    let copy = match <sqlite::Row as FromRow>::from_row(alloc, row) {
        Ok(copy) => copy,
        Err(_) => return Err(Trouble::OutOfMemory),
    };
    if row.len() == R::Parts::width() + 1 && R::Parts::has(&copy, 1) {
        Ok(())
    } else {
        Err(Trouble::Rows)
    }
}

/// Tests all rows of a table, whose key begins in this column, and answers what its index has to have of them, in the order of the table.
fn entries_of<R: TreeRow, E: Entry, S: Store>(
    store: &mut S,
    alloc: Global,
    at: usize,
) -> Result<Vec<E>, Trouble>
    requires at { at < 100 }
    ensures stored { OnOk result (IsClean (S.Store.view store.new) → AreStoredAs R.StoredRow.form (S.Store.view store.old).trees) }
    ensures same { OnOk result (IsClean (S.Store.view store.new) → OnlyReads (S.Store.view store.old) (S.Store.view store.new)) }
    ensures quiet { IsQuiet S.Store.view S.Store.faults S.Store.recovers S.Store.is_shielded store.old store.new }
{
    let mut row = Row::new(alloc);
    store.seek(0, R::tree(), &row, Direction::Forward)?;
    let mut entries = Vec::new(alloc);
    'rows: for _ in 0..u64::MAX {
        if !store.next(0, &mut row)? {
            return Ok(entries);
        }
        test_stored::<R>(alloc, &row)?;
        entries.push(E::of(alloc, &row, at)?)?;
    }
    // No sound store has this many entries.
    Err(Trouble::OutOfMemory)
}

/// Tests all rows of a table, whose key begins in this column, and its index: no two rows have one key.
fn test_table<R: TreeRow, E: Entry, S: Store>(
    store: &mut S,
    alloc: Global,
    index: u32,
    at: usize,
) -> Result<(), Trouble>
    requires at { at < 100 }
    ensures stored { OnOk result (IsClean (S.Store.view store.new) → AreStoredAs R.StoredRow.form (S.Store.view store.old).trees) }
    ensures same { OnOk result (IsClean (S.Store.view store.new) → OnlyReads (S.Store.view store.old) (S.Store.view store.new)) }
    ensures quiet { IsQuiet S.Store.view S.Store.faults S.Store.recovers S.Store.is_shielded store.old store.new }
{
    let mut entries = entries_of::<R, E, S>(store, alloc, at)?;
    sort_entries(&mut entries)?;
    if are_apart(&entries) && has_just(store, alloc, index, &entries)? {
        Ok(())
    } else {
        Err(Trouble::Rows)
    }
}

/// Tests that the index of `meta` has an entry of its first row, and no other.
fn test_meta_index<S: Store>(store: &mut S, alloc: Global) -> Result<(), Trouble>
    ensures same { OnOk result (IsClean (S.Store.view store.new) → OnlyReads (S.Store.view store.old) (S.Store.view store.new)) }
    ensures quiet { IsQuiet S.Store.view S.Store.faults S.Store.recovers S.Store.is_shielded store.old store.new }
{
    let mut row = Row::new(alloc);
    store.seek(0, 0, &row, Direction::Forward)?;
    if !store.next(0, &mut row)? || row.len() != 8 {
        return Err(Trouble::Rows);
    }
    let mut entries: Vec<Row> = Vec::new(alloc);
    entries.push(Entry::of(alloc, &row, 1)?)?;
    if has_just(store, alloc, 1, &entries)? {
        Ok(())
    } else {
        Err(Trouble::Rows)
    }
}

/// That a tree has no entry.
fn test_none<S: Store>(store: &mut S, alloc: Global, tree: u32) -> Result<(), Trouble>
    ensures none { OnOk result (IsClean (S.Store.view store.new) → (S.Store.view store.old).trees tree ≡ []) }
    ensures same { OnOk result (IsClean (S.Store.view store.new) → OnlyReads (S.Store.view store.old) (S.Store.view store.new)) }
    ensures quiet { IsQuiet S.Store.view S.Store.faults S.Store.recovers S.Store.is_shielded store.old store.new }
{
    let mut row = Row::new(alloc);
    store.seek(0, tree, &row, Direction::Forward)?;
    if store.next(0, &mut row)? {
        return Err(Trouble::Rows);
    }
    Ok(())
}

/// Tests that nothing is left of the first schema's logs.
fn test_old_logs<S: Store>(store: &mut S, alloc: Global) -> Result<(), Trouble>
    ensures none { OnOk result (IsClean (S.Store.view store.new) → ((S.Store.view store.old).trees 6 ≡ []) × ((S.Store.view store.old).trees 8 ≡ [])) }
    ensures same { OnOk result (IsClean (S.Store.view store.new) → OnlyReads (S.Store.view store.old) (S.Store.view store.new)) }
    ensures quiet { IsQuiet S.Store.view S.Store.faults S.Store.recovers S.Store.is_shielded store.old store.new }
{
    test_none(store, alloc, 6)?;
    test_none(store, alloc, 7)?;
    test_none(store, alloc, 8)?;
    test_none(store, alloc, 9)
}

/// Tests `room`, `vector` and `log`, and that nothing is left of the first schema's logs.
fn test_writes<S: Store>(store: &mut S, alloc: Global) -> Result<(), Trouble>
    ensures tested { OnOk result (IsClean (S.Store.view store.new) → WritesAreTested (S.Store.view store.old).trees) }
    ensures same { OnOk result (IsClean (S.Store.view store.new) → OnlyReads (S.Store.view store.old) (S.Store.view store.new)) }
    ensures quiet { IsQuiet S.Store.view S.Store.faults S.Store.recovers S.Store.is_shielded store.old store.new }
{
    test_table::<RoomName, Row, S>(store, alloc, 3, 1)?;
    test_table::<VectorRow, Row, S>(store, alloc, 5, 1)?;
    test_table::<LogRow, IdEntry, S>(store, alloc, 15, 1)?;
    test_old_logs(store, alloc)
}

/// Tests the tables of what became of writes.
fn test_fates<S: Store>(store: &mut S, alloc: Global) -> Result<(), Trouble>
    ensures tested { OnOk result (IsClean (S.Store.view store.new) → FatesAreTested (S.Store.view store.old).trees) }
    ensures same { OnOk result (IsClean (S.Store.view store.new) → OnlyReads (S.Store.view store.old) (S.Store.view store.new)) }
    ensures quiet { IsQuiet S.Store.view S.Store.faults S.Store.recovers S.Store.is_shielded store.old store.new }
{
    test_table::<BookingRow, IdEntry, S>(store, alloc, 11, 5)?;
    test_table::<ErrorRow, IdEntry, S>(store, alloc, 13, 5)?;
    test_table::<CancelledRow, IdEntry, S>(store, alloc, 17, 5)?;
    test_table::<CancelRow, IdEntry, S>(store, alloc, 19, 1)
}

/// Tests all tables, and the index of `meta`, but not the row of `meta`.
pub(crate) fn test_all<S: Store>(store: &mut S, alloc: Global) -> Result<(), Trouble>
    ensures writes { OnOk result (IsClean (S.Store.view store.new) → WritesAreTested (S.Store.view store.old).trees) }
    ensures fates { OnOk result (IsClean (S.Store.view store.new) → FatesAreTested (S.Store.view store.old).trees) }
    ensures same { OnOk result (IsClean (S.Store.view store.new) → OnlyReads (S.Store.view store.old) (S.Store.view store.new)) }
    ensures quiet { IsQuiet S.Store.view S.Store.faults S.Store.recovers S.Store.is_shielded store.old store.new }
{
    test_meta_index(store, alloc)?;
    test_writes(store, alloc)?;
    test_fates(store, alloc)
}
