ghost use Rattle.std.specs.Prelude.{◌≡◌, ◌&&◌, bytes_eq, filter, find, map, None, IfOk, IfErr, OnOk, OnErr};
ghost use Rattle.sqlite_disk.specs.Disk.{MoreFaults};
ghost use Rattle.sqlite_trees.specs.View.{IsClean, IsQuiet, KeepsCommitted};
ghost use Rattle.sqlite_exec.specs.Calls.{OnlyReads};
ghost use Rattle.mr_model.specs.Writes.{same_id};
ghost use Rattle.mr_store.specs.Picked.{find_booking, find_error, find_cancelled, IsPlaceOf};
ghost use Rattle.mr_rows.specs.Shown.{AreOurRows};
ghost use Rattle.mr_trees.specs.Trouble.{IsCause};
ghost use Rattle.mr_trees.specs.TreeTables.{tables_shown};

use crate::questions::rows_in;
use crate::rows::RoomRow;
use crate::troubles::Trouble;
use mr_base::{RoomName, WriteId};
use mr_tables::{BookingRow, CancelRow, CancelledRow, ErrorRow, PlaceRow};
use sqlite_trees::store::Store;
use std::alloc::Global;

fn has_id<R: RoomRow>(row: &R, id: WriteId) -> bool
    ensures { result ≡ same_id (R.AskedRow.id_of row.now) id }
{
    row.id_of_write() == id
}

fn keep_with<R: RoomRow>(rows: &mut Vec<R>, id: WriteId)
    ensures { rows.new.items ≡ filter (λ row. same_id (R.AskedRow.id_of row) id) rows.old.items }
{
    rows.retain(|row| has_id(row, id));
}

/// The first of these rows that has the id.
fn first_with<R: RoomRow>(mut rows: Vec<R>, id: WriteId) -> Option<R>
    ensures { result ≡ find (λ row. same_id (R.AskedRow.id_of row) id) rows.items }
{
    keep_with(&mut rows, id);
    if rows.is_empty() {
        return None;
    }
    Some(rows.swap_remove(0))
}

/// The row of a table that has the id, if it is of the room.
fn row_with<R: RoomRow, S: Store>(
    store: &mut S,
    alloc: Global,
    room: &RoomName,
    id: WriteId,
) -> Result<Option<R>, Trouble>
    ensures ok { IfOk result (λ row. IsClean (S.Store.view store.new)
        → find (λ r. same_id (R.AskedRow.id_of r) id && bytes_eq (R.AskedRow.room_of r) room.now) (map R.StoredRow.form.row_in ((S.Store.view store.old).trees R.StoredRow.form.table.tree)) ≡ row) }
    ensures same { OnOk result (IsClean (S.Store.view store.new) → OnlyReads (S.Store.view store.old) (S.Store.view store.new)) }
    ensures err { OnErr result (IsClean (S.Store.view store.new) → KeepsCommitted (S.Store.view store.old) (S.Store.view store.new)) }
    ensures cause { IfErr result (λ e. IsClean (S.Store.view store.new)
        → IsCause (S.Store.view store.old) (MoreFaults (S.Store.faults store.old) (S.Store.faults store.new)) (¬ AreOurRows (S.Store.view store.old).trees) e) }
    ensures quiet { IsQuiet S.Store.view S.Store.faults S.Store.recovers S.Store.is_shielded store.old store.new }
{
    let rows = rows_in(store, alloc, room)?;
    Ok(first_with(rows, id))
}

/// The row of `cancel`, where no other table has one.
fn cancel_at<S: Store>(
    store: &mut S,
    alloc: Global,
    room: &RoomName,
    id: WriteId,
) -> Result<Option<PlaceRow>, Trouble>
    ensures ok { IfOk result (λ row. IsClean (S.Store.view store.new)
        → find_booking room.now id (tables_shown (S.Store.view store.old).trees) ≡ None → find_error room.now id (tables_shown (S.Store.view store.old).trees) ≡ None → find_cancelled room.now id (tables_shown (S.Store.view store.old).trees) ≡ None → IsPlaceOf room.now id (tables_shown (S.Store.view store.old).trees) row) }
    ensures same { OnOk result (IsClean (S.Store.view store.new) → OnlyReads (S.Store.view store.old) (S.Store.view store.new)) }
    ensures err { OnErr result (IsClean (S.Store.view store.new) → KeepsCommitted (S.Store.view store.old) (S.Store.view store.new)) }
    ensures cause { IfErr result (λ e. IsClean (S.Store.view store.new)
        → IsCause (S.Store.view store.old) (MoreFaults (S.Store.faults store.old) (S.Store.faults store.new)) (¬ AreOurRows (S.Store.view store.old).trees) e) }
    ensures quiet { IsQuiet S.Store.view S.Store.faults S.Store.recovers S.Store.is_shielded store.old store.new }
{
    match row_with::<CancelRow, S>(store, alloc, room, id)? {
        Some(row) => Ok(Some(PlaceRow::Cancel(row))),
        None => Ok(None),
    }
}

/// The row of `cancelled` or `cancel`, where no other table has one.
fn cancelled_at<S: Store>(
    store: &mut S,
    alloc: Global,
    room: &RoomName,
    id: WriteId,
) -> Result<Option<PlaceRow>, Trouble>
    ensures ok { IfOk result (λ row. IsClean (S.Store.view store.new)
        → find_booking room.now id (tables_shown (S.Store.view store.old).trees) ≡ None → find_error room.now id (tables_shown (S.Store.view store.old).trees) ≡ None → IsPlaceOf room.now id (tables_shown (S.Store.view store.old).trees) row) }
    ensures same { OnOk result (IsClean (S.Store.view store.new) → OnlyReads (S.Store.view store.old) (S.Store.view store.new)) }
    ensures err { OnErr result (IsClean (S.Store.view store.new) → KeepsCommitted (S.Store.view store.old) (S.Store.view store.new)) }
    ensures cause { IfErr result (λ e. IsClean (S.Store.view store.new)
        → IsCause (S.Store.view store.old) (MoreFaults (S.Store.faults store.old) (S.Store.faults store.new)) (¬ AreOurRows (S.Store.view store.old).trees) e) }
    ensures quiet { IsQuiet S.Store.view S.Store.faults S.Store.recovers S.Store.is_shielded store.old store.new }
{
    match row_with::<CancelledRow, S>(store, alloc, room, id)? {
        Some(row) => Ok(Some(PlaceRow::Cancelled(row))),
        None => cancel_at(store, alloc, room, id),
    }
}

/// The row of a table other than `booking`, which has none.
fn logged_at<S: Store>(
    store: &mut S,
    alloc: Global,
    room: &RoomName,
    id: WriteId,
) -> Result<Option<PlaceRow>, Trouble>
    ensures ok { IfOk result (λ row. IsClean (S.Store.view store.new)
        → find_booking room.now id (tables_shown (S.Store.view store.old).trees) ≡ None → IsPlaceOf room.now id (tables_shown (S.Store.view store.old).trees) row) }
    ensures same { OnOk result (IsClean (S.Store.view store.new) → OnlyReads (S.Store.view store.old) (S.Store.view store.new)) }
    ensures err { OnErr result (IsClean (S.Store.view store.new) → KeepsCommitted (S.Store.view store.old) (S.Store.view store.new)) }
    ensures cause { IfErr result (λ e. IsClean (S.Store.view store.new)
        → IsCause (S.Store.view store.old) (MoreFaults (S.Store.faults store.old) (S.Store.faults store.new)) (¬ AreOurRows (S.Store.view store.old).trees) e) }
    ensures quiet { IsQuiet S.Store.view S.Store.faults S.Store.recovers S.Store.is_shielded store.old store.new }
{
    match row_with::<ErrorRow, S>(store, alloc, room, id)? {
        Some(row) => Ok(Some(PlaceRow::Logged(row))),
        None => cancelled_at(store, alloc, room, id),
    }
}

/// The row of the write with this id, if it is of that room.
pub(crate) fn place_of<S: Store>(
    store: &mut S,
    alloc: Global,
    room: &RoomName,
    id: WriteId,
) -> Result<Option<PlaceRow>, Trouble>
    ensures ok { IfOk result (λ row. IsClean (S.Store.view store.new)
        → IsPlaceOf room.now id (tables_shown (S.Store.view store.old).trees) row) }
    ensures same { OnOk result (IsClean (S.Store.view store.new) → OnlyReads (S.Store.view store.old) (S.Store.view store.new)) }
    ensures err { OnErr result (IsClean (S.Store.view store.new) → KeepsCommitted (S.Store.view store.old) (S.Store.view store.new)) }
    ensures cause { IfErr result (λ e. IsClean (S.Store.view store.new)
        → IsCause (S.Store.view store.old) (MoreFaults (S.Store.faults store.old) (S.Store.faults store.new)) (¬ AreOurRows (S.Store.view store.old).trees) e) }
    ensures quiet { IsQuiet S.Store.view S.Store.faults S.Store.recovers S.Store.is_shielded store.old store.new }
{
    match row_with::<BookingRow, S>(store, alloc, room, id)? {
        Some(row) => Ok(Some(PlaceRow::Booked(row))),
        None => logged_at(store, alloc, room, id),
    }
}
