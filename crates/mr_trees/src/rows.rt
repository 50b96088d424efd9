ghost use Rattle.std.specs.Prelude.{◌≡◌, [], ◌∷◌, ◌++◌, ℕ, true, nat_le, length, filter, map, bytes_eq, IfOk, IfErr, OnOk};
ghost use Rattle.std.proofs.Common.{refl};
ghost use Rattle.sqlite_value.specs.Order.{Row as Cells, column, bytes};
ghost use Rattle.sqlite_trees.specs.Tree.{Trees};
ghost use Rattle.mr_rows.specs.Shown.{IsStoredAs, AreStoredAs, AreOurRows};
ghost use Rattle.mr_trees.specs.Trouble.{IsOfRow};
ghost use Rattle.mr_trees.specs.Scanned.{picks};

use crate::troubles::{Trouble, of_cells};
use mr_base::{RoomName, WriteId};
use mr_rows::StoredRow;
use mr_rows::asked_rows::AskedRow;
use mr_rows::columns::Cells;
use mr_tables::{BookingRow, CancelRow, CancelledRow, ErrorRow, LogRow, VectorRow};
use sqlite_exec::work::FromRow;
use sqlite_value::row::Row;
use sqlite_value::value::ValueRef;
use std::alloc::Global;

/// Which rows of a table are read.
#[derive(Clone, Copy, Debug)]
pub enum Picked<'a> {
    All,
    /// Those with the room's name in this column.
    OfRoom(usize, &'a RoomName),
}

/// A row of a table that lies in a tree.
pub trait TreeRow: StoredRow {
    /// The number of the tree.
    fn tree() -> u32
        ensures { result ≡ Self.StoredRow.form.table.tree };

    ghost among: { (trees : Trees) → AreOurRows trees → AreStoredAs Self.StoredRow.form trees };

    // there is room for the rowid in front
    ghost narrow: { nat_le (length Self.StoredRow.form.table.columns) 99 ≡ true };
}

/// A row of a write of a room.
pub trait RoomRow: AskedRow + TreeRow {
    ghost room_at: { ℕ };

    /// The column of the room.
    fn room_column() -> usize
        ensures { result ≡ room_at };

    /// The id of its write.
    fn id_of_write(&self) -> WriteId
        ensures { result ≡ Self.AskedRow.id_of self.now };

    ghost roomed: { (r : Cells) → Self.AskedRow.room_of (Self.StoredRow.form.row_in r) ≡ bytes (column r room_at) };
}

impl TreeRow for RoomName {
    fn tree() -> u32 {
        2
    }

    ghost among = { λ trees rows. rows.room };

    ghost narrow = { refl };
}

impl TreeRow for VectorRow {
    fn tree() -> u32 {
        4
    }

    ghost among = { λ trees rows. rows.vector };

    ghost narrow = { refl };
}

impl TreeRow for LogRow {
    fn tree() -> u32 {
        14
    }

    ghost among = { λ trees rows. rows.log };

    ghost narrow = { refl };
}

impl TreeRow for BookingRow {
    fn tree() -> u32 {
        10
    }

    ghost among = { λ trees rows. rows.booking };

    ghost narrow = { refl };
}

impl TreeRow for ErrorRow {
    fn tree() -> u32 {
        12
    }

    ghost among = { λ trees rows. rows.errorlog };

    ghost narrow = { refl };
}

impl TreeRow for CancelledRow {
    fn tree() -> u32 {
        16
    }

    ghost among = { λ trees rows. rows.cancelled };

    ghost narrow = { refl };
}

impl TreeRow for CancelRow {
    fn tree() -> u32 {
        18
    }

    ghost among = { λ trees rows. rows.cancels };

    ghost narrow = { refl };
}

impl RoomRow for BookingRow {
    ghost room_at = { 1 };

    fn room_column() -> usize {
        1
    }

    fn id_of_write(&self) -> WriteId {
        self.id()
    }

    ghost roomed = { λ r. refl };
}

impl RoomRow for ErrorRow {
    ghost room_at = { 1 };

    fn room_column() -> usize {
        1
    }

    fn id_of_write(&self) -> WriteId {
        self.id()
    }

    ghost roomed = { λ r. refl };
}

impl RoomRow for CancelledRow {
    ghost room_at = { 1 };

    fn room_column() -> usize {
        1
    }

    fn id_of_write(&self) -> WriteId {
        self.id()
    }

    ghost roomed = { λ r. refl };
}

impl RoomRow for CancelRow {
    ghost room_at = { 3 };

    fn room_column() -> usize {
        3
    }

    fn id_of_write(&self) -> WriteId {
        self.id()
    }

    ghost roomed = { λ r. refl };
}

/// Reads a row as the tree has it, with the rowid in front.
pub(crate) fn read_stored<R: TreeRow>(alloc: Global, row: &Row) -> Result<R, Trouble>
    ensures row { IfOk result (λ r. r ≡ R.StoredRow.form.row_in row.now) }
    ensures refused { IfErr result (IsOfRow (¬ IsStoredAs R.StoredRow.form row.now)) }
{
    let copy = match <sqlite::Row as FromRow>::from_row(alloc, row) {
        Ok(copy) => copy,
        Err(_) => return Err(Trouble::OutOfMemory),
    };
    match R::Parts::read(alloc, &copy, 1) {
        Ok(parts) => Ok(R::of(parts)),
        Err(error) => Err(of_cells(error)),
    }
}

/// Whether a column has these bytes.
fn has(row: &Row, at: usize, text: &str) -> bool
    ensures { result ≡ bytes_eq (bytes (column row.now at)) text.now }
{
    match row.get(at) {
        ValueRef::Text(bytes) => bytes == text.as_bytes(),
        ValueRef::Blob(bytes) => bytes == text.as_bytes(),
        _ => text.is_empty(),
    }
}

fn is_picked(row: &Row, picked: Picked<'_>) -> bool
    ensures { result ≡ picks picked.entry row.now }
{
    match picked {
        Picked::All => true,
        Picked::OfRoom(at, room) => has(row, at, room.as_str()),
    }
}

/// Puts the row behind those that are there, if it is picked.
pub(crate) fn take_one<R: TreeRow>(
    alloc: Global,
    row: &Row,
    picked: Picked<'_>,
    out: &mut Vec<R>,
) -> Result<(), Trouble>
    ensures taken { OnOk result (out.new.items ≡ out.old.items ++ map R.StoredRow.form.row_in (filter (picks picked.entry) (row.now ∷ []))) }
    ensures refused { IfErr result (IsOfRow (¬ IsStoredAs R.StoredRow.form row.now)) }
{
    if is_picked(row, picked) {
        out.push(read_stored(alloc, row)?)?;
    }
    Ok(())
}
