ghost use Rattle.std.specs.Prelude.{◌≡◌, map, OnOk, IfOk, IfErr};
ghost use Rattle.std.specs.Option.{option_copied};
ghost use Rattle.mr_model.specs.Writes.{Id};
ghost use Rattle.mr_model.specs.Tables.{Tables};
ghost use Rattle.mr_model.specs.Queries.{booking_id, error_id, cancelled_id, cancel_id};
ghost use Rattle.mr_tables.specs.Boards.{board_of, AreWithin};
ghost use Rattle.mr_tables.specs.BoardChanges.{row_with_id, HaveOneRowEach, row_told, with_told, told_anew};
ghost use Rattle.mr_tables.specs.Change.{changed};

use crate::boards::{row_of_booking, row_of_cancel, row_of_cancelled, row_of_error};
use crate::{BookingRow, CancelRow, CancelledRow, Change, ErrorRow};
use mr_base::{Refusal, WriteId};
use mr_replay::{Board, Row};
use std::alloc::Global;

/// Tables of which the rows that tell a board are found by their ids.
pub trait BoardTables {
    ghost tables: { Self → Tables };

    /// The row of `booking` with this id.
    fn booking(&self, id: WriteId) -> Option<&BookingRow>
        ensures { option_copied result ≡ row_with_id booking_id id (tables self.now).booking };

    /// That of `errorlog`.
    fn error(&self, id: WriteId) -> Option<&ErrorRow>
        ensures { option_copied result ≡ row_with_id error_id id (tables self.now).errorlog };

    /// That of `cancelled`.
    fn cancelled(&self, id: WriteId) -> Option<&CancelledRow>
        ensures { option_copied result ≡ row_with_id cancelled_id id (tables self.now).cancelled };

    /// That of `cancels`.
    fn cancel(&self, id: WriteId) -> Option<&CancelRow>
        ensures { option_copied result ≡ row_with_id cancel_id id (tables self.now).cancels };
}

/// Makes of the board of some tables that of the tables after a change, which `tables` are. It looks at the ids alone that the change
/// names. It is refused if one of their rows is out of the limits, or if there is no memory; the board is then of no use.
pub fn change_board<T: BoardTables>(
    board: &mut Board,
    alloc: Global,
    change: &Change,
    tables: &T,
) -> Result<(), Refusal>
    ensures board { (before : Tables) → board.old ≡ board_of before → T.tables tables.now ≡ changed change.now before → HaveOneRowEach (T.tables tables.now)
        → OnOk result (board.new ≡ board_of (T.tables tables.now)) }
    ensures only { AreWithin (T.tables tables.now) → IfErr result (λ e. e ≡ Refusal.OutOfMemory) }
{
    tell_each(board, alloc, tables, &change.unbooked)?;
    tell_each(board, alloc, tables, &change.booking)?;
    tell_each(board, alloc, tables, &change.unlogged)?;
    tell_each(board, alloc, tables, &change.errorlog)?;
    tell_each(board, alloc, tables, &change.uncancelled)?;
    tell_each(board, alloc, tables, &change.cancelled)?;
    tell_each(board, alloc, tables, &change.cancels)
}

/// Has the board tell of each id that these name what the tables tell of it.
fn tell_each<N: NamesId, T: BoardTables>(
    board: &mut Board,
    alloc: Global,
    tables: &T,
    named: &[N],
) -> Result<(), Refusal>
    ensures told { OnOk result (board.new ≡ told_anew (T.tables tables.now) (map N.named named.now) board.old) }
    ensures only { AreWithin (T.tables tables.now) → IfErr result (λ e. e ≡ Refusal.OutOfMemory) }
{
    for one in named {
        tell(board, alloc, tables, one.id_named())?;
    }
    Ok(())
}

/// Has the board tell of this id what the tables tell of it.
fn tell<T: BoardTables>(
    board: &mut Board,
    alloc: Global,
    tables: &T,
    id: WriteId,
) -> Result<(), Refusal>
    ensures told { OnOk result (board.new ≡ with_told board.old id (row_told (T.tables tables.now) id)) }
    ensures only { AreWithin (T.tables tables.now) → IfErr result (λ e. e ≡ Refusal.OutOfMemory) }
{
    match row_told(alloc, tables, id)? {
        Some(row) => board.put(id, row),
        None => {
            board.remove(id);
            Ok(())
        }
    }
}

/// What the tables tell of this id: a cancel that found nothing to take back, or how a booking stands.
fn row_told<T: BoardTables>(alloc: Global, tables: &T, id: WriteId) -> Result<Option<Row>, Refusal>
    ensures told { IfOk result (λ row. row ≡ row_told (T.tables tables.now) id) }
    ensures only { AreWithin (T.tables tables.now) → IfErr result (λ e. e ≡ Refusal.OutOfMemory) }
{
    if let Some(row) = tables.cancel(id) {
        if !row.done {
            return Ok(Some(row_of_cancel(alloc, row)?));
        }
    }
    if let Some(row) = tables.cancelled(id) {
        return Ok(Some(row_of_cancelled(alloc, row)?));
    }
    if let Some(row) = tables.error(id) {
        return Ok(Some(row_of_error(alloc, row)?));
    }
    match tables.booking(id) {
        Some(row) => Ok(Some(row_of_booking(alloc, row)?)),
        None => Ok(None),
    }
}

/// What a change has of an id: its row, or the id alone, of a row that is taken away.
trait NamesId {
    ghost named: { Self → Id };

    fn id_named(&self) -> WriteId
        ensures { result ≡ named self.now };
}

impl NamesId for WriteId {
    ghost named = { λ id. id };

    fn id_named(&self) -> WriteId {
        *self
    }
}

impl NamesId for BookingRow {
    ghost named = { booking_id };

    fn id_named(&self) -> WriteId {
        self.id()
    }
}

impl NamesId for ErrorRow {
    ghost named = { error_id };

    fn id_named(&self) -> WriteId {
        self.id()
    }
}

impl NamesId for CancelledRow {
    ghost named = { cancelled_id };

    fn id_named(&self) -> WriteId {
        self.id()
    }
}

impl NamesId for CancelRow {
    ghost named = { cancel_id };

    fn id_named(&self) -> WriteId {
        self.id()
    }
}
