ghost use Rattle.std.specs.Prelude.{◌≡◌, map, filter, OnOk, IfOk, IfErr};
ghost use Rattle.std.specs.List.{AllByRecursion};
ghost use Rattle.mr_tables.specs.Boards.{booking_entry, error_entry, cancelled_entry, put_entries, board_of, AreWithin, IsRowWithin};
ghost use Rattle.mr_part.specs.RowTests.{has_booking, has_error, has_cancelled, tested_rows};

use crate::scope::bookings::BookingTest;
use mr_base::Refusal;
use mr_replay::Board;
use mr_tables::boards::{put_booking, put_errors, put_taken_back};
use mr_tables::{BookingRow, CancelledRow, ErrorRow, Tables};
use std::alloc::Global;
use std::slice;

/// A board of the bookings that pass. Refused if one of them is out of the limits.
pub(crate) fn board_where(
    alloc: Global,
    tables: &Tables,
    test: &BookingTest,
) -> Result<Board, Refusal>
    ensures board { AreWithin (tested_rows test.now tables.now) → IfOk result (λ board. board ≡ board_of (tested_rows test.now tables.now)) }
    ensures within { OnOk result (AreWithin (tested_rows test.now tables.now)) }
    ensures only { AreWithin (tested_rows test.now tables.now) → IfErr result (λ e. e ≡ Refusal.OutOfMemory) }
{
    let mut board = Board::new(alloc);
    put_bookings(&mut board, alloc, &tables.booking, test)?;
    put_logged(&mut board, alloc, &tables.errorlog, test)?;
    put_cancelled(&mut board, alloc, &tables.cancelled, test)?;
    Ok(board)
}

/// Puts the rows of `booking` that pass.
fn put_bookings(
    board: &mut Board,
    alloc: Global,
    rows: &[BookingRow],
    test: &BookingTest,
) -> Result<(), Refusal>
    ensures put { OnOk result (board.new ≡ put_entries (map booking_entry (filter (has_booking test.now) rows.now)) board.old) }
    ensures within { OnOk result (AllByRecursion (λ r. IsRowWithin r.n r.start r.stop) (filter (has_booking test.now) rows.now)) }
    ensures only { AllByRecursion (λ r. IsRowWithin r.n r.start r.stop) (filter (has_booking test.now) rows.now) → IfErr result (λ e. e ≡ Refusal.OutOfMemory) }
{
    for row in rows {
        if test.has_booking(row) {
            put_booking(board, alloc, row)?;
        }
    }
    Ok(())
}

/// Puts the rows of `errorlog` that pass.
fn put_logged(
    board: &mut Board,
    alloc: Global,
    rows: &[ErrorRow],
    test: &BookingTest,
) -> Result<(), Refusal>
    ensures put { OnOk result (board.new ≡ put_entries (map error_entry (filter (has_error test.now) rows.now)) board.old) }
    ensures within { OnOk result (AllByRecursion (λ r. IsRowWithin r.n r.start r.stop) (filter (has_error test.now) rows.now)) }
    ensures only { AllByRecursion (λ r. IsRowWithin r.n r.start r.stop) (filter (has_error test.now) rows.now) → IfErr result (λ e. e ≡ Refusal.OutOfMemory) }
{
    for row in rows {
        if test.has_error(row) {
            put_errors(board, alloc, slice::from_ref(row))?;
        }
    }
    Ok(())
}

/// Puts the rows of `cancelled` that pass.
fn put_cancelled(
    board: &mut Board,
    alloc: Global,
    rows: &[CancelledRow],
    test: &BookingTest,
) -> Result<(), Refusal>
    ensures put { OnOk result (board.new ≡ put_entries (map cancelled_entry (filter (has_cancelled test.now) rows.now)) board.old) }
    ensures within { OnOk result (AllByRecursion (λ r. IsRowWithin r.n r.start r.stop) (filter (has_cancelled test.now) rows.now)) }
    ensures only { AllByRecursion (λ r. IsRowWithin r.n r.start r.stop) (filter (has_cancelled test.now) rows.now) → IfErr result (λ e. e ≡ Refusal.OutOfMemory) }
{
    for row in rows {
        if test.has_cancelled(row) {
            put_taken_back(board, alloc, row)?;
        }
    }
    Ok(())
}
