ghost use Rattle.std.specs.Prelude.{◌≡◌, ◌<◌, ◌≤◌, map, filter, OnOk, IfOk, IfErr, Ok};
ghost use Rattle.std.specs.List.{AllByRecursion};
ghost use Rattle.std.specs.BTreeMap.{insert_entry};
ghost use Rattle.mr_base.specs.Answers.{OrOutOfMemory};
ghost use Rattle.mr_base.specs.Ids.{id_cmp};
ghost use Rattle.mr_replay.specs.declared.rows.Trace.TheVariants.{OfBooking};
ghost use Rattle.mr_tables.specs.Boards.{booking_entry, error_entry, cancelled_entry, cancel_entry, is_void, put_entries, board_of, AreWithin, IsRowWithin};

use crate::{BookingRow, CancelRow, CancelledRow, ErrorRow, Tables};
use mr_base::{Day, MINUTES_OF_A_DAY, Refusal, RoomName, Slot, Title};
use mr_replay::{Board, Row, Standing, Trace};
use std::alloc::Global;

/// The board that the rows of the tables tell: a row for each booking, and one for each cancel that found nothing to take back.
/// Refused if one is out of the limits.
pub fn board_with(alloc: Global, tables: &Tables) -> Result<Board, Refusal>
    ensures board { IfOk result (λ board. board ≡ board_of tables.now) }
    ensures within { OnOk result (AreWithin tables.now) }
    ensures only { AreWithin tables.now → IfErr result (λ e. e ≡ Refusal.OutOfMemory) }
{
    let mut board = Board::new(alloc);
    put_bookings(&mut board, alloc, &tables.booking)?;
    put_errors(&mut board, alloc, &tables.errorlog)?;
    put_cancelled(&mut board, alloc, &tables.cancelled)?;
    put_cancels(&mut board, alloc, &tables.cancels)?;
    Ok(board)
}

/// Puts the rows of `booking` on the board. Refused if one is out of the limits.
pub fn put_bookings(board: &mut Board, alloc: Global, rows: &[BookingRow]) -> Result<(), Refusal>
    ensures put { OnOk result (board.new ≡ put_entries (map booking_entry rows.now) board.old) }
    ensures within { OnOk result (AllByRecursion (λ r. IsRowWithin r.n r.start r.stop) rows.now) }
    ensures only { AllByRecursion (λ r. IsRowWithin r.n r.start r.stop) rows.now → IfErr result (λ e. e ≡ Refusal.OutOfMemory) }
{
    for row in rows {
        put_booking(board, alloc, row)?;
    }
    Ok(())
}

/// Puts a row of `booking` on the board. Refused if it is beyond its limits.
pub fn put_booking(board: &mut Board, alloc: Global, row: &BookingRow) -> Result<(), Refusal>
    ensures put { OnOk result (board.new ≡ insert_entry id_cmp board.old (booking_entry row.now).0 (booking_entry row.now).1) }
    ensures within { OnOk result (IsRowWithin row.now.n row.now.start row.now.stop) }
    ensures only { IsRowWithin row.now.n row.now.start row.now.stop → IfErr result (λ e. e ≡ Refusal.OutOfMemory) }
{
    let told = row_of_booking(alloc, row)?;
    board.put(row.id(), told)
}

/// Puts the rows of `errorlog` on the board. Refused if one is out of the limits.
pub fn put_errors(board: &mut Board, alloc: Global, rows: &[ErrorRow]) -> Result<(), Refusal>
    ensures put { OnOk result (board.new ≡ put_entries (map error_entry rows.now) board.old) }
    ensures within { OnOk result (AllByRecursion (λ r. IsRowWithin r.n r.start r.stop) rows.now) }
    ensures only { AllByRecursion (λ r. IsRowWithin r.n r.start r.stop) rows.now → IfErr result (λ e. e ≡ Refusal.OutOfMemory) }
{
    for row in rows {
        put_error(board, alloc, row)?;
    }
    Ok(())
}

fn put_error(board: &mut Board, alloc: Global, row: &ErrorRow) -> Result<(), Refusal>
    ensures put { OnOk result (board.new ≡ insert_entry id_cmp board.old (error_entry row.now).0 (error_entry row.now).1) }
    ensures within { OnOk result (IsRowWithin row.now.n row.now.start row.now.stop) }
    ensures only { IsRowWithin row.now.n row.now.start row.now.stop → IfErr result (λ e. e ≡ Refusal.OutOfMemory) }
{
    let told = row_of_error(alloc, row)?;
    board.put(row.id(), told)
}

/// Puts the rows of `cancelled` on the board. Refused if one is out of the limits.
pub fn put_cancelled(board: &mut Board, alloc: Global, rows: &[CancelledRow]) -> Result<(), Refusal>
    ensures put { OnOk result (board.new ≡ put_entries (map cancelled_entry rows.now) board.old) }
    ensures within { OnOk result (AllByRecursion (λ r. IsRowWithin r.n r.start r.stop) rows.now) }
    ensures only { AllByRecursion (λ r. IsRowWithin r.n r.start r.stop) rows.now → IfErr result (λ e. e ≡ Refusal.OutOfMemory) }
{
    for row in rows {
        put_taken_back(board, alloc, row)?;
    }
    Ok(())
}

/// Puts a row of `cancelled` on the board. Refused if it is beyond its limits.
pub fn put_taken_back(board: &mut Board, alloc: Global, row: &CancelledRow) -> Result<(), Refusal>
    ensures put { OnOk result (board.new ≡ insert_entry id_cmp board.old (cancelled_entry row.now).0 (cancelled_entry row.now).1) }
    ensures within { OnOk result (IsRowWithin row.now.n row.now.start row.now.stop) }
    ensures only { IsRowWithin row.now.n row.now.start row.now.stop → IfErr result (λ e. e ≡ Refusal.OutOfMemory) }
{
    let told = row_of_cancelled(alloc, row)?;
    board.put(row.id(), told)
}

/// Puts those rows of `cancels` on the board that found nothing to take back.
fn put_cancels(board: &mut Board, alloc: Global, rows: &[CancelRow]) -> Result<(), Refusal>
    ensures put { OnOk result (board.new ≡ put_entries (map cancel_entry (filter is_void rows.now)) board.old) }
    ensures only { IfErr result (λ e. e ≡ Refusal.OutOfMemory) }
{
    for row in rows {
        if !row.done {
            put_cancel(board, alloc, row)?;
        }
    }
    Ok(())
}

fn put_cancel(board: &mut Board, alloc: Global, row: &CancelRow) -> Result<(), Refusal>
    ensures put { OnOk result (board.new ≡ insert_entry id_cmp board.old (cancel_entry row.now).0 (cancel_entry row.now).1) }
    ensures only { IfErr result (λ e. e ≡ Refusal.OutOfMemory) }
{
    let told = row_of_cancel(alloc, row)?;
    board.put(row.id(), told)
}

/// What a row of `booking` tells on the board. Refused if its slot is out of the limits.
pub(crate) fn row_of_booking(alloc: Global, row: &BookingRow) -> Result<Row, Refusal>
    ensures row { IfOk result (λ told. told ≡ (booking_entry row.now).1) }
    ensures within { OnOk result ((row.now.start < row.now.stop) × (row.now.stop ≤ 1440)) }
    ensures only { row.now.start < row.now.stop → row.now.stop ≤ 1440 → IfErr result (λ e. e ≡ Refusal.OutOfMemory) }
{
    let slot = slot_in(row.day, row.start, row.stop)?;
    let length = row.stop - row.start;
    row_with(alloc, &row.room, slot, length, &row.title, Standing::Booked)
}

/// What a row of `errorlog` tells there. Refused if its slot is out of the limits.
pub(crate) fn row_of_error(alloc: Global, row: &ErrorRow) -> Result<Row, Refusal>
    ensures row { IfOk result (λ told. told ≡ (error_entry row.now).1) }
    ensures within { OnOk result ((row.now.start < row.now.stop) × (row.now.stop ≤ 1440)) }
    ensures only { row.now.start < row.now.stop → row.now.stop ≤ 1440 → IfErr result (λ e. e ≡ Refusal.OutOfMemory) }
{
    let slot = slot_in(row.day, row.start, row.stop)?;
    let length = row.stop - row.start;
    let standing = Standing::InErrorLog;
    row_with(alloc, &row.room, slot, length, &row.title, standing)
}

/// What a row of `cancelled` tells there. Refused if its slot is out of the limits.
pub(crate) fn row_of_cancelled(alloc: Global, row: &CancelledRow) -> Result<Row, Refusal>
    ensures row { IfOk result (λ told. told ≡ (cancelled_entry row.now).1) }
    ensures within { OnOk result ((row.now.start < row.now.stop) × (row.now.stop ≤ 1440)) }
    ensures only { row.now.start < row.now.stop → row.now.stop ≤ 1440 → IfErr result (λ e. e ≡ Refusal.OutOfMemory) }
{
    let CancelledRow { booking, by } = row;
    let slot = slot_in(booking.day, booking.start, booking.stop)?;
    let length = booking.stop - booking.start;
    let standing = Standing::CancelledBy(*by);
    row_with(alloc, &booking.room, slot, length, &booking.title, standing)
}

/// What a row of `cancels` tells there, if the cancel found nothing to take back.
pub(crate) fn row_of_cancel(alloc: Global, row: &CancelRow) -> Result<Row, Refusal>
    ensures { OrOutOfMemory result (Ok (cancel_entry row.now).1) }
{
    let room = row.room.copy(alloc)?;
    let trace = Trace::OfCancel { target: row.target };
    Ok(Row { room, trace })
}

/// The slot of a row. Refused unless it starts before it stops, by midnight.
fn slot_in(day: Day, start: u32, stop: u32) -> Result<Slot, Refusal>
    ensures slot { IfOk result (λ slot. slot ≡ record { day = day; start = start }) }
    ensures within { OnOk result ((start < stop) × (stop ≤ 1440)) }
    ensures only { IfErr result (λ e. (e ≡ Refusal.Store) × (start < stop → stop ≤ 1440 → ⊥)) }
{
    if start >= stop || stop > MINUTES_OF_A_DAY {
        return Err(Refusal::Store);
    }
    match Slot::new(day, start) {
        Ok(slot) => Ok(slot),
        Err(_) => Err(Refusal::Store),
    }
}

/// The row on the board of a booking, with an equal room and title.
fn row_with(
    alloc: Global,
    room: &RoomName,
    slot: Slot,
    length: u32,
    title: &Title,
    standing: Standing,
) -> Result<Row, Refusal>
    ensures { OrOutOfMemory result (Ok (record { room = room.now; trace = OfBooking slot length title.now standing })) }
{
    let room = room.copy(alloc)?;
    let title = title.copy(alloc)?;
    let trace = Trace::OfBooking {
        slot,
        length,
        title,
        standing,
    };
    Ok(Row { room, trace })
}
