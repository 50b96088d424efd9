ghost use Rattle.std.specs.Prelude.{◌≡◌, ◌+◌, ◌<◌, ◌≤◌, ◌^◌, ◌++◌, length, map, option_map, OnOk, IfOk, IfErr};
ghost use Rattle.std.specs.Option.{option_copied};
ghost use Rattle.mr_tables.specs.Cells.{place_row_of};
ghost use Rattle.mr_tables.specs.Written.{meta_of, changed_tallies as rows_changed, written};
ghost use Rattle.mr_part.specs.Placing.{with_places_put, board_place, TraceEnds, TargetEnds, canceller_on, row_canceller, cancellers_on, is_booking_trace, has_booking_on, row_taken_back, taken_rows, booking_at};
ghost use Rattle.mr_replay.specs.Rows.{target_if_done as taken_back_by};

use crate::calls::board_rows::BoardRows;
use mr_base::{MINUTES_OF_A_DAY, Refusal, RoomName, Slot, Title, Write, WriteId};
use mr_replay::{Overlay, Place, Row, SeenBoard, Standing, Trace, UndoRow};
use mr_tables::summary::Summary;
use mr_tables::vector::changed_tallies;
use mr_tables::written::{put_row, written};
use mr_tables::{BookingRow, CancelledRow, Change, PlaceRow};
use std::alloc::Global;

/// Puts these rows too, each into its table.
pub fn put_places(change: &mut Change, rows: Vec<PlaceRow>) -> Result<(), Refusal>
    ensures rows { OnOk result (change.new ≡ with_places_put change.old (map place_row_of rows.items)) }
    ensures only { IfErr result (λ e. e ≡ Refusal.OutOfMemory) }
{
    for row in rows {
        put_row(change, row)?;
    }
    Ok(())
}

// ---- rows of bookings, read off the board

/// The row of a booking that has its slot or was taken back, as the board tells it.
pub(crate) fn place_row_on(
    alloc: Global,
    summary: &Summary,
    id: WriteId,
    row: &Row,
) -> Result<Option<PlaceRow>, Refusal>
    ensures row { IfOk result (λ place. TraceEnds row.now.trace → option_map place_row_of place ≡ board_place summary.now.tallies id row.now) }
    ensures only { IfErr result (λ e. e ≡ Refusal.OutOfMemory) }
{
    match &row.trace {
        Trace::OfBooking {
            slot,
            length,
            title,
            standing: Standing::Booked,
        } => {
            let row = booking_row(alloc, summary, id, &row.room, *slot, *length, title)?;
            Ok(Some(PlaceRow::Booked(row)))
        }
        Trace::OfBooking {
            slot,
            length,
            title,
            standing: Standing::CancelledBy(by),
        } => {
            let row = booking_row(alloc, summary, id, &row.room, *slot, *length, title)?;
            Ok(Some(PlaceRow::Cancelled(CancelledRow {
                booking: row,
                by: *by,
            })))
        }
        _ => Ok(None),
    }
}

/// The row of a booking with this slot, which ends on its day.
fn booking_row(
    alloc: Global,
    summary: &Summary,
    id: WriteId,
    room: &RoomName,
    slot: Slot,
    length: u32,
    title: &Title,
) -> Result<BookingRow, Refusal>
    ensures row { IfOk result (λ row. slot.start + length ≤ 1440 → row ≡ booking_at summary.now.tallies id room.now slot length title.now) }
    ensures only { IfErr result (λ e. e ≡ Refusal.OutOfMemory) }
{
    let tally = summary.tally(id.server);
    let room = room.copy(alloc)?;
    let title = title.copy(alloc)?;
    Ok(BookingRow {
        room,
        day: slot.day,
        start: slot.start,
        stop: slot.start.saturating_add(length).min(MINUTES_OF_A_DAY),
        server: id.server,
        n: id.n,
        title,
        committed: id.n <= tally.committed,
    })
}

/// The rows that a write puts beside its own, if `undo` undoes it and the board is the one before it: that of the booking that it took
/// back, if it is a cancel that is done.
pub fn taken_rows(
    alloc: Global,
    summary: &Summary,
    board: &SeenBoard,
    undo: UndoRow,
) -> Result<Vec<PlaceRow>, Refusal>
    ensures rows { IfOk result (λ rows. TargetEnds board.now undo.target → map place_row_of rows.items ≡ taken_rows summary.now.tallies board.now undo) }
    ensures only { IfErr result (λ e. e ≡ Refusal.OutOfMemory) }
{
    let mut rows = Vec::new(alloc);
    if let Some(target) = taken_back(undo) {
        if let Some(row) = board.row(target) {
            push_taken(&mut rows, alloc, summary, target, row, undo.id)?;
        }
    }
    Ok(rows)
}

/// The booking that the write took back.
fn taken_back(undo: UndoRow) -> Option<WriteId>
    ensures { result ≡ taken_back_by undo.place undo.target }
{
    match undo.place {
        Place::Done => undo.target,
        _ => None,
    }
}

/// Adds the row of a booking that stands, as taken back by this cancel.
fn push_taken(
    rows: &mut Vec<PlaceRow>,
    alloc: Global,
    summary: &Summary,
    id: WriteId,
    row: &Row,
    by: WriteId,
) -> Result<(), Refusal>
    ensures rows { OnOk result (TraceEnds row.now.trace
        → map place_row_of rows.new.items ≡ map place_row_of rows.old.items ++ row_taken_back by (board_place summary.now.tallies id row.now)) }
    ensures only { IfErr result (λ e. e ≡ Refusal.OutOfMemory) }
{
    match &row.trace {
        Trace::OfBooking {
            slot,
            length,
            title,
            standing: Standing::Booked,
        } => {
            let row = booking_row(alloc, summary, id, &row.room, *slot, *length, title)?;
            rows.push(PlaceRow::Cancelled(CancelledRow { booking: row, by }))?;
            Ok(())
        }
        _ => Ok(()),
    }
}

// ---- cancels

/// The cancels that took these writes back, as the board tells them.
pub(crate) fn cancellers<B: BoardRows>(
    alloc: Global,
    board: &B,
    writes: &[Write],
) -> Result<Vec<Option<WriteId>>, Refusal>
    ensures cancellers { IfOk result (λ bys. bys.items ≡ cancellers_on (B.rows board.now) writes.now) }
    ensures only { IfErr result (λ e. e ≡ Refusal.OutOfMemory) }
{
    let mut bys = Vec::new(alloc);
    for write in writes {
        bys.push(canceller(board.row(write.stamp.id())))?;
    }
    Ok(bys)
}

/// The change from the old numbers to the new ones, with these rooms more, if these writes stand behind the old commits, and the board
/// tells which cancels took them back.
pub fn rewritten(
    alloc: Global,
    old: &Summary,
    summary: &Summary,
    rooms: Vec<RoomName>,
    board: &Overlay,
    writes: &[Write],
    rows: &[UndoRow],
) -> Result<Change, Refusal>
    requires { length writes.now ≡ length rows.now }
    ensures change { IfOk result (λ change. old.now.commits + 1 + length writes.now < 2 ^ 64
        → change ≡ written (meta_of summary.now) rooms.items (rows_changed old.now.tallies summary.now.tallies) summary.now.commits (old.now.commits + 1) writes.now rows.now (cancellers_on board.now writes.now)) }
    ensures only { IfErr result (λ e. e ≡ Refusal.OutOfMemory) }
{
    let vector = changed_tallies(alloc, old, summary)?;
    let bys = cancellers(alloc, board, writes)?;
    let first = old.commits.saturating_add(1);
    written(alloc, summary, rooms, vector, first, writes, rows, &bys)
}

/// The cancel that took back what has this row.
fn canceller(row: Option<&Row>) -> Option<WriteId>
    ensures { result ≡ row_canceller (option_copied row.entry) }
{
    match row {
        Some(row) => canceller_on(&row.trace),
        None => None,
    }
}

pub(crate) fn canceller_on(kept: &Trace) -> Option<WriteId>
    ensures { result ≡ canceller_on kept.now }
{
    match kept {
        Trace::OfBooking {
            standing: Standing::CancelledBy(by),
            ..
        } => Some(*by),
        _ => None,
    }
}

/// Whether the board has a booking of this room with this id.
pub fn has_booking(board: &SeenBoard, room: &RoomName, id: WriteId) -> bool
    ensures { result ≡ has_booking_on board.now room.now id }
{
    match board.row(id) {
        Some(row) => row.room == *room && is_booking(&row.trace),
        None => false,
    }
}

fn is_booking(kept: &Trace) -> bool
    ensures { result ≡ is_booking_trace kept.now }
{
    match kept {
        Trace::OfBooking { .. } => true,
        Trace::OfCancel { .. } => false,
    }
}
