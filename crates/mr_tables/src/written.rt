ghost use Rattle.std.specs.Prelude.{◌≡◌, ◌+◌, ◌<◌, ◌^◌, [], length, OnOk, IfOk, IfErr};
ghost use Rattle.mr_model.specs.Tables.{cells_of, log_row_with, Booked, Erred, Cancelled, Cancel};
ghost use Rattle.mr_base.specs.Actions.{action_of};
ghost use Rattle.mr_replay.specs.Places.{place_seen};
ghost use Rattle.mr_tables.specs.Cells.{action_cells, meeting_cells, place_row_of};
ghost use Rattle.mr_tables.specs.Written.{meta_of, with_places, written, with_place, with_write_rows};

use crate::choices::choices_text;
use crate::summary::Summary;
use crate::{
    ActionCells, BookingRow, CancelledRow, Change, ErrorRow, LogRow, MeetingCells, MetaRow,
    PlaceRow, VectorRow,
};
use mr_base::{Action, Meeting, Refusal, RoomName, Write, WriteId};
use mr_replay::{Place, UndoRow};
use std::alloc::Global;

/// Puts the rows of writes that follow each other in the order, the first of them being the `first`-th, each with what undoes
/// it, and the cancel that took it back: a booking gets its row in one of `booking`, `errorlog` and `cancelled`, and leaves the
/// two others, a cancel gets one in `cancels`. The target of a cancel is left as it is.
pub fn written(
    alloc: Global,
    summary: &Summary,
    room: Vec<RoomName>,
    vector: Vec<VectorRow>,
    first: u64,
    writes: &[Write],
    rows: &[UndoRow],
    bys: &[Option<WriteId>],
) -> Result<Change, Refusal>
    requires { (length writes.now ≡ length rows.now) × (length writes.now ≡ length bys.now) }
    ensures change { IfOk result (λ change. first + length writes.now < 2 ^ 64
        → change ≡ written (meta_of summary.now) room.items vector.items summary.now.commits first writes.now rows.now bys.now) }
    ensures only { IfErr result (λ e. e ≡ Refusal.OutOfMemory) }
{
    let mut change = empty(alloc, summary, room, vector);
    for (k, write) in writes.iter().enumerate() {
        let number = first.saturating_add(k as u64);
        add_rows(
            &mut change,
            alloc,
            write,
            rows[k],
            bys[k],
            summary.commits,
            number,
        )?;
    }
    Ok(change)
}

/// The row of `meta`.
fn meta_row(summary: &Summary) -> MetaRow
    ensures { result ≡ meta_of summary.now }
{
    MetaRow {
        server: summary.server,
        primary: summary.primary,
        commits: summary.commits,
        dropped: summary.dropped,
        clock: summary.clock,
    }
}

/// A change of these rooms and rows of servers alone.
pub fn empty(
    alloc: Global,
    summary: &Summary,
    room: Vec<RoomName>,
    vector: Vec<VectorRow>,
) -> Change
    ensures { result ≡ with_places (meta_of summary.now) room.items vector.items [] [] }
{
    Change {
        meta: meta_row(summary),
        room,
        vector,
        dropped: Vec::new(alloc),
        log: Vec::new(alloc),
        unbooked: Vec::new(alloc),
        booking: Vec::new(alloc),
        unlogged: Vec::new(alloc),
        errorlog: Vec::new(alloc),
        uncancelled: Vec::new(alloc),
        cancelled: Vec::new(alloc),
        cancels: Vec::new(alloc),
    }
}

/// Adds the rows of one write more, the `number`-th of the order.
fn add_rows(
    change: &mut Change,
    alloc: Global,
    write: &Write,
    row: UndoRow,
    by: Option<WriteId>,
    commits: u64,
    number: u64,
) -> Result<(), Refusal>
    ensures rows { OnOk result (change.new ≡ with_write_rows change.old commits number write.now row by) }
    ensures only { IfErr result (λ e. e ≡ Refusal.OutOfMemory) }
{
    let committed = number <= commits;
    let seq = if committed { number } else { 0 };
    let log = log_row(alloc, write, row.place, seq)?;
    let place = PlaceRow::of_write(alloc, write, row.place, by, committed, seq)?;
    change.log.push(log)?;
    put_row(change, place)
}

/// Puts the row of what became of a write into its table, too. That of a booking is taken away from the two other tables of
/// bookings.
pub fn put_row(change: &mut Change, row: PlaceRow) -> Result<(), Refusal>
    ensures rows { OnOk result (change.new ≡ with_place change.old (place_row_of row)) }
    ensures only { IfErr result (λ e. e ≡ Refusal.OutOfMemory) }
{
    match row {
        PlaceRow::Booked(row) => put_booking(change, row),
        PlaceRow::Logged(row) => put_error(change, row),
        PlaceRow::Cancelled(row) => put_cancelled(change, row),
        PlaceRow::Cancel(row) => {
            change.cancels.push(row)?;
            Ok(())
        }
    }
}

fn put_booking(change: &mut Change, row: BookingRow) -> Result<(), Refusal>
    ensures rows { OnOk result (change.new ≡ with_place change.old (Booked row)) }
    ensures only { IfErr result (λ e. e ≡ Refusal.OutOfMemory) }
{
    let id = row.id();
    change.unlogged.push(id)?;
    change.uncancelled.push(id)?;
    change.booking.push(row)?;
    Ok(())
}

fn put_error(change: &mut Change, row: ErrorRow) -> Result<(), Refusal>
    ensures rows { OnOk result (change.new ≡ with_place change.old (Erred row)) }
    ensures only { IfErr result (λ e. e ≡ Refusal.OutOfMemory) }
{
    let id = row.id();
    change.unbooked.push(id)?;
    change.uncancelled.push(id)?;
    change.errorlog.push(row)?;
    Ok(())
}

fn put_cancelled(change: &mut Change, row: CancelledRow) -> Result<(), Refusal>
    ensures rows { OnOk result (change.new ≡ with_place change.old (Cancelled row)) }
    ensures only { IfErr result (λ e. e ≡ Refusal.OutOfMemory) }
{
    let id = row.id();
    change.unbooked.push(id)?;
    change.unlogged.push(id)?;
    change.cancelled.push(row)?;
    Ok(())
}

// ---- rows of the log

fn log_row(alloc: Global, write: &Write, place: Place, seq: u64) -> Result<LogRow, Refusal>
    ensures row { IfOk result (λ row. row ≡ log_row_with write.now (place_seen place) seq) }
    ensures only { IfErr result (λ e. e ≡ Refusal.OutOfMemory) }
{
    let room = write.room.copy(alloc)?;
    let action = action_cells(alloc, &write.action)?;
    Ok(LogRow {
        server: write.stamp.server,
        n: write.stamp.n,
        time: write.stamp.time,
        room,
        action,
        place,
        seq,
    })
}

fn action_cells(alloc: Global, action: &Action) -> Result<ActionCells, Refusal>
    ensures cells { IfOk result (λ cells. action_cells cells ≡ cells_of (action_of action.now)) }
    ensures only { IfErr result (λ e. e ≡ Refusal.OutOfMemory) }
{
    match action {
        Action::Books(meeting) => Ok(ActionCells::OfMeeting(meeting_cells(alloc, meeting)?)),
        Action::Cancels(target) => Ok(ActionCells::OfCancel(*target)),
    }
}

fn meeting_cells(alloc: Global, meeting: &Meeting) -> Result<MeetingCells, Refusal>
    ensures cells { IfOk result (λ cells. cells ≡ meeting_cells meeting.now) }
    ensures only { IfErr result (λ e. e ≡ Refusal.OutOfMemory) }
{
    let choices = choices_text(alloc, meeting.wish, meeting.alternatives.as_slice())?;
    let title = meeting.title.copy(alloc)?;
    Ok(MeetingCells {
        length: meeting.length,
        choices,
        title,
    })
}
