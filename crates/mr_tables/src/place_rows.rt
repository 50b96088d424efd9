ghost use Rattle.std.specs.Prelude.{◌≡◌, ◌+◌, ◌≤◌, IfOk, IfErr, IfSome};
ghost use Rattle.mr_model.specs.Tables.{booked_in, erred_in, cancel_row_for, is_done, booking_place_row, place_row_for};
ghost use Rattle.mr_replay.specs.Places.{place_seen};
ghost use Rattle.mr_replay.specs.Rows.{choice_at};
ghost use Rattle.mr_tables.specs.Cells.{place_row_of};

use crate::choices::choice_of;
use crate::{BookingRow, CancelRow, CancelledRow, ErrorRow};
use mr_base::{Action, Meeting, Refusal, Slot, Write, WriteId};
use mr_replay::Place;
use std::alloc::Global;

/// The row of what became of a write: of a booking one in `booking`, `errorlog` or `cancelled`, of a cancel one in `cancels`.
#[derive(Debug, Drop)]
pub enum PlaceRow {
    Booked(BookingRow),
    Logged(ErrorRow),
    Cancelled(CancelledRow),
    Cancel(CancelRow),
}

impl PlaceRow {
    /// The row of a write at its place, with the cancel that took it back, its mark and its commit number.
    pub fn of_write(
        alloc: Global,
        write: &Write,
        place: Place,
        by: Option<WriteId>,
        committed: bool,
        seq: u64,
    ) -> Result<PlaceRow, Refusal>
        ensures row { IfOk result (λ row. place_row_of row ≡ place_row_for write.now write.now.action (place_seen place) by committed seq) }
        ensures only { IfErr result (λ e. e ≡ Refusal.OutOfMemory) }
    {
        match &write.action {
            Action::Books(meeting) => {
                let slot = slot_at(meeting, place);
                of_meeting(alloc, write, meeting, slot, by, committed, seq)
            }
            Action::Cancels(target) => {
                let row = cancel_row(alloc, write, *target, place, seq)?;
                Ok(PlaceRow::Cancel(row))
            }
        }
    }
}

/// The slot that a meeting has at its place. It ends on its day.
pub fn slot_at(meeting: &Meeting, place: Place) -> Option<Slot>
    ensures slot { result ≡ choice_at meeting.now (place_seen place) }
    ensures fits { IfSome result (λ s. s.start + meeting.now.length ≤ 1440) }
{
    match place {
        Place::Taken(number) => choice_of(meeting, number),
        _ => None,
    }
}

/// The row of a booking that took this slot, or none.
fn of_meeting(
    alloc: Global,
    write: &Write,
    meeting: &Meeting,
    slot: Option<Slot>,
    by: Option<WriteId>,
    committed: bool,
    seq: u64,
) -> Result<PlaceRow, Refusal>
    requires { IfSome slot (λ s. s.start + meeting.now.length ≤ 1440) }
    ensures row { IfOk result (λ row. place_row_of row ≡ booking_place_row write.now meeting.now slot by committed seq) }
    ensures only { IfErr result (λ e. e ≡ Refusal.OutOfMemory) }
{
    let Some(slot) = slot else {
        return Ok(PlaceRow::Logged(error_row(alloc, write, meeting, seq)?));
    };
    let row = booking_row(alloc, write, meeting, slot, committed)?;
    match by {
        Some(by) => Ok(PlaceRow::Cancelled(CancelledRow { booking: row, by })),
        None => Ok(PlaceRow::Booked(row)),
    }
}

fn booking_row(
    alloc: Global,
    write: &Write,
    meeting: &Meeting,
    slot: Slot,
    committed: bool,
) -> Result<BookingRow, Refusal>
    requires { slot.start + meeting.now.length ≤ 1440 }
    ensures row { IfOk result (λ row. row ≡ booked_in write.now meeting.now slot committed) }
    ensures only { IfErr result (λ e. e ≡ Refusal.OutOfMemory) }
{
    let room = write.room.copy(alloc)?;
    let title = meeting.title.copy(alloc)?;
    Ok(BookingRow {
        room,
        day: slot.day,
        start: slot.start,
        stop: slot.start + meeting.length,
        server: write.stamp.server,
        n: write.stamp.n,
        title,
        committed,
    })
}

/// The minute at which the wish ends.
fn wish_end(meeting: &Meeting) -> u32
    ensures stop { result ≡ meeting.now.wish.start + meeting.now.length }
    ensures fits { result ≤ 1440 }
{
    // For the prover alone: the meeting is within its limits.
    meeting.is_within_limits();
    wish_stop(meeting)
}

fn wish_stop(meeting: &Meeting) -> u32
    ensures { result ≡ meeting.now.wish.start + meeting.now.length }
{
    meeting.wish.start + meeting.length
}

fn error_row(alloc: Global, write: &Write, meeting: &Meeting, seq: u64) -> Result<ErrorRow, Refusal>
    ensures row { IfOk result (λ row. row ≡ erred_in write.now meeting.now seq) }
    ensures only { IfErr result (λ e. e ≡ Refusal.OutOfMemory) }
{
    let room = write.room.copy(alloc)?;
    let title = meeting.title.copy(alloc)?;
    let wish = meeting.wish;
    let stop = wish_end(meeting);
    Ok(ErrorRow {
        room,
        day: wish.day,
        start: wish.start,
        stop,
        server: write.stamp.server,
        n: write.stamp.n,
        title,
        time: write.stamp.time,
        seq,
    })
}

/// The row of a cancel of this target, at its place.
pub fn cancel_row(
    alloc: Global,
    write: &Write,
    target: WriteId,
    place: Place,
    seq: u64,
) -> Result<CancelRow, Refusal>
    ensures row { IfOk result (λ row. row ≡ cancel_row_for write.now target (place_seen place) seq) }
    ensures only { IfErr result (λ e. e ≡ Refusal.OutOfMemory) }
{
    let room = write.room.copy(alloc)?;
    Ok(CancelRow {
        server: write.stamp.server,
        n: write.stamp.n,
        room,
        target,
        done: is_done(place),
        time: write.stamp.time,
        seq,
    })
}

fn is_done(place: Place) -> bool
    ensures { result ≡ is_done (place_seen place) }
{
    place == Place::Done
}
