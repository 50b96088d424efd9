ghost use Rattle.std.specs.Prelude.{◌≡◌};
ghost use Rattle.std.specs.List.{list_all, list_any, slice_get};
ghost use Rattle.mr_model.specs.Slots.{slot_in};
ghost use Rattle.mr_model.specs.Tables.{OfMeeting, OfCancel, as_booked};
ghost use Rattle.mr_model.specs.Queries.{is_marked};
ghost use Rattle.mr_replay.specs.Places.{place_seen};
ghost use Rattle.mr_agree.specs.Agreeing.{same_mark, same_booking, same_error, same_cancel, taken_row, logged_row, cancelling_row, slots_in, has_taken, has_logged, is_at_place, do_places_agree};
ghost use Rattle.mr_audit.specs.KeyOrders.{AreByRisingId};

use crate::id_rows::find;
use crate::texts::{is_slot, is_stop, slot_words};
use mr_base::WriteId;
use mr_replay::Place;
use mr_tables::{
    ActionCells, BookingRow, CancelRow, CancelledRow, ErrorRow, LogRow, MeetingCells, Tables,
};

/// Whether what became of each write of the log is what its place there tells.
pub(crate) fn do_places_agree(tables: &Tables) -> bool
    requires { AreByRisingId tables.now }
    ensures { result ≡ do_places_agree tables.now }
{
    are_at_places(&tables.log, tables)
}

fn are_at_places(rows: &[LogRow], tables: &Tables) -> bool
    requires { AreByRisingId tables.now }
    ensures { result ≡ list_all (λ row. is_at_place tables.now row row.action row.place) rows.now }
{
    for row in rows {
        if !is_at_place(tables, row) {
            return false;
        }
    }
    true
}

fn is_at_place(tables: &Tables, row: &LogRow) -> bool
    requires { AreByRisingId tables.now }
    ensures { result ≡ is_at_place tables.now row.now row.now.action row.now.place }
{
    match &row.action {
        ActionCells::OfMeeting(cells) => is_meeting_at(tables, row, cells, row.place),
        ActionCells::OfCancel(target) => is_cancel_at(tables, row, *target, row.place),
    }
}

// ---- meetings

fn is_meeting_at(tables: &Tables, row: &LogRow, cells: &MeetingCells, place: Place) -> bool
    requires { AreByRisingId tables.now }
    ensures { result ≡ is_at_place tables.now row.now (OfMeeting cells.now) (place_seen place) }
{
    match place {
        Place::Taken(number) => has_taken(tables, row, cells, number),
        Place::Logged => has_logged(tables, row, cells),
        _ => false,
    }
}

/// Whether it has the slot of this choice, or had it until a cancel took it back.
fn has_taken(tables: &Tables, row: &LogRow, cells: &MeetingCells, number: u32) -> bool
    requires { AreByRisingId tables.now }
    ensures { result ≡ has_taken tables.now row.now cells.now (slice_get (slots_in cells.now.choices) number) }
{
    match slot_words(cells.choices.as_str(), number) {
        Some((day, time)) => {
            is_booked(tables, row, cells, day, time) || is_cancelled(tables, row, cells, day, time)
        }
        None => false,
    }
}

fn is_booked(tables: &Tables, row: &LogRow, cells: &MeetingCells, day: &str, time: &str) -> bool
    requires { AreByRisingId tables.now }
    ensures { result ≡ list_any (same_booking (taken_row row.now cells.now (slot_in day.now time.now))) tables.now.booking }
{
    match find(&tables.booking, row.id()) {
        Some(booked) => is_same_booking(row, cells, day, time, booked),
        None => false,
    }
}

/// Whether the booking, as it stands or stood, has what the log tells of it.
fn is_same_booking(
    row: &LogRow,
    cells: &MeetingCells,
    day: &str,
    time: &str,
    booked: &BookingRow,
) -> bool
    ensures { result ≡ same_booking (taken_row row.now cells.now (slot_in day.now time.now)) booked.now }
{
    let id = row.id() == booked.id();
    let room = row.room == booked.room;
    let slot = is_slot(day, time, booked.day, booked.start);
    let stop = is_stop(time, cells.length, booked.stop);
    let title = cells.title.as_str() == booked.title.as_str();
    let mark = is_mark(row.seq, booked.committed);
    id & room & slot & stop & title & mark
}

fn is_cancelled(tables: &Tables, row: &LogRow, cells: &MeetingCells, day: &str, time: &str) -> bool
    requires { AreByRisingId tables.now }
    ensures { result ≡ list_any (λ c. same_booking (taken_row row.now cells.now (slot_in day.now time.now)) (as_booked c)) tables.now.cancelled }
{
    match find(&tables.cancelled, row.id()) {
        Some(cancelled) => is_same_booking(row, cells, day, time, &cancelled.booking),
        None => false,
    }
}

/// Whether it is in the error log, with its wish.
fn has_logged(tables: &Tables, row: &LogRow, cells: &MeetingCells) -> bool
    requires { AreByRisingId tables.now }
    ensures { result ≡ has_logged tables.now row.now cells.now (slice_get (slots_in cells.now.choices) 0) }
{
    match slot_words(cells.choices.as_str(), 0) {
        Some((day, time)) => is_erred(tables, row, cells, day, time),
        None => false,
    }
}

fn is_erred(tables: &Tables, row: &LogRow, cells: &MeetingCells, day: &str, time: &str) -> bool
    requires { AreByRisingId tables.now }
    ensures { result ≡ list_any (same_error (logged_row row.now cells.now (slot_in day.now time.now))) tables.now.errorlog }
{
    match find(&tables.errorlog, row.id()) {
        Some(error) => is_same_error(row, cells, day, time, error),
        None => false,
    }
}

fn is_same_error(
    row: &LogRow,
    cells: &MeetingCells,
    day: &str,
    time: &str,
    error: &ErrorRow,
) -> bool
    ensures { result ≡ same_error (logged_row row.now cells.now (slot_in day.now time.now)) error.now }
{
    let id = row.id() == error.id();
    let room = row.room == error.room;
    let slot = is_slot(day, time, error.day, error.start);
    let stop = is_stop(time, cells.length, error.stop);
    let title = cells.title.as_str() == error.title.as_str();
    let stamp = row.time == error.time;
    let number = row.seq == error.seq;
    id & room & slot & stop & title & stamp & number
}

/// Whether a row has the mark exactly if this is a commit number.
fn is_mark(seq: u64, committed: bool) -> bool
    ensures { result ≡ same_mark (is_marked seq) committed }
{
    if seq != 0 { committed } else { !committed }
}

// ---- cancels

fn is_cancel_at(tables: &Tables, row: &LogRow, target: WriteId, place: Place) -> bool
    requires { AreByRisingId tables.now }
    ensures { result ≡ is_at_place tables.now row.now (OfCancel target) (place_seen place) }
{
    match place {
        Place::Done => has_cancel(tables, row, target, true),
        Place::Void => has_cancel(tables, row, target, false),
        _ => false,
    }
}

fn has_cancel(tables: &Tables, row: &LogRow, target: WriteId, done: bool) -> bool
    requires { AreByRisingId tables.now }
    ensures { result ≡ list_any (same_cancel (cancelling_row row.now target done)) tables.now.cancels }
{
    match find(&tables.cancels, row.id()) {
        Some(cancel) => is_same_cancel(row, target, done, cancel),
        None => false,
    }
}

fn is_same_cancel(row: &LogRow, target: WriteId, done: bool, cancel: &CancelRow) -> bool
    ensures { result ≡ same_cancel (cancelling_row row.now target done) cancel.now }
{
    let id = row.id() == cancel.id();
    let room = row.room == cancel.room;
    let took = target == cancel.target;
    let same_done = is_same_done(done, cancel.done);
    let stamp = row.time == cancel.time;
    let number = row.seq == cancel.seq;
    id & room & took & same_done & stamp & number
}

fn is_same_done(done: bool, other: bool) -> bool
    ensures { result ≡ same_mark done other }
{
    if done { other } else { !other }
}
