ghost use Rattle.std.specs.Prelude.{◌≡◌, ◌&&◌, ◌↔◌, bytes_eq, IsTrue};
ghost use Rattle.std.specs.List.{list_all, list_any};
ghost use Rattle.mr_model.specs.Replica.{text_before};
ghost use Rattle.mr_tables.specs.Rise.{Rise};
ghost use Rattle.mr_agree.specs.Agreeing.{do_rooms_agree};

use mr_base::RoomName;
use mr_tables::rooms::{is_before, is_known};
use mr_tables::{BookingRow, CancelRow, CancelledRow, ErrorRow, LogRow, Tables};

/// Whether the room of each row is known, by a binary search if the rooms stand in the order of their names.
pub fn do_rooms_agree(tables: &Tables) -> bool
    ensures { result ≡ do_rooms_agree tables.now }
{
    let is_sorted = are_rooms_rising(&tables.room);
    are_rooms_known(tables, is_sorted)
}

fn are_rooms_known(tables: &Tables, is_sorted: bool) -> bool
    ensures { (IsTrue is_sorted → Rise text_before (λ name. name) tables.now.room) → result ≡ (list_all (λ row. list_any (bytes_eq row.room) tables.now.room) tables.now.booking
        && (list_all (λ row. list_any (bytes_eq row.room) tables.now.room) tables.now.errorlog
        && (list_all (λ row. list_any (bytes_eq row.room) tables.now.room) tables.now.cancelled
        && (list_all (λ row. list_any (bytes_eq row.room) tables.now.room) tables.now.cancels
        && list_all (λ row. list_any (bytes_eq row.room) tables.now.room) tables.now.log)))) }
{
    let bookings = are_bookings_known(&tables.room, &tables.booking, is_sorted);
    let errors = are_errors_known(&tables.room, &tables.errorlog, is_sorted);
    let cancelled = are_cancelled_known(&tables.room, &tables.cancelled, is_sorted);
    let cancels = are_cancels_known(&tables.room, &tables.cancels, is_sorted);
    let logs = are_logs_known(&tables.room, &tables.log, is_sorted);
    bookings & (errors & (cancelled & (cancels & logs)))
}

fn are_bookings_known(rooms: &[RoomName], rows: &[BookingRow], is_sorted: bool) -> bool
    ensures { (IsTrue is_sorted → Rise text_before (λ name. name) rooms.now) → result ≡ list_all (λ row. list_any (bytes_eq row.room) rooms.now) rows.now }
{
    rows.iter().all(|row| has_room(rooms, &row.room, is_sorted))
}

fn are_errors_known(rooms: &[RoomName], rows: &[ErrorRow], is_sorted: bool) -> bool
    ensures { (IsTrue is_sorted → Rise text_before (λ name. name) rooms.now) → result ≡ list_all (λ row. list_any (bytes_eq row.room) rooms.now) rows.now }
{
    rows.iter().all(|row| has_room(rooms, &row.room, is_sorted))
}

fn are_cancelled_known(rooms: &[RoomName], rows: &[CancelledRow], is_sorted: bool) -> bool
    ensures { (IsTrue is_sorted → Rise text_before (λ name. name) rooms.now) → result ≡ list_all (λ row. list_any (bytes_eq row.room) rooms.now) rows.now }
{
    rows.iter()
        .all(|row| has_room(rooms, &row.booking.room, is_sorted))
}

fn are_cancels_known(rooms: &[RoomName], rows: &[CancelRow], is_sorted: bool) -> bool
    ensures { (IsTrue is_sorted → Rise text_before (λ name. name) rooms.now) → result ≡ list_all (λ row. list_any (bytes_eq row.room) rooms.now) rows.now }
{
    rows.iter().all(|row| has_room(rooms, &row.room, is_sorted))
}

fn are_logs_known(rooms: &[RoomName], rows: &[LogRow], is_sorted: bool) -> bool
    ensures { (IsTrue is_sorted → Rise text_before (λ name. name) rooms.now) → result ≡ list_all (λ row. list_any (bytes_eq row.room) rooms.now) rows.now }
{
    rows.iter().all(|row| has_room(rooms, &row.room, is_sorted))
}

/// Whether the room is among these, which are to be sorted if that is said of them.
fn has_room(rooms: &[RoomName], room: &RoomName, is_sorted: bool) -> bool
    ensures { (IsTrue is_sorted → Rise text_before (λ name. name) rooms.now) → result ≡ list_any (bytes_eq room.now) rooms.now }
{
    if is_sorted {
        is_among_sorted(rooms, room)
    } else {
        is_known(rooms, room)
    }
}

fn is_among_sorted(rooms: &[RoomName], room: &RoomName) -> bool
    ensures { Rise text_before (λ name. name) rooms.now → result ≡ list_any (bytes_eq room.now) rooms.now }
{
    match rooms.binary_search(room) {
        Ok(_) => true,
        Err(_) => false,
    }
}

fn are_rooms_rising(rooms: &[RoomName]) -> bool
    ensures { IsTrue result ↔ Rise text_before (λ name. name) rooms.now }
{
    rooms.is_sorted_by(|one, next| is_before(one, next))
}
