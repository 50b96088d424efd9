ghost use Rattle.std.specs.Prelude.{◌≡◌, filter, IfOk, IfErr};
ghost use Rattle.std.specs.List.Sorted.{IsPermutation, IsSortedBy};
ghost use Rattle.sqlite.specs.Held.{state};
ghost use Rattle.mr_store.specs.Picked.{is_day_asked as day_is_asked, booking_before, AreBookings, IsPlaceOf};
ghost use Rattle.mr_rows.specs.Database.{tables_in};
ghost use Rattle.mr_rows.specs.Reads.{ReadsKept};
ghost use Rattle.mr_sql.specs.FailedReads.{FailsByStoreAlone};
ghost use Rattle.mr_sql.specs.PlaceOfId.{taken_in, chosen};

use mr_base::{Day, RoomName, WriteId};
use mr_rows::Idle;
use mr_rows::all_tables::read_rooms;
use mr_rows::asked_rows::{rows_in, rows_of};
use mr_store::sort_bookings;
use mr_tables::{BookingRow, CancelRow, CancelledRow, ErrorRow, PlaceRow};
use sqlite::{Alter, Error, ErrorCode};
use std::alloc::Global;

/// The known rooms.
pub(crate) fn rooms_of<S: Alter>(conn: &mut Idle<S>, alloc: Global) -> Result<Vec<RoomName>, Error>
    ensures reads { ReadsKept (state S.Store conn.old) (state S.Store conn.new) result
        (λ rooms. IsPermutation (tables_in (state S.Store conn.old).now.trees).room rooms.items) }
    ensures failed { FailsByStoreAlone (state S.Store conn.old) (state S.Store conn.new) result }
{
    read_rooms(conn, alloc)
}

fn is_asked(day: Option<Day>, of: Day) -> bool
    ensures { result ≡ day_is_asked day of }
{
    match day {
        None => true,
        Some(day) => day == of,
    }
}

fn keep_asked(rows: &mut Vec<BookingRow>, day: Option<Day>)
    ensures { rows.new.items ≡ filter (λ row. day_is_asked day row.day) rows.old.items }
{
    rows.retain(|row| is_asked(day, row.day));
}

/// Of these rows those of the day, in the order of a calendar.
fn calendar(mut rows: Vec<BookingRow>, day: Option<Day>) -> Result<Vec<BookingRow>, Error>
    ensures same { IfOk result (λ out. IsPermutation (filter (λ row. day_is_asked day row.day) rows.items) out.items) }
    ensures sorted { IfOk result (λ out. IsSortedBy booking_before out.items) }
    ensures memory { IfErr result (λ e. e ≡ Error.SqliteFailure ErrorCode.OutOfMemory) }
{
    keep_asked(&mut rows, day);
    sort_bookings(&mut rows)?;
    Ok(rows)
}

/// The bookings of a room, of a day or of all days.
pub(crate) fn bookings_of<S: Alter>(
    conn: &mut Idle<S>,
    alloc: Global,
    room: &RoomName,
    day: Option<Day>,
) -> Result<Vec<BookingRow>, Error>
    ensures reads { ReadsKept (state S.Store conn.old) (state S.Store conn.new) result
        (λ rows. AreBookings room.now day (tables_in (state S.Store conn.old).now.trees) rows.items) }
    ensures failed { FailsByStoreAlone (state S.Store conn.old) (state S.Store conn.new) result }
{
    let rows = rows_in(conn, alloc, room)?;
    calendar(rows, day)
}

// Of the rows that cancels fill the one that is of the room.
fn choose_taken(
    room: &RoomName,
    cancelled: Option<CancelledRow>,
    cancel: Option<CancelRow>,
) -> Option<PlaceRow>
    ensures { result ≡ taken_in room.now cancelled cancel }
{
    match cancelled {
        Some(row) if row.booking.room == *room => Some(PlaceRow::Cancelled(row)),
        _ => match cancel {
            Some(row) if row.room == *room => Some(PlaceRow::Cancel(row)),
            _ => None,
        },
    }
}

// Of the rows with one id the one that is of the room.
fn choose(
    room: &RoomName,
    booking: Option<BookingRow>,
    error: Option<ErrorRow>,
    other: Option<PlaceRow>,
) -> Option<PlaceRow>
    ensures { result ≡ chosen room.now booking error other }
{
    match booking {
        Some(row) if row.room == *room => Some(PlaceRow::Booked(row)),
        _ => match error {
            Some(row) if row.room == *room => Some(PlaceRow::Logged(row)),
            _ => other,
        },
    }
}

/// The row of the write with this id, if it is of that room.
pub(crate) fn place_of<S: Alter>(
    conn: &mut Idle<S>,
    alloc: Global,
    room: &RoomName,
    id: WriteId,
) -> Result<Option<PlaceRow>, Error>
    ensures reads { ReadsKept (state S.Store conn.old) (state S.Store conn.new) result
        (λ row. IsPlaceOf room.now id (tables_in (state S.Store conn.old).now.trees) row) }
    ensures failed { FailsByStoreAlone (state S.Store conn.old) (state S.Store conn.new) result }
{
    let rows = rows_of::<BookingRow, ErrorRow, S>(conn, alloc, id)?;
    let others = rows_of::<CancelledRow, CancelRow, S>(conn, alloc, id)?;
    let other = choose_taken(room, others.0, others.1);
    Ok(choose(room, rows.0, rows.1, other))
}
