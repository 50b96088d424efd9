// Rows and changes of replica 2, whose primary is 1.

use crate::builders::{MONDAY, TUESDAY, add, id, names, server, slot, slots};
use crate::rows::{booking_row, cancel_row, error_row, no_rows};
use mr_base::{Refusal, Request, RoomName};
use mr_tables::{
    BookingRow, CancelRow, CancelledRow, Change, ErrorRow, MetaRow, Tables, VectorRow,
};
use std::alloc::Global;

pub(crate) fn meta(commits: u64) -> Result<MetaRow, Refusal> {
    Ok(MetaRow {
        server: server(2)?,
        primary: server(1)?,
        commits,
        dropped: 0,
        clock: 9,
    })
}

/// A booking of half an hour: the room, the day, the start, the request, and whether it is committed.
pub(crate) type Booked = (&'static str, &'static str, u32, (u32, u32), bool);

static FIRST_BOOKED: [Booked; 6] = [
    ("oak", TUESDAY, 540, (2, 2), false),
    ("oak", MONDAY, 900, (2, 1), false),
    ("oak", MONDAY, 540, (2, 4), false),
    ("oak", MONDAY, 540, (1, 3), false),
    ("elm", MONDAY, 540, (1, 2), false),
    ("oak", MONDAY, 540, (1, 1), false),
];

static THEN_BOOKED: [Booked; 2] = [
    ("oak", MONDAY, 930, (2, 3), false),
    ("oak", MONDAY, 540, (1, 1), true),
];

pub(crate) fn booking(
    alloc: Global,
    (room, day, start, write, committed): Booked,
) -> Result<BookingRow, Refusal> {
    let start = start.min(1410);
    booking_row(alloc, (room, day), (start, start + 30), write, committed)
}

fn add_bookings(alloc: Global, rows: &mut Vec<BookingRow>, of: &[Booked]) -> Result<(), Refusal> {
    for booked in of {
        add(rows, booking(alloc, *booked))?;
    }
    Ok(())
}

/// A tentative request of replica 2 for half an hour of oak on Monday at 09:00, which was logged.
pub(crate) fn error(alloc: Global, n: u32) -> Result<ErrorRow, Refusal> {
    error_row(alloc, (540, 570), (2, n), (9, 0))
}

/// A request for half an hour of oak on Monday at 09:00, else on Tuesday at 09:00 or 15:00.
pub(crate) fn request(alloc: Global) -> Result<Request, Refusal> {
    let wish = slot(MONDAY, 540)?;
    let (room, title) = names(alloc, "oak", "Audit")?;
    Request::new(room, title, 30, wish, slots(alloc, TUESDAY, &[540, 900])?)
}

/// Nothing but this row of meta.
pub(crate) fn no_change(alloc: Global, meta: MetaRow) -> Change {
    Change {
        meta,
        room: Vec::new(alloc),
        vector: Vec::new(alloc),
        dropped: Vec::new(alloc),
        log: Vec::new(alloc),
        unbooked: Vec::new(alloc),
        booking: Vec::new(alloc),
        unlogged: Vec::new(alloc),
        errorlog: Vec::new(alloc),
        uncancelled: Vec::new(alloc),
        cancelled: Vec::new(alloc),
        cancels: Vec::new(alloc),
    }
}

/// 2-6 was taken back by 2-7: its row in oak, on Monday.
fn taken_back(alloc: Global) -> Result<CancelledRow, Refusal> {
    let row = booking(alloc, ("oak", MONDAY, 600, (2, 6), false))?;
    let by = id(2, 7)?;
    Ok(CancelledRow { booking: row, by })
}

/// A tentative cancel of 2-6 in oak.
fn cancel(alloc: Global, n: u32, done: bool) -> Result<CancelRow, Refusal> {
    cancel_row(alloc, (2, n), (2, 6), done, (9, 0))
}

/// 2-6 was taken back by 2-7, and 2-8 found nothing to take back.
fn put_cancels(alloc: Global, change: &mut Change) -> Result<(), Refusal> {
    add(&mut change.cancelled, taken_back(alloc))?;
    add(&mut change.cancels, cancel(alloc, 8, false))?;
    add(&mut change.cancels, cancel(alloc, 7, true))
}

/// So many writes of a server, so many of them committed, the last of the latest time.
fn counted(of: u32, count: u32, committed: u32) -> Result<VectorRow, Refusal> {
    Ok(VectorRow {
        server: server(of)?,
        count,
        last_time: 9,
        committed,
    })
}

fn put_first(alloc: Global, change: &mut Change) -> Result<(), Refusal> {
    add(&mut change.room, RoomName::new(alloc, "oak"))?;
    add(&mut change.room, RoomName::new(alloc, "elm"))?;
    add(&mut change.vector, counted(1, 3, 0))?;
    add(&mut change.vector, counted(2, 8, 0))?;
    add_bookings(alloc, &mut change.booking, &FIRST_BOOKED)?;
    add(&mut change.errorlog, error(alloc, 3))?;
    put_cancels(alloc, change)
}

/// Six bookings of two rooms, a request that was logged, a booking that was taken back, and two cancels of it.
pub(crate) fn first_change(alloc: Global) -> Result<Change, Refusal> {
    let mut change = no_change(alloc, meta(0)?);
    put_first(alloc, &mut change)?;
    Ok(change)
}

fn put_second(alloc: Global, change: &mut Change) -> Result<(), Refusal> {
    add(&mut change.vector, counted(1, 3, 1))?;
    add(&mut change.unbooked, id(2, 1))?;
    add_bookings(alloc, &mut change.booking, &THEN_BOOKED)?;
    add(&mut change.unlogged, id(2, 3))?;
    add(&mut change.errorlog, error(alloc, 1))?;
    add(&mut change.uncancelled, id(2, 6))
}

/// 2-1 loses its slot, 2-3 gets one, 1-1 is committed, and 2-6 is taken back no more.
pub(crate) fn second_change(alloc: Global) -> Result<Change, Refusal> {
    let mut change = no_change(alloc, meta(1)?);
    put_second(alloc, &mut change)?;
    Ok(change)
}

/// The tables with nothing but the number of commits and a server's count of writes.
pub(crate) fn tables(alloc: Global, commits: u64, count: u32) -> Result<Tables, Refusal> {
    let mut tables = no_rows(alloc, meta(commits)?);
    tables.vector.push(counted(1, count, 0)?)?;
    Ok(tables)
}
