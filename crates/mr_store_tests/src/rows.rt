// Rows of tables, made of small values.

use crate::builders::{MONDAY, id, names};
use mr_base::{Day, Refusal, RoomName, WriteId};
use mr_tables::{BookingRow, CancelRow, ErrorRow, MetaRow, Tables};
use std::alloc::Global;

/// The booking of a room on a day: the minutes of its start and its end, its write, and whether that is committed.
pub(crate) fn booking_row(
    alloc: Global,
    (room, day): (&str, &str),
    (start, stop): (u32, u32),
    (number, n): (u32, u32),
    committed: bool,
) -> Result<BookingRow, Refusal> {
    let (day, WriteId { server, n }) = (Day::read(day)?, id(number, n)?);
    let (room, title) = names(alloc, room, "Audit")?;
    Ok(BookingRow {
        room,
        day,
        start: start.min(1440),
        stop: stop.min(1440),
        server,
        n,
        title,
        committed,
    })
}

/// A logged request for oak on Monday: the minutes of its start and its end, its write, and the time and the commit number of that.
pub(crate) fn error_row(
    alloc: Global,
    (start, stop): (u32, u32),
    (number, n): (u32, u32),
    (time, seq): (u64, u64),
) -> Result<ErrorRow, Refusal> {
    let (day, WriteId { server, n }) = (Day::read(MONDAY)?, id(number, n)?);
    let (room, title) = names(alloc, "oak", "Audit")?;
    Ok(ErrorRow {
        room,
        day,
        start: start.min(1440),
        stop: stop.min(1440),
        server,
        n,
        title,
        time,
        seq,
    })
}

/// A cancel in oak: its write and that of its target, whether it is done, its time and its commit number.
pub(crate) fn cancel_row(
    alloc: Global,
    (number, n): (u32, u32),
    (of, target): (u32, u32),
    done: bool,
    (time, seq): (u64, u64),
) -> Result<CancelRow, Refusal> {
    let (WriteId { server, n }, target) = (id(number, n)?, id(of, target)?);
    Ok(CancelRow {
        server,
        n,
        room: RoomName::new(alloc, "oak")?,
        target,
        done,
        time,
        seq,
    })
}

/// The tables with nothing but this row of meta.
pub(crate) fn no_rows(alloc: Global, meta: MetaRow) -> Tables {
    Tables {
        meta,
        room: Vec::new(alloc),
        vector: Vec::new(alloc),
        log: Vec::new(alloc),
        booking: Vec::new(alloc),
        errorlog: Vec::new(alloc),
        cancelled: Vec::new(alloc),
        cancels: Vec::new(alloc),
    }
}
