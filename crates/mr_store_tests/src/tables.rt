// Tables of server 3, whose primary is 1, written out by hand: each server has one write, its first, for an hour of oak.

use crate::builders::{MONDAY, add, id, server};
use crate::rows::{booking_row, cancel_row, error_row, no_rows};
use mr_base::{Refusal, RoomName, Title};
use mr_replay::Place;
use mr_tables::{
    ActionCells, BookingRow, CancelRow, CancelledRow, ErrorRow, LogRow, MeetingCells, MetaRow,
    Tables, VectorRow,
};
use std::alloc::Global;

/// The rows of the tables.
#[derive(Clone, Copy)]
pub(crate) struct Rows {
    /// How many commits there are, how many of them are dropped, and the greatest time.
    pub meta: (u64, u64, u64),
    /// Each server's number, the time of its write, and how many of its writes are committed.
    pub vector: &'static [(u32, u64, u32)],
    /// The server, the time, the choices, the place and the commit number of each kept write.
    pub log: &'static [(u32, u64, &'static str, Place, u64)],
    /// The server, the time, the place and the commit number of each kept cancel, and the server of what it cancels. Its server is
    /// below those of the other kept writes, since the rows come in the order of keys.
    pub kept_cancels: &'static [(u32, u64, Place, u64, u32)],
    /// The servers whose write is committed and has the hour from 14:30 on.
    pub booking: &'static [u32],
    /// The server of each write that wished the hour from 14:00 on at time 1, and its commit number.
    pub errorlog: &'static [(u32, u64)],
    /// The server of each write that had the hour from 14:30 on, that of the cancel that took it back, and whether the write is
    /// committed.
    pub cancelled: &'static [(u32, u32, bool)],
    /// The server of each cancel, that of what it cancels, whether it is done, its time and its commit number.
    pub cancels: &'static [(u32, u32, bool, u64, u64)],
}

fn add_vector(list: &mut Vec<VectorRow>, of: &[(u32, u64, u32)]) -> Result<(), Refusal> {
    for (number, last_time, committed) in of {
        list.push(VectorRow {
            server: server(*number)?,
            count: 1,
            last_time: *last_time,
            committed: *committed,
        })?;
    }
    Ok(())
}

fn cancel(
    alloc: Global,
    (number, time, place, seq, target): (u32, u64, Place, u64, u32),
) -> Result<LogRow, Refusal> {
    let (server, target) = (server(number)?, id(target, 1)?);
    Ok(LogRow {
        server,
        n: 1,
        time,
        room: RoomName::new(alloc, "oak")?,
        action: ActionCells::OfCancel(target),
        place,
        seq,
    })
}

/// The cells of an hour with these choices.
fn cells(alloc: Global, choices: &str) -> Result<MeetingCells, Refusal> {
    let choices = String::from_str(alloc, choices)?;
    Ok(MeetingCells {
        length: 60,
        choices,
        title: Title::new(alloc, "Audit")?,
    })
}

fn meeting(
    alloc: Global,
    (number, time, choices, place, seq): (u32, u64, &str, Place, u64),
) -> Result<LogRow, Refusal> {
    let server = server(number)?;
    let cells = cells(alloc, choices)?;
    Ok(LogRow {
        server,
        n: 1,
        time,
        room: RoomName::new(alloc, "oak")?,
        action: ActionCells::OfMeeting(cells),
        place,
        seq,
    })
}

fn add_log(alloc: Global, list: &mut Vec<LogRow>, of: &Rows) -> Result<(), Refusal> {
    for row in of.kept_cancels {
        add(list, cancel(alloc, *row))?;
    }
    for row in of.log {
        add(list, meeting(alloc, *row))?;
    }
    Ok(())
}

/// The write of this server has the hour from 14:30 on.
fn booked(alloc: Global, number: u32, committed: bool) -> Result<BookingRow, Refusal> {
    booking_row(alloc, ("oak", MONDAY), (870, 930), (number, 1), committed)
}

fn add_bookings(alloc: Global, list: &mut Vec<BookingRow>, of: &[u32]) -> Result<(), Refusal> {
    for number in of {
        add(list, booked(alloc, *number, true))?;
    }
    Ok(())
}

fn add_errors(alloc: Global, list: &mut Vec<ErrorRow>, of: &[(u32, u64)]) -> Result<(), Refusal> {
    for (number, seq) in of {
        add(list, error_row(alloc, (840, 900), (*number, 1), (1, *seq)))?;
    }
    Ok(())
}

fn taken_back(
    alloc: Global,
    (number, by, committed): (u32, u32, bool),
) -> Result<CancelledRow, Refusal> {
    let booking = booked(alloc, number, committed)?;
    let by = id(by, 1)?;
    Ok(CancelledRow { booking, by })
}

fn add_taken_back(
    alloc: Global,
    list: &mut Vec<CancelledRow>,
    of: &[(u32, u32, bool)],
) -> Result<(), Refusal> {
    for row in of {
        add(list, taken_back(alloc, *row))?;
    }
    Ok(())
}

fn add_cancels(
    alloc: Global,
    list: &mut Vec<CancelRow>,
    of: &[(u32, u32, bool, u64, u64)],
) -> Result<(), Refusal> {
    for (number, target, done, time, seq) in of {
        let row = cancel_row(alloc, (*number, 1), (*target, 1), *done, (*time, *seq));
        add(list, row)?;
    }
    Ok(())
}

fn meta((commits, dropped, clock): (u64, u64, u64)) -> Result<MetaRow, Refusal> {
    Ok(MetaRow {
        server: server(3)?,
        primary: server(1)?,
        commits,
        dropped,
        clock,
    })
}

/// Puts these rows into the tables; oak is known if there is a row of `booking` or `cancelled`.
fn fill(alloc: Global, tables: &mut Tables, rows: &Rows) -> Result<(), Refusal> {
    if !rows.booking.is_empty() || !rows.cancelled.is_empty() {
        add(&mut tables.room, RoomName::new(alloc, "oak"))?;
    }
    add_vector(&mut tables.vector, rows.vector)?;
    add_log(alloc, &mut tables.log, rows)?;
    add_bookings(alloc, &mut tables.booking, rows.booking)?;
    add_errors(alloc, &mut tables.errorlog, rows.errorlog)?;
    add_taken_back(alloc, &mut tables.cancelled, rows.cancelled)?;
    add_cancels(alloc, &mut tables.cancels, rows.cancels)
}

/// The tables with these rows.
pub(crate) fn tables(alloc: Global, rows: &Rows) -> Result<Tables, Refusal> {
    let mut tables = no_rows(alloc, meta(rows.meta)?);
    fill(alloc, &mut tables, rows)?;
    Ok(tables)
}
