// Cancels at desks and at parts: what each call answers, and which rows it puts.

use crate::builders::{Ask, Line, id};
use crate::calls::{OPENING, TAKEN_BACK};
use crate::desks::{Call, NO_ERROR, NONE, NOTHING, Put, Told, answer, batch, opening, puts};
use crate::same::same;
use crate::tables::{Rows, tables};
use mr_base::{Item, Refusal, RoomName};
use mr_part::{Part, Scope};
use mr_replay::Place;
use mr_replica::Desk;
use mr_tables::Change;
use std::alloc::Global;
use std::process::Abort;

const ALPHA: Ask = Ask {
    title: "Alpha",
    length: 60,
    wish: 540,
    others: &[],
};

const BETA: Ask = Ask {
    title: "Beta",
    length: 60,
    wish: 540,
    others: &[600],
};

const GAMMA: Ask = Ask {
    title: "Gamma",
    length: 60,
    wish: 540,
    others: &[],
};

const XRAY: Ask = Ask {
    title: "Xray",
    length: 60,
    wish: 570,
    others: &[],
};

/// The rows that a call puts into `cancelled` and `cancels`, the first of each: the server, the number and the start of a booking,
/// the cancel that took it back, and whether the booking is committed; the server and the number of a cancel, whether it is done,
/// and its commit number. The servers are 0 if there is none.
type Taken = ((u32, u32, u32), (u32, u32), bool, (u32, u32, bool, u64));

const NO_CANCEL: (u32, u32, bool, u64) = (0, 0, false, 0);

const NOTHING_TAKEN: Taken = (NONE, (0, 0), false, NO_CANCEL);

/// A call of a server's desk, what it answers, and which rows it puts.
type Row = (usize, Call, Result<Told, Refusal>, Put, Taken);

const LATE: Ask = Ask {
    title: "Late",
    length: 30,
    wish: 540,
    others: &[],
};

/// A cancel of server 1, of a booking of server 2 that hasn't come.
const CANCEL_FIRST: &[Line] = &[Line::X(1, 1, 1, 2, 1)];

/// That booking.
const BOOKING_THEN: &[Line] = &[Line::W(2, 1, 2, LATE)];

static CASES: [(&str, &[Row]); 5] = [
    // A tentative cancel takes a committed booking back, and its slot is free.
    (
        "a booking is taken back",
        &[
            (1, Call::AddOak, Ok((0, 0)), NOTHING, NOTHING_TAKEN),
            (
                1,
                Call::Submit(ALPHA),
                Ok((1, 0)),
                ((1, 1, 540), NONE, NO_ERROR),
                NOTHING_TAKEN,
            ),
            (
                1,
                Call::Submit(BETA),
                Ok((2, 0)),
                ((1, 2, 600), NONE, NO_ERROR),
                NOTHING_TAKEN,
            ),
            (
                1,
                Call::Commit(1),
                Ok((1, 0)),
                ((1, 1, 540), NONE, NO_ERROR),
                NOTHING_TAKEN,
            ),
            (
                1,
                Call::Cancel(1, 1),
                Ok((3, 0)),
                NOTHING,
                ((1, 1, 540), (1, 3), true, (1, 3, true, 0)),
            ),
            (
                1,
                Call::Submit(GAMMA),
                Ok((4, 0)),
                ((1, 4, 540), NONE, NO_ERROR),
                NOTHING_TAKEN,
            ),
            // What is taken back already stays so, and the cancel is void.
            (
                1,
                Call::Cancel(1, 1),
                Ok((5, 0)),
                NOTHING,
                (NONE, (0, 0), false, (1, 5, false, 0)),
            ),
            // A cancel is no booking.
            (
                1,
                Call::Cancel(1, 3),
                Err(Refusal::NoSuchRequest),
                NOTHING,
                NOTHING_TAKEN,
            ),
            // The first version can say what stands in front of the cancel.
            (
                2,
                Call::HandOverFirst(1, 4),
                Err(Refusal::NeedsVersion2),
                NOTHING,
                NOTHING_TAKEN,
            ),
            (
                2,
                Call::HandOverFirst(1, 3),
                Ok((2, 1)),
                ((1, 1, 540), (1, 2, 600), NO_ERROR),
                NOTHING_TAKEN,
            ),
            // The second can say all of it.
            (
                2,
                Call::HandOver(1, 1),
                Ok((1, 0)),
                NOTHING,
                ((1, 1, 540), (1, 3), true, (1, 3, true, 0)),
            ),
            // The booking behind the cancel isn't the last line.
            (
                2,
                Call::HandOverFirst(1, 10),
                Err(Refusal::NeedsVersion2),
                NOTHING,
                NOTHING_TAKEN,
            ),
            (
                2,
                Call::HandOverFirst(1, 1),
                Ok((1, 0)),
                ((1, 4, 540), NONE, NO_ERROR),
                NOTHING_TAKEN,
            ),
            (
                2,
                Call::HandOver(1, 10),
                Ok((1, 0)),
                NOTHING,
                (NONE, (0, 0), false, (1, 5, false, 0)),
            ),
            (
                2,
                Call::HandOverFirst(1, 10),
                Ok((0, 0)),
                NOTHING,
                NOTHING_TAKEN,
            ),
        ],
    ),
    // What comes behind a cancel of it stands. The first version can say it to one that has the cancel.
    (
        "a cancel comes before its booking",
        &[
            (
                3,
                Call::Receive(1, CANCEL_FIRST),
                Ok((1, 0)),
                NOTHING,
                (NONE, (0, 0), false, (1, 1, false, 0)),
            ),
            (
                3,
                Call::Receive(1, BOOKING_THEN),
                Ok((1, 0)),
                ((2, 1, 540), NONE, NO_ERROR),
                NOTHING_TAKEN,
            ),
            (
                4,
                Call::HandOverFirst(3, 1),
                Err(Refusal::NeedsVersion2),
                NOTHING,
                NOTHING_TAKEN,
            ),
            (
                4,
                Call::HandOver(3, 1),
                Ok((1, 0)),
                NOTHING,
                (NONE, (0, 0), false, (1, 1, false, 0)),
            ),
            (
                4,
                Call::HandOverFirst(3, 10),
                Ok((1, 0)),
                ((2, 1, 540), NONE, NO_ERROR),
                NOTHING_TAKEN,
            ),
        ],
    ),
    // The write of server 1 comes before both of server 2: the booking is logged, and the cancel is void.
    (
        "a cancel finds nothing to take back",
        &[
            (1, Call::AddOak, Ok((0, 0)), NOTHING, NOTHING_TAKEN),
            (2, Call::AddOak, Ok((0, 0)), NOTHING, NOTHING_TAKEN),
            (
                2,
                Call::Submit(ALPHA),
                Ok((1, 0)),
                ((2, 1, 540), NONE, NO_ERROR),
                NOTHING_TAKEN,
            ),
            (
                2,
                Call::Cancel(2, 1),
                Ok((2, 0)),
                NOTHING,
                ((2, 1, 540), (2, 2), false, (2, 2, true, 0)),
            ),
            (
                1,
                Call::Submit(XRAY),
                Ok((1, 0)),
                ((1, 1, 570), NONE, NO_ERROR),
                NOTHING_TAKEN,
            ),
            (
                2,
                Call::HandOver(1, 10),
                Ok((1, 0)),
                ((1, 1, 570), NONE, (2, 1, 0)),
                (NONE, (0, 0), false, (2, 2, false, 0)),
            ),
        ],
    ),
    // A commit keeps what was taken back so.
    (
        "a booking that was taken back is committed",
        &[
            (1, Call::AddOak, Ok((0, 0)), NOTHING, NOTHING_TAKEN),
            (
                1,
                Call::Submit(ALPHA),
                Ok((1, 0)),
                ((1, 1, 540), NONE, NO_ERROR),
                NOTHING_TAKEN,
            ),
            (
                1,
                Call::Cancel(1, 1),
                Ok((2, 0)),
                NOTHING,
                ((1, 1, 540), (1, 2), false, (1, 2, true, 0)),
            ),
            (
                1,
                Call::Commit(1),
                Ok((1, 0)),
                NOTHING,
                ((1, 1, 540), (1, 2), true, NO_CANCEL),
            ),
            (
                1,
                Call::Commit(1),
                Ok((1, 0)),
                NOTHING,
                (NONE, (0, 0), false, (1, 2, true, 2)),
            ),
        ],
    ),
    // What was read goes on: the committed booking is dropped, and stays taken back.
    (
        "a booking that was taken back is read",
        &[
            (
                3,
                Call::Cancel(3, 1),
                Err(Refusal::UnknownRoom),
                NOTHING,
                NOTHING_TAKEN,
            ),
            (
                3,
                Call::Read(&TAKEN_BACK),
                Ok((0, 0)),
                NOTHING,
                NOTHING_TAKEN,
            ),
            (3, Call::Position, Ok((1, 2)), NOTHING, NOTHING_TAKEN),
            (3, Call::Truncate(1), Ok((1, 1)), NOTHING, NOTHING_TAKEN),
            (
                3,
                Call::Cancel(3, 1),
                Ok((2, 0)),
                NOTHING,
                (NONE, (0, 0), false, (3, 2, false, 0)),
            ),
        ],
    ),
];

fn cancelled(change: &Change) -> ((u32, u32, u32), (u32, u32), bool) {
    match change.cancelled.first() {
        Some(row) => (
            (
                row.booking.server.number(),
                row.booking.n,
                row.booking.start,
            ),
            (row.by.server.number(), row.by.n),
            row.booking.committed,
        ),
        None => (NONE, (0, 0), false),
    }
}

fn cancel(change: &Change) -> (u32, u32, bool, u64) {
    match change.cancels.first() {
        Some(row) => (row.server.number(), row.n, row.done, row.seq),
        None => NO_CANCEL,
    }
}

/// Whether the change puts these rows into `cancelled` and `cancels`.
fn takes(change: &Change, taken: Taken) -> bool {
    let (booking, by, committed, row) = taken;
    cancelled(change) == (booking, by, committed)
        && cancel(change) == row
        && change.cancelled.len() < 2
        && change.cancels.len() < 2
}

/// Whether the desk at that place answers the call so, and puts these rows.
fn is_answered(alloc: Global, desks: &mut Vec<Desk>, row: Row) -> bool {
    let (own, call, wanted, put, taken) = row;
    match answer(alloc, desks, own, call) {
        Ok((told, Some(change))) => {
            wanted == Ok(told) && puts(&change, put) && takes(&change, taken)
        }
        Ok((told, None)) => wanted == Ok(told),
        Err(refusal) => wanted == Err(refusal),
    }
}

/// The desks, asked one call after the other, answer so and put these rows.
fn check_calls(rt: &impl Abort, alloc: Global, desks: &mut Vec<Desk>, name: &str, rows: &[Row]) {
    for (index, row) in rows.iter().enumerate() {
        same(rt, &is_answered(alloc, desks, *row), &true, (name, index));
    }
}

#[test]
fn cancels_are_answered(rt: HostRuntime) {
    for (name, rows) in &CASES {
        let mut desks = opening(rt.alloc()).expect(&rt, "desks");
        check_calls(&rt, rt.alloc(), &mut desks, name, rows);
    }
}

/// Server 3's write, and server 2's cancel that took it back, are tentative.
const BOTH_TENTATIVE: Rows = Rows {
    meta: (0, 0, 3),
    vector: &[(2, 3, 0), (3, 2, 0)],
    log: &[(3, 2, "1995-12-18 14:30", Place::Taken(0), 0)],
    kept_cancels: &[(2, 3, Place::Done, 0, 3)],
    cancelled: &[(3, 2, false)],
    cancels: &[(2, 3, true, 3, 0)],
    ..OPENING
};

fn rows_of(alloc: Global, rows: &Rows, scope: &Scope<'_>) -> Result<u64, Refusal> {
    let part = Part::from_tables(alloc, scope, &tables(alloc, rows)?)?;
    Ok(part.rows())
}

/// How many rows the part for the next commit has, that for a cancel of server 3's write, and that for a batch without lines.
fn counts(alloc: Global) -> Result<[u64; 3], Refusal> {
    let target = id(3, 1)?;
    let of_commit = rows_of(alloc, &BOTH_TENTATIVE, &Scope::NextCommits(1))?;
    let of_target = rows_of(alloc, &BOTH_TENTATIVE, &Scope::OfTarget(target))?;
    let no_items: &[Item] = &[];
    let of_batch = rows_of(alloc, &BOTH_TENTATIVE, &Scope::Items(no_items))?;
    Ok([of_commit, of_target, of_batch])
}

fn rows_of_room(alloc: Global, room: &str) -> Result<u64, Refusal> {
    // For the prover alone, which follows a scope only if the types of all that a scope may hold are in use.
    let _no_item: Option<&Item> = None;
    let room = RoomName::new(alloc, room)?;
    rows_of(alloc, &BOTH_TENTATIVE, &Scope::InRoom(&room))
}

/// A submission's part has what was booked in its room, also if it was taken back, and nothing of another room.
#[test]
fn rows_of_a_submission_are_counted(rt: HostRuntime) {
    for (room, count) in [("oak", 1), ("elm", 0)] {
        same(&rt, &rows_of_room(rt.alloc(), room), &Ok(count), room);
    }
}

/// A commit's part has the row of the log and that of the booking that was taken back.
#[test]
fn rows_of_parts_are_counted(rt: HostRuntime) {
    same(&rt, &counts(rt.alloc()), &Ok([2, 1, 0]), "parts");
}

/// How many rows the part has for a batch with server 1's cancel of server 3's write, at this time.
fn rows_of_cancel(alloc: Global, time: u64) -> Result<u64, Refusal> {
    let batch = batch(alloc, 1, &[Line::X(1, 1, time, 3, 1)])?;
    rows_of(alloc, &BOTH_TENTATIVE, &Scope::Items(&batch.items))
}

/// A cancel that is received moves what stands behind it in its room: two rows of the log, or one. Beside them the part has the row of the
/// booking that was taken back.
#[test]
fn rows_of_a_received_cancel_are_counted(rt: HostRuntime) {
    for (time, count) in [(1, 3), (3, 2)] {
        same(&rt, &rows_of_cancel(rt.alloc(), time), &Ok(count), time);
    }
}
