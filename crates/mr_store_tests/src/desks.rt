// Calls of the desks of four servers, what each answers, and which rows it puts, as small values. The functions that call a
// desk have no clause, so that the proof of a test does not carry the state of each call.

use crate::builders;
use crate::builders::{Ask, Line, MONDAY, id, request, server};
use crate::same::same;
use crate::tables::{Rows, tables};
use mr_base::{Batch, Ending, LineCount, Position, Refusal, Request, RoomName, Version, WriteId};
use mr_replica::Desk;
use mr_tables::Change;
use std::alloc::Global;
use std::process::Abort;

/// A call of a desk, or a question to it.
#[derive(Clone, Copy)]
pub(crate) enum Call {
    /// These tables are read instead of the desk.
    Read(&'static Rows),
    AddOak,
    Submit(Ask),
    /// A cancel of that server's write with that number.
    Cancel(u32, u32),
    /// A batch for the replicas of that primary, or one without a header or a line if that is 0. It is of the first version
    /// if that can say its lines.
    Receive(u32, &'static [Line]),
    /// What this desk lacks of that server's, so many lines at most.
    HandOver(usize, u32),
    /// The same in the first version.
    HandOverFirst(usize, u32),
    Commit(u64),
    Truncate(u64),
    Position,
}

/// The numbers that a call tells, 0 in the place of one that it doesn't: the number of the new write; how many writes and how
/// many commits were new; how many commits were made; how many are dropped, and how many writes leave the logs; how many commits
/// there are, and of how many servers writes are known.
pub(crate) type Told = (u64, u64);

/// The rows that a call puts: the server, the number and the start of the first two bookings, and the server, the time and the
/// commit number of the first error; 0 if there is none.
pub(crate) type Put = ((u32, u32, u32), (u32, u32, u32), (u32, u64, u64));

pub(crate) const NONE: (u32, u32, u32) = (0, 0, 0);

pub(crate) const NO_ERROR: (u32, u64, u64) = (0, 0, 0);

pub(crate) const NOTHING: Put = (NONE, NONE, NO_ERROR);

/// A call of a server's desk, what it answers, and which rows it puts.
pub(crate) type Row = (usize, Call, Result<Told, Refusal>, Put);

/// The first version that can say these lines.
fn version_of(lines: &[Line]) -> Version {
    for line in lines {
        if let Line::X(_, _, _, _, _) = line {
            return Version::Second;
        }
    }
    Version::First
}

/// A batch that server 1 made for the replicas of this primary, or one without a header or a line if that is 0. It is of the first version
/// if that can say its lines.
pub(crate) fn batch(alloc: Global, primary: u32, lines: &[Line]) -> Result<Batch, Refusal> {
    if primary == 0 {
        return Ok(Batch::without_header(Vec::new(alloc)));
    }
    let version = version_of(lines);
    builders::batch(alloc, version, (1, primary), lines, Ending::Complete)
}

/// The desks of four servers, whose primary is 1, each at the place of its number; at place 0 stands one that no call asks.
pub(crate) fn opening(alloc: Global) -> Result<Vec<Desk>, Refusal> {
    let mut desks = Vec::new(alloc);
    for number in [9, 1, 2, 3, 4] {
        desks.push(Desk::new(alloc, server(number)?, server(1)?))?;
    }
    Ok(desks)
}

/// The desk's position as one of the first version.
fn first_position(desk: &Desk) -> Result<Position, Refusal> {
    let Position {
        version: _,
        server,
        primary,
        commits,
        counts,
    } = desk.position()?;
    Position::new(Version::First, server, primary, commits, counts).ok_or(Refusal::Store)
}

/// The position by which the desk asks in the call.
fn asking(desk: &Desk, call: Call) -> Result<Position, Refusal> {
    match call {
        Call::HandOverFirst(_, _) => first_position(desk),
        _ => desk.position(),
    }
}

/// What one desk hands over to another that asks by this call, so many lines at most.
fn handed(from: &Desk, own: &Desk, call: Call, most: u32) -> Result<Batch, Refusal> {
    let most = LineCount::new(most).ok_or(Refusal::NotAReplica)?;
    let asked = asking(own, call)?;
    from.batch(&asked, most)
}

/// The batch that the desk at this place receives by the call, which is empty if it receives none.
fn brought(alloc: Global, desks: &[Desk], own: usize, call: Call) -> Result<Batch, Refusal> {
    match call {
        Call::Receive(primary, lines) => batch(alloc, primary, lines),
        Call::HandOver(from, most) | Call::HandOverFirst(from, most) => {
            match (desks.get(from), desks.get(own)) {
                (Some(from), Some(own)) => handed(from, own, call, most),
                _ => Err(Refusal::NotAReplica),
            }
        }
        _ => Ok(Batch::without_header(Vec::new(alloc))),
    }
}

/// What a desk tells, and what changes in its tables, if the call says that.
pub(crate) type Answer = (Told, Option<Change>);

fn read(alloc: Global, desk: &mut Desk, rows: &Rows) -> Result<Answer, Refusal> {
    let tables = tables(alloc, rows)?;
    *desk = Desk::from_tables(alloc, &tables)?;
    Ok(((0, 0), None))
}

fn add_oak(alloc: Global, desk: &mut Desk) -> Result<Answer, Refusal> {
    let oak = RoomName::new(alloc, "oak")?;
    Ok(((0, 0), Some(desk.add_room(&oak)?)))
}

fn submit(desk: &mut Desk, request: Request) -> Result<Answer, Refusal> {
    let (id, change) = desk.submit(request)?;
    Ok(((u64::from(id.n), 0), Some(change)))
}

fn cancel(desk: &mut Desk, room: RoomName, target: WriteId) -> Result<Answer, Refusal> {
    let (id, change) = desk.cancel(room, target)?;
    Ok(((u64::from(id.n), 0), Some(change)))
}

fn receive(desk: &mut Desk, batch: &Batch) -> Result<Answer, Refusal> {
    let (writes, commits, change) = desk.receive(batch)?;
    Ok(((writes, commits), Some(change)))
}

fn commit(desk: &mut Desk, most: u64) -> Result<Answer, Refusal> {
    let (count, change) = desk.commit(most)?;
    Ok(((count, 0), Some(change)))
}

fn truncate(desk: &mut Desk, number: u64) -> Result<Answer, Refusal> {
    let (dropped, change) = desk.truncate(number)?;
    Ok(((dropped, change.dropped.len() as u64), Some(change)))
}

fn tell_position(desk: &Desk) -> Result<Answer, Refusal> {
    let position = desk.position()?;
    Ok(((position.commits, position.counts.len() as u64), None))
}

/// What the desk answers to the call.
fn called(alloc: Global, desk: &mut Desk, call: Call, batch: &Batch) -> Result<Answer, Refusal> {
    match call {
        Call::Read(rows) => read(alloc, desk, rows),
        Call::AddOak => add_oak(alloc, desk),
        Call::Submit(ask) => submit(desk, request(alloc, ("oak", MONDAY), ask)?),
        Call::Cancel(number, n) => {
            let target = id(number, n)?;
            cancel(desk, RoomName::new(alloc, "oak")?, target)
        }
        Call::Receive(_, _) | Call::HandOver(_, _) | Call::HandOverFirst(_, _) => {
            receive(desk, batch)
        }
        Call::Commit(most) => commit(desk, most),
        Call::Truncate(number) => truncate(desk, number),
        Call::Position => tell_position(desk),
    }
}

fn booked_at(change: &Change, index: usize) -> (u32, u32, u32) {
    match change.booking.get(index) {
        Some(row) => (row.server.number(), row.n, row.start),
        None => NONE,
    }
}

fn logged(change: &Change) -> (u32, u64, u64) {
    match change.errorlog.first() {
        Some(row) => (row.server.number(), row.time, row.seq),
        None => NO_ERROR,
    }
}

/// Whether each write that the change books, logs or takes back leaves the two other tables.
fn leaves_others(change: &Change) -> bool {
    let (books, logs) = (change.booking.len(), change.errorlog.len());
    let takes = change.cancelled.len();
    books + takes == change.unlogged.len()
        && logs + takes == change.unbooked.len()
        && books + logs == change.uncancelled.len()
}

/// Whether the change puts these rows, and a write that it books, logs or takes back leaves the other tables.
pub(crate) fn puts(change: &Change, put: Put) -> bool {
    let (books, logs) = (change.booking.len(), change.errorlog.len());
    (booked_at(change, 0), booked_at(change, 1), logged(change)) == put
        && leaves_others(change)
        && books < 3
        && logs < 2
}

/// What the desk at that place answers to the call, and what that changes in its tables.
pub(crate) fn answer(
    alloc: Global,
    desks: &mut Vec<Desk>,
    own: usize,
    call: Call,
) -> Result<Answer, Refusal> {
    let batch = brought(alloc, desks.as_slice(), own, call)?;
    match desks.get_mut(own) {
        Some(desk) => called(alloc, desk, call, &batch),
        None => Err(Refusal::NotAReplica),
    }
}

/// Whether the desk at that place answers the call so, and puts these rows.
fn is_answered(alloc: Global, desks: &mut Vec<Desk>, (own, call, wanted, put): Row) -> bool {
    match answer(alloc, desks, own, call) {
        Ok((told, Some(change))) => wanted == Ok(told) && puts(&change, put),
        Ok((told, None)) => wanted == Ok(told),
        Err(refusal) => wanted == Err(refusal),
    }
}

/// The desks, asked one call after the other, answer so and put these rows.
fn check_calls(rt: &impl Abort, alloc: Global, desks: &mut Vec<Desk>, name: &str, rows: &[Row]) {
    for (index, row) in rows.iter().enumerate() {
        same(rt, &is_answered(alloc, desks, *row), &true, (name, index));
    }
}

/// So it is in each case, which begins with new desks.
pub(crate) fn check_cases(rt: &impl Abort, alloc: Global, cases: &[(&str, &[Row])]) {
    for (name, rows) in cases {
        let mut desks = opening(alloc).expect(rt, "desks");
        check_calls(rt, alloc, &mut desks, name, rows);
    }
}

fn change_of_last(
    alloc: Global,
    desks: &mut Vec<Desk>,
    own: usize,
    calls: &[Call],
) -> Result<Option<Change>, Refusal> {
    let mut last = None;
    for call in calls {
        let (_, change) = answer(alloc, desks, own, *call)?;
        last = change;
    }
    Ok(last)
}

/// What the last of these calls of a new desk changes.
pub(crate) fn last_change(
    alloc: Global,
    own: usize,
    calls: &[Call],
) -> Result<Option<Change>, Refusal> {
    let mut desks = opening(alloc)?;
    change_of_last(alloc, &mut desks, own, calls)
}
