// Changes by hand, and what the keepers then answer. The functions that call a keeper have no clause, so that the proof of
// a test does not carry the state of each call.

use crate::builders::{MONDAY, id, server};
use crate::changes::{first_change, second_change, tables};
use crate::same::same;
use mr_base::{Day, Refusal, RoomName, WriteId};
use mr_part::Scope;
use mr_store::{Fault, Keeper, ListKeeper, PlaceRow, Tripped};
use mr_tables::{BookingRow, CancelRow, CancelledRow, Change, ErrorRow};
use std::alloc::Global;
use std::process::Abort;

/// What became of a request in a room, or that a cancel has the id.
#[derive(Clone, Copy, PartialEq)]
pub(crate) enum Place {
    Booked,
    Logged,
    Cancelled,
    Cancel,
    Nowhere,
}

/// A question about a room, with what a keeper is to answer.
#[derive(Clone, Copy)]
pub(crate) enum Asked {
    /// Its bookings, of Monday or of all days, by server and count.
    Bookings(bool, &'static [(u32, u32)]),
    /// Whether its first bookings are committed.
    Committed(&'static [bool]),
    /// The requests in its error log.
    Errors(&'static [(u32, u32)]),
    /// Its requests that were taken back.
    Cancelled(&'static [(u32, u32)]),
    /// Its cancels, which the keepers have in the order of their ids.
    Cancels(&'static [(u32, u32)]),
    /// What became of a request of replica 2.
    PlaceOf(u32, Place),
}

/// A call of a keeper, with what it is to answer.
#[derive(Clone, Copy)]
pub(crate) enum Call {
    ApplyFirst,
    ApplySecond,
    /// The known rooms, which the keepers have in the order of their names.
    Rooms(&'static [&'static str]),
    /// A question about this room.
    Of(&'static str, Asked),
    /// How many rows there are of rooms, bookings and logged requests.
    Read(usize, usize, usize),
}

/// The keeper of replica 2, whose primary is 1, before it knows anything.
pub(crate) fn opening(rt: &impl Abort, alloc: Global) -> ListKeeper {
    let own = server(2).expect(rt, "a server");
    let primary = server(1).expect(rt, "a server");
    ListKeeper::new(alloc, own, primary)
}

/// The refusal that tells of a fault, in its place.
pub(crate) fn told<T: Drop>(answer: Result<T, Fault>) -> Result<T, Refusal> {
    Ok(answer?)
}

pub(crate) fn apply<K: Keeper>(
    keeper: &mut K,
    change: Result<Change, Refusal>,
) -> Result<bool, Refusal> {
    let change = change?;
    told(keeper.apply(&change))?;
    Ok(true)
}

fn are_named(rooms: &[RoomName], names: &[&str]) -> bool {
    for (room, name) in rooms.iter().zip(names) {
        if room.as_str() != *name {
            return false;
        }
    }
    rooms.len() == names.len()
}

fn has_rooms<K: Keeper>(keeper: &mut K, names: &[&str]) -> Result<bool, Refusal> {
    let rooms = told(keeper.rooms())?;
    Ok(are_named(rooms.as_slice(), names))
}

/// A row of a write.
trait OfWrite {
    /// The server and the count of the write.
    fn write(&self) -> (u32, u32);
}

impl OfWrite for BookingRow {
    fn write(&self) -> (u32, u32) {
        (self.server.number(), self.n)
    }
}

impl OfWrite for ErrorRow {
    fn write(&self) -> (u32, u32) {
        (self.server.number(), self.n)
    }
}

impl OfWrite for CancelledRow {
    fn write(&self) -> (u32, u32) {
        self.booking.write()
    }
}

impl OfWrite for CancelRow {
    fn write(&self) -> (u32, u32) {
        (self.server.number(), self.n)
    }
}

/// Whether the rows are of these writes, in this order.
fn are_of<R: OfWrite>(rows: &[R], writes: &[(u32, u32)]) -> bool {
    for (row, of) in rows.iter().zip(writes) {
        if row.write() != *of {
            return false;
        }
    }
    rows.len() == writes.len()
}

fn has_bookings<K: Keeper>(
    keeper: &mut K,
    room: &RoomName,
    day: Option<Day>,
    requests: &[(u32, u32)],
) -> Result<bool, Refusal> {
    let rows = told(keeper.bookings(room, day))?;
    Ok(are_of(rows.as_slice(), requests))
}

fn are_committed(rows: &[BookingRow], wanted: &[bool]) -> bool {
    for (row, committed) in rows.iter().zip(wanted) {
        if row.committed != *committed {
            return false;
        }
    }
    rows.len() >= wanted.len()
}

fn has_committed<K: Keeper>(
    keeper: &mut K,
    room: &RoomName,
    wanted: &[bool],
) -> Result<bool, Refusal> {
    let rows = told(keeper.bookings(room, None))?;
    Ok(are_committed(rows.as_slice(), wanted))
}

fn has_errors<K: Keeper>(
    keeper: &mut K,
    room: &RoomName,
    requests: &[(u32, u32)],
) -> Result<bool, Refusal> {
    let rows = told(keeper.errors(room))?;
    Ok(are_of(rows.as_slice(), requests))
}

fn has_cancelled<K: Keeper>(
    keeper: &mut K,
    room: &RoomName,
    requests: &[(u32, u32)],
) -> Result<bool, Refusal> {
    let rows = told(keeper.cancelled(room))?;
    Ok(are_of(rows.as_slice(), requests))
}

fn has_cancels<K: Keeper>(
    keeper: &mut K,
    room: &RoomName,
    ids: &[(u32, u32)],
) -> Result<bool, Refusal> {
    let rows = told(keeper.cancels(room))?;
    Ok(are_of(rows.as_slice(), ids))
}

fn place_in(row: &Option<PlaceRow>) -> Place {
    match row {
        Some(PlaceRow::Booked(_)) => Place::Booked,
        Some(PlaceRow::Logged(_)) => Place::Logged,
        Some(PlaceRow::Cancelled(_)) => Place::Cancelled,
        Some(PlaceRow::Cancel(_)) => Place::Cancel,
        None => Place::Nowhere,
    }
}

fn has_place<K: Keeper>(
    keeper: &mut K,
    room: &RoomName,
    n: u32,
    wanted: Place,
) -> Result<bool, Refusal> {
    let row = told(keeper.place_of(room, id(2, n)?))?;
    Ok(place_in(&row) == wanted)
}

fn has_rows<K: Keeper>(
    keeper: &mut K,
    rooms: usize,
    bookings: usize,
    errors: usize,
) -> Result<bool, Refusal> {
    let rows = told(keeper.read())?;
    Ok(rows.room.len() == rooms && rows.booking.len() == bookings && rows.errorlog.len() == errors)
}

fn monday(is_asked: bool) -> Result<Option<Day>, Refusal> {
    if is_asked {
        Ok(Some(Day::read(MONDAY)?))
    } else {
        Ok(None)
    }
}

/// Whether the keeper answers the question about the room so.
fn tells<K: Keeper>(keeper: &mut K, room: &RoomName, asked: Asked) -> Result<bool, Refusal> {
    match asked {
        Asked::Bookings(is_of_monday, requests) => {
            has_bookings(keeper, room, monday(is_of_monday)?, requests)
        }
        Asked::Committed(wanted) => has_committed(keeper, room, wanted),
        Asked::Errors(requests) => has_errors(keeper, room, requests),
        Asked::Cancelled(requests) => has_cancelled(keeper, room, requests),
        Asked::Cancels(ids) => has_cancels(keeper, room, ids),
        Asked::PlaceOf(n, wanted) => has_place(keeper, room, n, wanted),
    }
}

/// Whether the keeper answers the call so; or the refusal that tells of its fault.
pub(crate) fn answers<K: Keeper>(
    keeper: &mut K,
    alloc: Global,
    call: Call,
) -> Result<bool, Refusal> {
    match call {
        Call::ApplyFirst => apply(keeper, first_change(alloc)),
        Call::ApplySecond => apply(keeper, second_change(alloc)),
        Call::Rooms(names) => has_rooms(keeper, names),
        Call::Of(room, asked) => {
            let room = RoomName::new(alloc, room)?;
            tells(keeper, &room, asked)
        }
        Call::Read(rooms, bookings, errors) => has_rows(keeper, rooms, bookings, errors),
    }
}

/// The keeper, asked one call after the other, answers so.
pub(crate) fn check<K: Keeper>(rt: &impl Abort, alloc: Global, keeper: &mut K, calls: &[Call]) {
    for (index, call) in calls.iter().enumerate() {
        same(rt, &answers(keeper, alloc, *call), &Ok(true), index);
    }
}

/// Whether the desk that is loaded has the position of replica 2 before it knows anything.
fn has_first_position<K: Keeper>(keeper: &mut K) -> Result<bool, Refusal> {
    let Ok(desk) = keeper.load() else {
        return Err(Refusal::Store);
    };
    let position = desk.position()?;
    Ok(position.server.number() == 2 && position.commits == 0 && position.counts.is_empty())
}

static OF_NOTHING: [Call; 6] = [
    Call::Rooms(&[]),
    Call::Of("oak", Asked::Bookings(false, &[])),
    Call::Of("oak", Asked::Errors(&[])),
    Call::Of("oak", Asked::Cancelled(&[])),
    Call::Of("oak", Asked::Cancels(&[])),
    Call::Of("oak", Asked::PlaceOf(1, Place::Nowhere)),
];

#[test]
fn a_new_keeper_knows_nothing(rt: HostRuntime) {
    let mut keeper = opening(&rt, rt.alloc());
    check(&rt, rt.alloc(), &mut keeper, &OF_NOTHING);
}

#[test]
fn a_new_keeper_has_a_desk(rt: HostRuntime) {
    let mut keeper = opening(&rt, rt.alloc());
    same(
        &rt,
        &has_first_position(&mut keeper),
        &Ok(true),
        "a position",
    );
}

static OF_THE_FIRST_CHANGE: [Call; 20] = [
    Call::ApplyFirst,
    Call::Rooms(&["elm", "oak"]),
    Call::Of(
        "oak",
        Asked::Bookings(false, &[(1, 1), (1, 3), (2, 4), (2, 1), (2, 2)]),
    ),
    Call::Of(
        "oak",
        Asked::Bookings(true, &[(1, 1), (1, 3), (2, 4), (2, 1)]),
    ),
    Call::Of("elm", Asked::Bookings(false, &[(1, 2)])),
    Call::Of("oak", Asked::Errors(&[(2, 3)])),
    Call::Of("elm", Asked::Errors(&[])),
    Call::Of("oak", Asked::PlaceOf(1, Place::Booked)),
    Call::Of("elm", Asked::PlaceOf(1, Place::Nowhere)),
    Call::Of("oak", Asked::PlaceOf(3, Place::Logged)),
    Call::Of("elm", Asked::PlaceOf(3, Place::Nowhere)),
    Call::Of("oak", Asked::PlaceOf(5, Place::Nowhere)),
    Call::Of("elm", Asked::PlaceOf(5, Place::Nowhere)),
    Call::Of("oak", Asked::Cancelled(&[(2, 6)])),
    Call::Of("elm", Asked::Cancelled(&[])),
    Call::Of("oak", Asked::Cancels(&[(2, 7), (2, 8)])),
    Call::Of("oak", Asked::PlaceOf(6, Place::Cancelled)),
    Call::Of("oak", Asked::PlaceOf(7, Place::Cancel)),
    Call::Of("elm", Asked::PlaceOf(7, Place::Nowhere)),
    Call::Read(2, 6, 1),
];

#[test]
fn rows_that_are_put_are_found(rt: HostRuntime) {
    let mut keeper = opening(&rt, rt.alloc());
    check(&rt, rt.alloc(), &mut keeper, &OF_THE_FIRST_CHANGE);
}

pub(crate) static OF_BOTH_CHANGES: [Call; 8] = [
    Call::ApplyFirst,
    Call::ApplySecond,
    Call::Of(
        "oak",
        Asked::Bookings(false, &[(1, 1), (1, 3), (2, 4), (2, 3), (2, 2)]),
    ),
    Call::Of("oak", Asked::Errors(&[(2, 1)])),
    Call::Of("oak", Asked::Committed(&[true, false])),
    Call::Of("oak", Asked::Cancelled(&[])),
    Call::Of("oak", Asked::Cancels(&[(2, 7), (2, 8)])),
    Call::Read(2, 6, 1),
];

#[test]
fn rows_are_replaced_and_taken_away(rt: HostRuntime) {
    let mut keeper = opening(&rt, rt.alloc());
    check(&rt, rt.alloc(), &mut keeper, &OF_BOTH_CHANGES);
}

/// The keeper, asked this, refuses it so.
fn check_refused<K: Keeper>(
    rt: &impl Abort,
    alloc: Global,
    keeper: &mut K,
    call: Call,
    refusal: Refusal,
) {
    same(
        rt,
        &answers(keeper, alloc, call),
        &Err(refusal),
        "a refusal",
    );
}

static OF_THE_ROOMS: [Call; 1] = [Call::Rooms(&["elm", "oak"])];

static OF_A_CHANGE: [Call; 1] = [Call::ApplyFirst];

static THEN_A_CHANGE: [Call; 3] = [
    Call::Rooms(&[]),
    Call::ApplyFirst,
    Call::Rooms(&["elm", "oak"]),
];

#[test]
fn a_trip_refuses_one_call(rt: HostRuntime) {
    let alloc = rt.alloc();
    let mut keeper = Tripped::new(opening(&rt, alloc), 0, Fault::OutOfMemory);
    let refusal = Refusal::OutOfMemory;
    check_refused(&rt, alloc, &mut keeper, OF_A_CHANGE[0], refusal);
    check(&rt, alloc, &mut keeper, &THEN_A_CHANGE);
}

#[test]
fn a_trip_comes_after_its_calls(rt: HostRuntime) {
    let alloc = rt.alloc();
    let mut keeper = Tripped::new(opening(&rt, alloc), 1, Fault::Store);
    check(&rt, alloc, &mut keeper, &OF_A_CHANGE);
    check_refused(&rt, alloc, &mut keeper, OF_THE_ROOMS[0], Refusal::Store);
    check(&rt, alloc, &mut keeper, &OF_THE_ROOMS);
}

/// The fault of one of the nine questions, if it has one.
pub(crate) fn fault_of<K: Keeper>(
    keeper: &mut K,
    call: u32,
    room: &RoomName,
    id: WriteId,
) -> Option<Fault> {
    match call {
        0 => keeper.load().err(),
        1 => keeper.load_part(&Scope::InRoom(room)).err(),
        2 => keeper.rooms().err(),
        3 => keeper.bookings(room, None).err(),
        4 => keeper.place_of(room, id).err(),
        5 => keeper.errors(room).err(),
        6 => keeper.cancelled(room).err(),
        7 => keeper.cancels(room).err(),
        _ => keeper.read().err(),
    }
}

/// A keeper that fails once, at its first call.
fn failing(rt: &impl Abort, alloc: Global) -> Tripped<ListKeeper> {
    Tripped::new(opening(rt, alloc), 0, Fault::Store)
}

/// The faults of one of the questions to a keeper that fails once, and of the same question again.
fn faults_of(
    rt: &impl Abort,
    alloc: Global,
    call: u32,
    room: &RoomName,
) -> Result<(Option<Fault>, Option<Fault>), Refusal> {
    let id = id(2, 1)?;
    let mut keeper = failing(rt, alloc);
    let first = fault_of(&mut keeper, call, room, id);
    Ok((first, fault_of(&mut keeper, call, room, id)))
}

#[test]
fn each_question_trips_once(rt: HostRuntime) {
    let room = RoomName::new(rt.alloc(), "oak").expect(&rt, "a room");
    for call in 0..9 {
        let faults = faults_of(&rt, rt.alloc(), call, &room);
        same(&rt, &faults, &Ok((Some(Fault::Store), None)), call);
    }
}

/// The fault of a change, if it has one.
pub(crate) fn fault_of_change<K: Keeper>(
    keeper: &mut K,
    alloc: Global,
) -> Result<Option<Fault>, Refusal> {
    let change = first_change(alloc)?;
    Ok(keeper.apply(&change).err())
}

#[test]
fn a_change_trips_once(rt: HostRuntime) {
    let mut keeper = failing(&rt, rt.alloc());
    for wanted in [Some(Fault::Store), None] {
        let fault = fault_of_change(&mut keeper, rt.alloc());
        same(&rt, &fault, &Ok(wanted), "a change");
    }
}

/// The fault of a part without rows of writes, if it has one.
fn fault_of_part<K: Keeper>(keeper: &mut K) -> Option<Fault> {
    keeper.load_part(&Scope::Nothing).err()
}

/// The faults of a keeper with so many commits and so many writes of a server, whose desk is loaded and then a part.
fn faults_of_loads(
    alloc: Global,
    commits: u64,
    count: u32,
) -> Result<(Option<Fault>, Option<Fault>), Refusal> {
    let mut keeper = ListKeeper::over(alloc, tables(alloc, commits, count)?)?;
    let desk = keeper.load().err();
    Ok((desk, fault_of_part(&mut keeper)))
}

#[test]
fn rows_past_their_limits_are_the_stores_fault(rt: HostRuntime) {
    let both = (Some(Fault::Store), Some(Fault::Store));
    for (commits, count) in [(1_000_000_000_000, 0), (0, 1_000_000_000)] {
        let faults = faults_of_loads(rt.alloc(), commits, count);
        same(&rt, &faults, &Ok(both), (commits, count));
    }
}
