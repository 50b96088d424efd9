// What a keeper answers to each call, once a replica of it was asked the commands of memory_tests.rt. These are proved for any keeper: at one
// kind, a proof would take in all that is said of its tables.

use crate::acts::MONDAY;
use crate::opening::server;
use mr_base::{Day, Refusal, RoomName, WriteId};
use mr_store::{Keeper, PlaceRow};
use std::alloc::Global;

fn has_oak<K: Keeper>(keeper: &mut K) -> bool {
    match keeper.rooms() {
        Ok(rooms) => rooms.len() == 1 && rooms[0].as_str() == "oak",
        Err(_) => false,
    }
}

fn is_booked<K: Keeper>(keeper: &mut K, room: &RoomName, day: Option<Day>) -> bool {
    match keeper.bookings(room, day) {
        Ok(rows) => rows.len() == 1 && rows[0].n == 4 && rows[0].start == 540,
        Err(_) => false,
    }
}

fn is_logged<K: Keeper>(keeper: &mut K, room: &RoomName) -> bool {
    match keeper.errors(room) {
        Ok(rows) => rows.len() == 1 && rows[0].n == 2 && rows[0].time == 2,
        Err(_) => false,
    }
}

fn is_cancelled<K: Keeper>(keeper: &mut K, room: &RoomName) -> bool {
    match keeper.cancelled(room) {
        Ok(rows) => rows.len() == 1 && rows[0].booking.n == 1 && rows[0].by.n == 3,
        Err(_) => false,
    }
}

fn has_cancels<K: Keeper>(keeper: &mut K, room: &RoomName) -> bool {
    match keeper.cancels(room) {
        Ok(rows) => rows.len() == 2 && rows[0].done != rows[1].done,
        Err(_) => false,
    }
}

/// What the row is that a write has.
#[derive(Clone, Copy, PartialEq)]
enum Kind {
    Booked,
    Logged,
    Cancelled,
    Cancel,
    Nowhere,
}

fn id(n: u32) -> Result<WriteId, Refusal> {
    WriteId::new(server(1)?, n).ok_or(Refusal::NoSuchRequest)
}

/// The row that the write of this count has, with its count; 0 if there is none.
fn place<K: Keeper>(keeper: &mut K, room: &RoomName, n: u32) -> Result<(u32, Kind), Refusal> {
    let id = id(n)?;
    match keeper.place_of(room, id) {
        Ok(Some(PlaceRow::Booked(row))) => Ok((row.n, Kind::Booked)),
        Ok(Some(PlaceRow::Logged(row))) => Ok((row.n, Kind::Logged)),
        Ok(Some(PlaceRow::Cancelled(row))) => Ok((row.booking.n, Kind::Cancelled)),
        Ok(Some(PlaceRow::Cancel(row))) => Ok((row.n, Kind::Cancel)),
        _ => Ok((0, Kind::Nowhere)),
    }
}

/// The count of a write, and that of the row that it is wanted to have, with what the row is.
static PLACES: [(u32, (u32, Kind)); 6] = [
    (1, (1, Kind::Cancelled)),
    (2, (2, Kind::Logged)),
    (3, (3, Kind::Cancel)),
    (4, (4, Kind::Booked)),
    (5, (5, Kind::Cancel)),
    (6, (0, Kind::Nowhere)),
];

/// Whether each write has the row that it is wanted to have.
fn has_places<K: Keeper>(keeper: &mut K, room: &RoomName) -> Result<bool, Refusal> {
    for (n, wanted) in &PLACES {
        if place(keeper, room, *n)? != *wanted {
            return Ok(false);
        }
    }
    Ok(true)
}

/// Whether the desk that is loaded has the position of the five writes.
fn has_position<K: Keeper>(keeper: &mut K) -> Result<bool, Refusal> {
    let Ok(desk) = keeper.load() else {
        return Err(Refusal::Store);
    };
    let position = desk.position()?;
    let counts = &position.counts;
    Ok(position.commits == 0 && counts.len() == 1 && counts[0].1 == 5)
}

/// Whether the keeper has the rows of these commands, and no others.
pub(crate) fn has_all<K: Keeper>(keeper: &mut K, alloc: Global) -> Result<bool, Refusal> {
    let oak = RoomName::new(alloc, "oak")?;
    let monday = Day::read(MONDAY)?;
    let tuesday = Day::read("1995-12-19")?;
    let lists = has_oak(keeper) && is_booked(keeper, &oak, None) && is_logged(keeper, &oak);
    let taken_back = is_cancelled(keeper, &oak) && has_cancels(keeper, &oak);
    let days = is_booked(keeper, &oak, Some(monday)) && !is_booked(keeper, &oak, Some(tuesday));
    Ok(lists && taken_back && days && has_places(keeper, &oak)? && has_position(keeper)?)
}
