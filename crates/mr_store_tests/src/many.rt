// Keepers with their rows in memory answer alike through many changes, and have the rows of plain lists then.

use crate::builders::{MONDAY, add, id, server};
use crate::changes::{Booked, booking, error, meta, no_change};
use crate::keepers::{opening, told};
use crate::plain::{change_tables, opening_tables};
use crate::same::same;
use mr_base::{Day, Refusal, RoomName};
use mr_store::{Cached, Keeper, PlaceRow};
use mr_tables::{BookingRow, Change, ErrorRow};
use std::alloc::Global;

/// How many changes are made.
const STEPS: u32 = 1_250;

/// Who made the booking of this step: replica 2 at first, and then three in turn.
fn maker(step: u32) -> u32 {
    if step < 1_100 { 2 } else { step % 3 + 1 }
}

fn room_of(step: u32) -> &'static str {
    if step % 3 == 0 { "elm" } else { "oak" }
}

fn booked_at(step: u32) -> Booked {
    let start = step.min(1_400);
    (
        room_of(step),
        MONDAY,
        start,
        (maker(step), step.saturating_add(1)),
        false,
    )
}

/// A booking in each step. In some also one that has moved and is committed, a logged request, or, from some step on,
/// one that is taken away.
fn put_at(alloc: Global, change: &mut Change, step: u32) -> Result<(), Refusal> {
    add(&mut change.booking, booking(alloc, booked_at(step)))?;
    if step % 47 == 46 {
        let moved: Booked = ("oak", MONDAY, 900, (maker(step - 41), step - 40), true);
        add(&mut change.booking, booking(alloc, moved))?;
    }
    if step > 1_050 && step % 23 == 0 {
        add(&mut change.unbooked, id(maker(step - 21), step - 20))?;
    }
    if step % 5 == 0 {
        add(
            &mut change.errorlog,
            error(alloc, step.saturating_add(10_000)),
        )?;
    }
    Ok(())
}

fn change_at(alloc: Global, step: u32) -> Result<Change, Refusal> {
    let mut change = no_change(alloc, meta(0)?);
    put_at(alloc, &mut change, step)?;
    Ok(change)
}

/// What is seen of a row: its server, its count, its start, and whether it is committed.
type Seen = (u32, u32, u32, bool);

fn see_bookings(rows: &[BookingRow], seen: &mut Vec<Seen>) -> Result<(), Refusal> {
    for row in rows {
        seen.push((row.server.number(), row.n, row.start, row.committed))?;
    }
    Ok(())
}

fn see_errors(rows: &[ErrorRow], seen: &mut Vec<Seen>) -> Result<(), Refusal> {
    for row in rows {
        seen.push((row.server.number(), row.n, row.start, row.seq != 0))?;
    }
    Ok(())
}

fn see_place(row: &Option<PlaceRow>, seen: &mut Vec<Seen>) -> Result<(), Refusal> {
    if let Some(PlaceRow::Booked(row)) = row {
        seen.push((row.server.number(), row.n, row.start, row.committed))?;
    }
    Ok(())
}

fn see_room<K: Keeper>(
    keeper: &mut K,
    room: &RoomName,
    day: Option<Day>,
    seen: &mut Vec<Seen>,
) -> Result<(), Refusal> {
    let rows = told(keeper.bookings(room, day))?;
    see_bookings(&rows, seen)
}

fn see_logged<K: Keeper>(
    keeper: &mut K,
    room: &RoomName,
    seen: &mut Vec<Seen>,
) -> Result<(), Refusal> {
    let rows = told(keeper.errors(room))?;
    see_errors(&rows, seen)
}

fn see_request<K: Keeper>(
    keeper: &mut K,
    room: &RoomName,
    n: u32,
    seen: &mut Vec<Seen>,
) -> Result<(), Refusal> {
    let row = told(keeper.place_of(room, id(2, n)?))?;
    see_place(&row, seen)
}

/// What the keeper answers about the room of this step.
fn ask<K: Keeper>(
    keeper: &mut K,
    alloc: Global,
    step: u32,
    seen: &mut Vec<Seen>,
) -> Result<(), Refusal> {
    let room = RoomName::new(alloc, room_of(step))?;
    see_room(keeper, &room, None, seen)?;
    see_room(keeper, &room, Some(Day::read(MONDAY)?), seen)?;
    see_logged(keeper, &room, seen)?;
    see_request(keeper, &room, step / 2 + 1, seen)
}

/// Makes the change of this step.
fn change<K: Keeper>(keeper: &mut K, alloc: Global, step: u32) -> Result<(), Refusal> {
    let change = change_at(alloc, step)?;
    told(keeper.apply(&change))
}

/// Makes the change of this step, and asks about its room in some.
fn stepped<K: Keeper>(keeper: &mut K, alloc: Global, step: u32) -> Result<Vec<Seen>, Refusal> {
    change(keeper, alloc, step)?;
    let mut seen = Vec::new(alloc);
    if step % 41 == 0 {
        ask(keeper, alloc, step, &mut seen)?;
    }
    Ok(seen)
}

/// All bookings and all logged requests.
fn all_rows<K: Keeper>(keeper: &mut K, alloc: Global) -> Result<Vec<Seen>, Refusal> {
    let tables = told(keeper.read())?;
    let mut seen = Vec::new(alloc);
    see_bookings(&tables.booking, &mut seen)?;
    see_errors(&tables.errorlog, &mut seen)?;
    Ok(seen)
}

fn is_step_alike<A: Keeper, B: Keeper>(
    one: &mut A,
    other: &mut B,
    alloc: Global,
    step: u32,
) -> Result<bool, Refusal> {
    let first = stepped(one, alloc, step)?;
    let second = stepped(other, alloc, step)?;
    Ok(first == second)
}

fn are_rows_alike<A: Keeper, B: Keeper>(
    one: &mut A,
    other: &mut B,
    alloc: Global,
) -> Result<bool, Refusal> {
    let first = all_rows(one, alloc)?;
    let second = all_rows(other, alloc)?;
    Ok(first == second)
}

/// Whether both answer alike at each step, and have the same rows then.
fn are_alike<A: Keeper, B: Keeper>(
    one: &mut A,
    other: &mut B,
    alloc: Global,
) -> Result<bool, Refusal> {
    for step in 0..STEPS {
        if !is_step_alike(one, other, alloc, step)? {
            return Ok(false);
        }
    }
    are_rows_alike(one, other, alloc)
}

/// The rows of this keeper behind all changes.
fn changed_rows<K: Keeper>(keeper: &mut K, alloc: Global) -> Result<Vec<Seen>, Refusal> {
    for step in 0..STEPS {
        change(keeper, alloc, step)?;
    }
    all_rows(keeper, alloc)
}

/// The rows of plain lists behind the same changes.
fn plain_rows(alloc: Global) -> Result<Vec<Seen>, Refusal> {
    let mut tables = opening_tables(alloc, server(2)?, server(1)?);
    for step in 0..STEPS {
        let change = change_at(alloc, step)?;
        change_tables(alloc, &mut tables, &change)?;
    }
    let mut seen = Vec::new(alloc);
    see_bookings(&tables.booking, &mut seen)?;
    see_errors(&tables.errorlog, &mut seen)?;
    Ok(seen)
}

#[test]
fn many_changes_leave_the_rows_of_plain_lists(rt: HostRuntime) {
    let alloc = rt.alloc();
    let mut keeper = opening(&rt, alloc);
    same(
        &rt,
        &changed_rows(&mut keeper, alloc),
        &plain_rows(alloc),
        "lists",
    );
}

#[test]
fn many_changes_are_remembered(rt: HostRuntime) {
    let alloc = rt.alloc();
    let mut lists = opening(&rt, alloc);
    let mut both = Cached::new(alloc, opening(&rt, alloc));
    same(
        &rt,
        &are_alike(&mut both, &mut lists, alloc),
        &Ok(true),
        "many",
    );
}
