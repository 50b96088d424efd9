// A keeper with its rows in memory answers as the keeper below does, also after a fault of that.

use crate::builders::{TUESDAY, id, slot};
use crate::changes::{first_change, request};
use crate::keepers::{
    Asked, Call, OF_BOTH_CHANGES, Place, answers, apply, check, fault_of, fault_of_change, opening,
    told,
};
use crate::same::same;
use mr_base::{Refusal, Request, RoomName, Slot, WriteId};
use mr_part::{Part, Scope};
use mr_store::{Cached, Fault, Keeper, ListKeeper, Tripped};
use mr_tables::Change;
use std::alloc::Global;
use std::process::Abort;

static ALL_ROWS: [Call; 1] = [Call::Read(2, 6, 1)];

#[test]
fn rows_in_memory_are_those_of_the_keeper(rt: HostRuntime) {
    let alloc = rt.alloc();
    let mut both = Cached::new(alloc, opening(&rt, alloc));
    check(&rt, alloc, &mut both, &OF_BOTH_CHANGES);
    let mut below = both.release();
    check(&rt, alloc, &mut below, &ALL_ROWS);
}

/// Questions before, between and behind both changes.
static OF_ALL: [Call; 12] = [
    Call::Rooms(&[]),
    Call::ApplyFirst,
    Call::Of(
        "oak",
        Asked::Bookings(false, &[(1, 1), (1, 3), (2, 4), (2, 1), (2, 2)]),
    ),
    Call::Of("oak", Asked::Errors(&[(2, 3)])),
    Call::Of("oak", Asked::PlaceOf(3, Place::Logged)),
    Call::ApplySecond,
    Call::Rooms(&["elm", "oak"]),
    Call::Of(
        "oak",
        Asked::Bookings(false, &[(1, 1), (1, 3), (2, 4), (2, 3), (2, 2)]),
    ),
    Call::Of("oak", Asked::Committed(&[true, false])),
    Call::Of("oak", Asked::Errors(&[(2, 1)])),
    Call::Of("oak", Asked::PlaceOf(1, Place::Logged)),
    Call::Read(2, 6, 1),
];

/// The keeper answers the calls so, one after the other; a call that is refused is made once more. It answers how many were refused.
fn refused<K: Keeper>(rt: &impl Abort, alloc: Global, keeper: &mut K, refusal: Refusal) -> u32 {
    let mut count: u32 = 0;
    for (index, call) in OF_ALL.iter().enumerate() {
        let first = answers(keeper, alloc, *call);
        if first != Ok(true) {
            same(rt, &first, &Err(refusal), index);
            same(
                rt,
                &answers(keeper, alloc, *call),
                &Ok(true),
                (index, "again"),
            );
            count = count.saturating_add(1);
        }
    }
    count
}

// Run with an allocation that fails (`rt try --test --fail-alloc N`), one call is refused, and made when it is asked for again.
#[test]
fn a_call_that_memory_refuses_is_made_again(rt: HostRuntime) {
    let alloc = rt.alloc();
    let mut lists = opening(&rt, alloc);
    let count = refused(&rt, alloc, &mut lists, Refusal::OutOfMemory);
    same(&rt, &(count < 2), &true, count);
}

/// A keeper with its rows in memory over one that fails once, after so many calls.
fn cached(rt: &impl Abort, alloc: Global, left: u64, fault: Fault) -> Cached<Tripped<ListKeeper>> {
    Cached::new(alloc, Tripped::new(opening(rt, alloc), left, fault))
}

/// The one call that fails is refused, and all answers behind it are right. The keeper below is asked three times: for its rows, and to
/// make each change.
fn check_fault(rt: &impl Abort, alloc: Global, left: u64, fault: Fault) {
    let mut keeper = cached(rt, alloc, left, fault);
    let count = refused(rt, alloc, &mut keeper, Refusal::from(fault));
    let wanted = if left < 3 { 1 } else { 0 };
    same(rt, &count, &wanted, left);
}

#[test]
fn after_want_of_memory_the_answers_are_right(rt: HostRuntime) {
    for left in 0..4 {
        check_fault(&rt, rt.alloc(), left, Fault::OutOfMemory);
    }
}

#[test]
fn after_a_failed_store_the_answers_are_right(rt: HostRuntime) {
    for left in 0..4 {
        check_fault(&rt, rt.alloc(), left, Fault::Store);
    }
}

/// The first fault of two rounds of questions.
fn fault_in_rounds<K: Keeper>(keeper: &mut K, room: &RoomName, id: WriteId) -> Option<Fault> {
    for call in 0..18 {
        let fault = fault_of(keeper, call % 9, room, id);
        if fault.is_some() {
            return fault;
        }
    }
    None
}

fn fault_of_questions<K: Keeper>(keeper: &mut K, alloc: Global) -> Result<Option<Fault>, Refusal> {
    let id = id(2, 1)?;
    let room = RoomName::new(alloc, "oak")?;
    Ok(fault_in_rounds(keeper, &room, id))
}

// the second call of the keeper below fails, which is the change
#[test]
fn questions_ask_the_keeper_once(rt: HostRuntime) {
    let mut keeper = cached(&rt, rt.alloc(), 1, Fault::Store);
    let of_questions = fault_of_questions(&mut keeper, rt.alloc());
    same(&rt, &of_questions, &Ok(None), "two questions");
    let of_change = fault_of_change(&mut keeper, rt.alloc());
    same(&rt, &of_change, &Ok(Some(Fault::Store)), "a change");
}

/// The slot of the first booking that a change puts.
fn slot_of(change: &Change) -> Result<Slot, Refusal> {
    match change.booking.first() {
        Some(row) => Slot::new(row.day, row.start),
        None => Err(Refusal::NoSuchRequest),
    }
}

fn part_of<K: Keeper>(keeper: &mut K, request: &Request) -> Result<Part, Refusal> {
    told(keeper.load_part(&Scope::InRoom(&request.room)))
}

fn slot_in(part: Part, request: Request) -> Result<Slot, Refusal> {
    let (_, change) = part.submit(request)?;
    slot_of(&change)
}

fn submitted<K: Keeper>(keeper: &mut K, alloc: Global) -> Result<Slot, Refusal> {
    let request = request(alloc)?;
    let part = part_of(keeper, &request)?;
    slot_in(part, request)
}

/// The slot that a request gets behind the first change.
fn slot_behind_first_change<K: Keeper>(keeper: &mut K, alloc: Global) -> Result<Slot, Refusal> {
    apply(keeper, first_change(alloc))?;
    submitted(keeper, alloc)
}

// the wish is taken, and so is the first alternative, which is on another day
#[test]
fn bookings_of_each_day_are_looked_at(rt: HostRuntime) {
    let alloc = rt.alloc();
    let mut keeper = Cached::new(alloc, opening(&rt, alloc));
    let found = slot_behind_first_change(&mut keeper, alloc);
    same(&rt, &found, &slot(TUESDAY, 900), "a booking");
}
