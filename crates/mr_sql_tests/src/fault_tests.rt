// Scripts in which the keeper of one office fails once, at each of its calls in turn: the command is refused, nothing has changed, and it
// has its reply when it is given again. The memory is ample.

use crate::offices::{Offices, Step, opened};
use crate::opening::Opening;
use crate::same_text::{is_text, same_count, same_text, same_texts};
use crate::scripts::{CHAIN, COMMITTED_FIRST, EQUAL_TIMES, MADE_VOID, Row, TRUNCATED, TURNED};
use mr_base::Refusal;
use mr_service::refusal_text;
use mr_sql::SqlKeeper;
use mr_store::{Fault, Keeper, ListKeeper, Tripped};
use sqlite::MemStore;
use std::alloc::Global;
use std::process::Abort;

/// The office whose keeper fails, after how many calls, and how.
#[derive(Clone, Copy)]
struct Trip {
    office: u32,
    left: u64,
    fault: Fault,
}

fn tripped<K: Opening + Drop>(
    alloc: Global,
    office: u32,
    trip: Trip,
) -> Result<Tripped<K>, Refusal> {
    let left = if office == trip.office {
        trip.left
    } else {
        u64::MAX
    };
    Ok(Tripped::new(K::open(alloc, office)?, left, trip.fault))
}

fn opened_tripped<K: Opening + Drop>(
    alloc: Global,
    trip: Trip,
) -> Result<Offices<Tripped<K>>, Refusal> {
    let first = tripped(alloc, 1, trip)?;
    let second = tripped(alloc, 2, trip)?;
    let third = tripped(alloc, 3, trip)?;
    Ok(Offices::over(alloc, first, second, third))
}

/// The step has its reply, or is refused so, and what is seen at the offices is what is seen at the plain ones, which haven't taken it; it has
/// its reply then once it is taken again. Answers whether it was refused.
fn is_refused_once<K: Keeper + Drop>(
    rt: &impl Abort,
    offices: &mut Offices<K>,
    plain: &mut Offices<ListKeeper>,
    (step, want): Row,
    refusal: &[u8],
) -> bool {
    let text = offices.take(step);
    if !is_text(&text, refusal) {
        same_text(rt, &text, want);
        return false;
    }
    same_texts(rt, &offices.seen(), &plain.seen());
    same_text(rt, &offices.take(step), want);
    true
}

/// How many steps of the script are refused. Each is taken at the offices whose keepers don't fail, too.
fn refusals_at<K: Keeper + Drop>(
    rt: &impl Abort,
    offices: &mut Offices<K>,
    plain: &mut Offices<ListKeeper>,
    script: &[Row],
    refusal: &[u8],
) -> u64 {
    let mut refusals = 0u64;
    for row in script {
        if is_refused_once(rt, offices, plain, *row, refusal) {
            refusals = refusals.saturating_add(1);
        }
        same_text(rt, &plain.take(row.0), row.1);
    }
    refusals
}

/// One step of the script is refused, or none if the keeper has fewer calls.
fn refusals<K: Opening + Drop>(rt: &impl Abort, alloc: Global, script: &[Row], trip: Trip) -> u64 {
    let mut offices = opened_tripped::<K>(alloc, trip).expect(rt, "offices");
    let mut plain = opened::<ListKeeper>(alloc).expect(rt, "offices");
    let refusal = refusal_text(alloc, &Refusal::from(trip.fault)).expect(rt, "a text");
    refusals_at(rt, &mut offices, &mut plain, script, refusal.as_slice())
}

/// More calls than a keeper has.
const MANY: u64 = 100;

/// Lets each call of an office's keeper fail in turn, until none is left to fail. Answers how many there are.
fn calls<K: Opening + Drop>(
    rt: &impl Abort,
    alloc: Global,
    script: &[Row],
    office: u32,
    fault: Fault,
) -> u64 {
    for left in 0..MANY {
        let trip = Trip {
            office,
            left,
            fault,
        };
        if refusals::<K>(rt, alloc, script, trip) == 0 {
            return left;
        }
    }
    MANY
}

/// The calls of these offices' keepers are so many.
fn check<K: Opening + Drop>(
    rt: &impl Abort,
    alloc: Global,
    fault: Fault,
    script: &[Row],
    want: &[(u32, u64)],
) {
    for (office, count) in want {
        let found = calls::<K>(rt, alloc, script, *office, fault);
        same_count(rt, found, *count, *office as usize);
    }
}

// The offices and the calls of their keepers: a question takes two, for the rooms and for rows; the outcome of a booking that was taken
// back asks for the cancel besides, the error log and the committed calendar for cancels, and the calendar for what was taken back; a change
// takes two, unless it is refused; a position or a batch takes one.

const OF_EQUAL_TIMES: [(u32, u64); 2] = [(1, 10), (2, 10)];

const OF_TURNED: [(u32, u64); 3] = [(1, 6), (2, 15), (3, 5)];

const OF_CHAIN: [(u32, u64); 2] = [(1, 5), (2, 16)];

const OF_TRUNCATED: [(u32, u64); 3] = [(1, 11), (2, 9), (3, 6)];

const OF_MADE_VOID: [(u32, u64); 2] = [(1, 5), (2, 14)];

const OF_COMMITTED_FIRST: [(u32, u64); 1] = [(1, 21)];

fn check_lists(rt: &impl Abort, alloc: Global, fault: Fault) {
    check::<ListKeeper>(rt, alloc, fault, &EQUAL_TIMES, &OF_EQUAL_TIMES);
    check::<ListKeeper>(rt, alloc, fault, &TURNED, &OF_TURNED);
    check::<ListKeeper>(rt, alloc, fault, &CHAIN, &OF_CHAIN);
    check::<ListKeeper>(rt, alloc, fault, &TRUNCATED, &OF_TRUNCATED);
    check::<ListKeeper>(rt, alloc, fault, &MADE_VOID, &OF_MADE_VOID);
    check::<ListKeeper>(rt, alloc, fault, &COMMITTED_FIRST, &OF_COMMITTED_FIRST);
}

#[test]
fn calls_fail_over_lists(rt: HostRuntime) {
    check_lists(&rt, rt.alloc(), Fault::OutOfMemory);
    check_lists(&rt, rt.alloc(), Fault::Store);
}

/// The same over a database, on which each run takes longer.
fn check_database(rt: &impl Abort, alloc: Global, script: &[Row], want: &[(u32, u64)]) {
    check::<SqlKeeper<MemStore>>(rt, alloc, Fault::OutOfMemory, script, want);
    check::<SqlKeeper<MemStore>>(rt, alloc, Fault::Store, script, want);
}

#[test]
fn calls_fail_over_a_database_at_equal_times(rt: HostRuntime) {
    check_database(&rt, rt.alloc(), &EQUAL_TIMES, &OF_EQUAL_TIMES);
}

#[test]
fn calls_fail_over_a_database_as_commits_turn(rt: HostRuntime) {
    check_database(&rt, rt.alloc(), &TURNED, &OF_TURNED);
}

#[test]
fn calls_fail_over_a_database_in_a_chain(rt: HostRuntime) {
    check_database(&rt, rt.alloc(), &CHAIN, &OF_CHAIN);
}

#[test]
fn calls_fail_over_a_database_with_truncation(rt: HostRuntime) {
    check_database(&rt, rt.alloc(), &TRUNCATED, &OF_TRUNCATED);
}

#[test]
fn calls_fail_over_a_database_as_a_cancel_is_void(rt: HostRuntime) {
    check_database(&rt, rt.alloc(), &MADE_VOID, &OF_MADE_VOID);
}

#[test]
fn calls_fail_over_a_database_as_cancels_are_committed(rt: HostRuntime) {
    check_database(&rt, rt.alloc(), &COMMITTED_FIRST, &OF_COMMITTED_FIRST);
}
