// How many rows the part of each scope has, over lists and over a database in memory, worked by hand. Replica 9 has fifty writes of elm for
// one slot, of which one is booked, and two writes of oak, which are booked; or two writes of oak for two days; or writes and cancels of oak.
// The memory is ample.

use crate::acts::{Act, said};
use crate::opening::{Opening, new_service, server};
use crate::receiving_tests::TWO;
use crate::same_text::{same_count, same_text};
use mr_base::{Refusal, RoomName, WriteId};
use mr_part::Scope;
use mr_service::Service;
use mr_sql::SqlKeeper;
use mr_store::{Keeper, ListKeeper};
use mr_wire::{read_batch, read_position};
use sqlite::MemStore;
use std::alloc::Global;
use std::process::Abort;

/// A write of oak, behind the others.
const GAMMA: &str = "mr1 2 1\nW 2 2 2 oak 30 1995-12-18 17:00 0 Gamma\nE\n";

/// A cancel of a write of oak, behind the others.
const OF_OAK: &str = "mr2 2 1\nX 2 2 2 oak 1 1\nE\n";

/// The same with the other room.
const OF_ELM: &str = "mr2 2 1\nX 2 2 2 elm 1 1\nE\n";

/// A cancel of the first write of elm, in front of the others.
const AMONG_ELM: &str = "mr2 1 1\nX 1 2 2 elm 3 1\nE\n";

/// A commit of the first write of elm.
const FIRST: &str = "mr1 1 1\nC 1 3 1\nE\n";

/// Two writes of oak, for two days.
const ON_TWO_DAYS: &str =
    "mr1 1 1\nW 1 1 1 oak 30 1995-12-18 09:00 0 Alpha\nW 1 2 2 oak 30 1995-12-19 09:00 0 Beta\nE\n";

/// A write of oak between these two, for the second day.
const AMONG_OAK: &str = "mr1 2 1\nW 2 1 1 oak 30 1995-12-19 10:00 0 Gamma\nE\n";

/// What a part is loaded for.
#[derive(Clone, Copy)]
enum For {
    Position,
    /// A submission for this room, on whatever day.
    Submission(&'static str),
    /// A cancel of the write of replica 9 with this count.
    Cancel(u32),
    Commit(u64),
    Truncation(u64),
    /// A batch for the position of this text.
    PositionOf(&'static str),
    /// A batch of this text, which is received.
    Batch(&'static str),
}

/// The writes of elm are committed: 52 rows of `log`, 3 of `booking`, 49 of `errorlog`.
static OF_COMMITTED: [(For, u64); 18] = [
    (For::Position, 0),
    (For::Submission("oak"), 2),
    // it is committed
    (For::Submission("elm"), 1),
    (For::Submission("ash"), 0),
    (For::Commit(1), 1),
    (For::Commit(9), 2),
    (For::Truncation(10), 10),
    (For::Truncation(50), 50),
    // ten commits and the two tentative writes
    (For::PositionOf("mp2 1 1\nK 40\nE\n"), 12),
    (For::PositionOf("mp2 1 1\nK 50\nE\n"), 2),
    // so also if one of these is known there
    (For::PositionOf("mp2 1 1\nK 40\nV 1 1\nE\n"), 12),
    (For::PositionOf("mp2 1 1\nK 50\nV 1 1\nE\n"), 2),
    // or all writes are
    (
        For::PositionOf("mp2 1 1\nK 40\nV 1 1\nV 2 1\nV 3 50\nE\n"),
        12,
    ),
    (
        For::PositionOf("mp2 1 1\nK 50\nV 1 1\nV 2 1\nV 3 50\nE\n"),
        2,
    ),
    // the bookings of oak
    (For::Batch(GAMMA), 2),
    // the write, which is committed already
    (For::Batch(FIRST), 1),
    // the bookings of oak
    (For::Batch(OF_OAK), 2),
    // that of elm, which is committed
    (For::Batch(OF_ELM), 1),
];

/// They are committed and dropped: 2 rows of `log`, 3 of `booking`.
static OF_DROPPED: [(For, u64); 6] = [
    (For::Submission("elm"), 1),
    (For::Commit(9), 2),
    // the dropped commits have no rows of `log`
    (For::PositionOf("mp2 1 1\nK 40\nE\n"), 2),
    (For::PositionOf("mp2 1 1\nK 50\nE\n"), 2),
    (For::Batch(GAMMA), 2),
    (For::Batch(FIRST), 0),
];

/// They are tentative.
static OF_TENTATIVE: [(For, u64); 8] = [
    (For::Submission("elm"), 1),
    (For::Commit(3), 3),
    (For::Truncation(0), 0),
    (For::PositionOf("mp2 1 1\nK 0\nE\n"), 52),
    // so also if the first 49 of elm are known
    (For::PositionOf("mp2 1 1\nK 0\nV 3 49\nE\n"), 52),
    // the bookings of oak
    (For::Batch(GAMMA), 2),
    // the writes of elm, and the one booking of elm
    (For::Batch(FIRST), 51),
    // the same without the first of these writes, which stands in front of the cancel
    (For::Batch(AMONG_ELM), 50),
];

/// Two writes of oak, booked on two days: 2 rows of `log`, 2 of `booking`.
static OF_TWO_DAYS: [(For, u64); 3] = [
    (For::Submission("oak"), 2),
    // both bookings: the write is of the first day, and stands behind both
    (For::Batch(GAMMA), 2),
    // both bookings, and the second write, which stands behind it
    (For::Batch(AMONG_OAK), 3),
];

/// A booking of oak and a cancel of it: 2 rows of `log`, 1 of `cancelled`.
static OF_TAKEN_BACK: [(For, u64); 2] = [
    (For::Submission("oak"), 1),
    // the write, and what it has in `cancelled`
    (For::Commit(1), 2),
];

/// Two requests of oak, one of which found no free slot, and two cancels: 4 rows of `log`, one each of `errorlog` and `cancelled`.
static OF_CANCELLED: [(For, u64); 12] = [
    (For::Submission("oak"), 1),
    (For::Submission("elm"), 0),
    (For::Cancel(1), 1),
    (For::Cancel(2), 1),
    (For::Cancel(3), 0),
    (For::Cancel(9), 0),
    // the write, and what it has in `cancelled`
    (For::Commit(1), 2),
    (For::Commit(9), 5),
    (For::Truncation(0), 0),
    (For::PositionOf("mp2 1 1\nK 0\nE\n"), 4),
    (For::PositionOf("mp2 1 1\nK 0\nV 9 2\nE\n"), 4),
    // the three writes of oak behind it, and the row of `cancelled`
    (For::Batch(GAMMA), 4),
];

fn rows_in<K: Keeper>(keeper: &mut K, scope: &Scope<'_>) -> Result<u64, Refusal> {
    match keeper.load_part(scope) {
        Ok(part) => Ok(part.rows()),
        Err(fault) => Err(Refusal::from(fault)),
    }
}

fn rows_of_room<K: Keeper>(alloc: Global, keeper: &mut K, room: &str) -> Result<u64, Refusal> {
    let room = RoomName::new(alloc, room)?;
    rows_in(keeper, &Scope::InRoom(&room))
}

fn rows_of_batch<K: Keeper>(alloc: Global, keeper: &mut K, text: &str) -> Result<u64, Refusal> {
    let batch = read_batch(alloc, text.as_bytes())?;
    rows_in(keeper, &Scope::Items(&batch.items))
}

fn rows_of_position<K: Keeper>(alloc: Global, keeper: &mut K, text: &str) -> Result<u64, Refusal> {
    let position = read_position(alloc, text.as_bytes())?;
    rows_in(keeper, &Scope::Above(position.commits))
}

fn rows_of_target<K: Keeper>(keeper: &mut K, n: u32) -> Result<u64, Refusal> {
    let target = WriteId::new(server(9)?, n).ok_or(Refusal::NoSuchRequest)?;
    rows_in(keeper, &Scope::OfTarget(target))
}

/// How many rows the part has.
fn rows<K: Keeper>(alloc: Global, keeper: &mut K, part: For) -> Result<u64, Refusal> {
    match part {
        For::Position => rows_in(keeper, &Scope::Nothing),
        For::Submission(room) => rows_of_room(alloc, keeper, room),
        For::Cancel(n) => rows_of_target(keeper, n),
        For::Commit(count) => rows_in(keeper, &Scope::NextCommits(count)),
        For::Truncation(number) => rows_in(keeper, &Scope::UpTo(number)),
        For::PositionOf(text) => rows_of_position(alloc, keeper, text),
        For::Batch(text) => rows_of_batch(alloc, keeper, text),
    }
}

/// How many rows there are of `log`, `booking`, `errorlog` and `cancelled`.
fn all_rows<K: Keeper>(keeper: &mut K) -> Result<[usize; 4], Refusal> {
    match keeper.read() {
        Ok(tables) => Ok([
            tables.log.len(),
            tables.booking.len(),
            tables.errorlog.len(),
            tables.cancelled.len(),
        ]),
        Err(fault) => Err(Refusal::from(fault)),
    }
}

/// The replica of this server, that was asked this, with these replies.
pub(crate) fn filled<K: Opening + Drop>(
    rt: &impl Abort,
    alloc: Global,
    server: u32,
    asked: &[(Act, &str)],
) -> Service<K> {
    let mut service = new_service::<K>(rt, alloc, server);
    for (act, want) in asked {
        same_text(rt, &said(alloc, &mut service, *act), want);
    }
    service
}

fn check_parts<K: Keeper>(rt: &impl Abort, alloc: Global, keeper: &mut K, parts: &[(For, u64)]) {
    for (index, (part, count)) in parts.iter().enumerate() {
        let found = rows(alloc, keeper, *part).expect(rt, "a part");
        same_count(rt, found, *count, index);
    }
}

/// The parts of a replica that was asked this have so many rows.
fn check_filled<K: Opening + Drop>(
    rt: &impl Abort,
    alloc: Global,
    asked: &[(Act, &str)],
    parts: &[(For, u64)],
) {
    let mut keeper = filled::<K>(rt, alloc, 9, asked).into_keeper();
    check_parts(rt, alloc, &mut keeper, parts);
}

/// The tables of a replica that was asked this have so many rows.
fn check_rows<K: Opening + Drop>(
    rt: &impl Abort,
    alloc: Global,
    asked: &[(Act, &str)],
    wanted: [usize; 4],
) {
    let mut keeper = filled::<K>(rt, alloc, 9, asked).into_keeper();
    assert!(rt; all_rows(&mut keeper) == Ok(wanted));
}

static COMMITTED: [(Act, &str); 2] = [
    (Act::Elm, "took 50 writes 50 commits\n"),
    (Act::Batch(TWO), "took 2 writes 0 commits\n"),
];

static DROPPED: [(Act, &str); 3] = [
    (Act::Elm, "took 50 writes 50 commits\n"),
    (Act::Truncate(50), "dropped 50\n"),
    (Act::Batch(TWO), "took 2 writes 0 commits\n"),
];

static TENTATIVE: [(Act, &str); 2] = [
    (Act::TentativeElm, "took 50 writes 0 commits\n"),
    (Act::Batch(TWO), "took 2 writes 0 commits\n"),
];

static TWO_DAYS: [(Act, &str); 1] = [(Act::Batch(ON_TWO_DAYS), "took 2 writes 0 commits\n")];

static TAKEN_BACK: [(Act, &str); 3] = [
    (Act::Room("oak"), "ok\n"),
    (
        Act::Book("60", "09:00", &[], "Alpha"),
        "9-1 T 1995-12-18 09:00-10:00\n",
    ),
    (Act::Cancel("9-1"), "9-2 T cancels 9-1\n"),
];

static CANCELLED: [(Act, &str); 5] = [
    (Act::Room("oak"), "ok\n"),
    (
        Act::Book("60", "09:00", &[], "Alpha"),
        "9-1 T 1995-12-18 09:00-10:00\n",
    ),
    (Act::Book("60", "09:30", &[], "Beta"), "9-2 T logged\n"),
    (Act::Cancel("9-1"), "9-3 T cancels 9-1\n"),
    (Act::Cancel("9-2"), "9-4 T void 9-2\n"),
];

/// The first write of elm is committed alone.
fn check_first_commit<K: Opening + Drop>(rt: &impl Abort, alloc: Global) {
    let mut service = filled::<K>(rt, alloc, 9, &TENTATIVE);
    let text = said(alloc, &mut service, Act::Batch(FIRST));
    same_text(rt, &text, "took 0 writes 1 commits\n");
}

fn check_all<K: Opening + Drop>(rt: &impl Abort, alloc: Global) {
    check_rows::<K>(rt, alloc, &COMMITTED, [52, 3, 49, 0]);
    check_filled::<K>(rt, alloc, &COMMITTED, &OF_COMMITTED);
    check_filled::<K>(rt, alloc, &DROPPED, &OF_DROPPED);
    check_filled::<K>(rt, alloc, &TENTATIVE, &OF_TENTATIVE);
    check_rows::<K>(rt, alloc, &TWO_DAYS, [2, 2, 0, 0]);
    check_filled::<K>(rt, alloc, &TWO_DAYS, &OF_TWO_DAYS);
    check_filled::<K>(rt, alloc, &TAKEN_BACK, &OF_TAKEN_BACK);
    check_rows::<K>(rt, alloc, &CANCELLED, [4, 0, 1, 1]);
    check_filled::<K>(rt, alloc, &CANCELLED, &OF_CANCELLED);
    check_first_commit::<K>(rt, alloc);
}

#[test]
fn parts_over_lists(rt: HostRuntime) {
    check_all::<ListKeeper>(&rt, rt.alloc());
}

#[test]
fn parts_over_a_database(rt: HostRuntime) {
    check_all::<SqlKeeper<MemStore>>(&rt, rt.alloc());
}
