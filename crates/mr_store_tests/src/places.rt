// A board's places, worked by hand: bookings and cancels that are executed in order, and a room that is replayed in another order.
// A test is a list of writes, and steps on a new board. The functions that call the board have no clause, so that the proof of a
// test does not carry its state.

use crate::builders::{Ask, MONDAY, TUESDAY, add, booking, cancel, id, slot, stamp};
use crate::same::same;
use mr_base::{Refusal, RoomName, Write, WriteId};
use mr_replay::{Board, Overlay, Place, SeenBoard, Standing, Trace, UndoRow};
use std::alloc::Global;
use std::process::Abort;

/// The server and the number of a write.
type Numbers = (u32, u32);

/// What a write is: a request with its day, its length, the start of its wish and those of its alternatives; or a cancel of
/// the write with these numbers.
#[derive(Clone, Copy)]
enum Act {
    Books(&'static str, u32, u32, &'static [u32]),
    Cancels(Numbers),
}

/// A write with its numbers and its room.
type Entry = (Numbers, &'static str, Act);

/// What is done on a board, or asked of it, and what has to come of it.
#[derive(Clone, Copy)]
enum Step {
    /// The writes from one place of the list up to another are executed together, and get these places.
    Redo(usize, usize, &'static [(Numbers, Place)]),
    /// They are executed one by one.
    Execute(usize, usize, &'static [(Numbers, Place)]),
    /// They are executed in oak once what was executed last is undone.
    Replay(usize, usize, &'static [(Numbers, Place)]),
    /// The same in an overlay, which is dropped then.
    Try(usize, usize, &'static [(Numbers, Place)]),
    /// What was executed last is undone, the last one first, but for so many of the first.
    Undo(usize),
    /// Where the write at that place of the list would stand.
    Merge(usize, Place),
    /// The booking stands at that start.
    Stands(Numbers, u32),
    /// Its row is in the error log, with that start.
    Logged(Numbers, u32),
    /// It had that start until the cancel with the last numbers took it back.
    TakenBack(Numbers, u32, Numbers),
    /// Its row tells this room, start, length and title.
    Tells(Numbers, (&'static str, u32), (u32, &'static str)),
    /// What the row of a cancel has as its target, if there is such a row.
    Target(Numbers, Option<Numbers>),
    /// Whether oak is free on Monday from that start for that length.
    Free(u32, u32, bool),
    /// How many rows there are.
    Rows(usize),
    /// Whether there is a row of this write.
    Has(Numbers, bool),
    /// Whether a copy of the board has one, once what was executed last is undone on that copy.
    CopyHas(Numbers, bool),
}

/// A board, and the undo rows of what was executed on it last.
#[derive(Drop)]
struct Tried {
    alloc: Global,
    oak: RoomName,
    board: Board,
    rows: Vec<UndoRow>,
}

fn write(alloc: Global, ((server, n), room, act): Entry) -> Result<Write, Refusal> {
    let stamp = stamp(server, n, 1)?;
    match act {
        Act::Books(day, length, wish, others) => {
            let title = "Alpha";
            let ask = Ask {
                title,
                length,
                wish,
                others,
            };
            booking(alloc, stamp, (room, day), ask)
        }
        Act::Cancels((of, target)) => cancel(alloc, stamp, room, id(of, target)?),
    }
}

fn writes(alloc: Global, entries: &[Entry]) -> Result<Vec<Write>, Refusal> {
    let mut list = Vec::new(alloc);
    for entry in entries {
        add(&mut list, write(alloc, *entry))?;
    }
    Ok(list)
}

fn new_board(alloc: Global) -> Result<Tried, Refusal> {
    let oak = RoomName::new(alloc, "oak")?;
    Ok(Tried {
        alloc,
        oak,
        board: Board::new(alloc),
        rows: Vec::new(alloc),
    })
}

/// Whether these are the undo rows of the writes with these numbers, at these places.
fn are(rows: &[UndoRow], wanted: &[(Numbers, Place)]) -> bool {
    if rows.len() != wanted.len() {
        return false;
    }
    for (row, (numbers, place)) in rows.iter().zip(wanted) {
        if (row.id.server.number(), row.id.n) != *numbers || row.place != *place {
            return false;
        }
    }
    true
}

fn redo(tried: &mut Tried, writes: &[Write], places: &[(Numbers, Place)]) -> Result<bool, Refusal> {
    tried.rows = tried.board.redo_from(writes)?;
    Ok(are(tried.rows.as_slice(), places))
}

fn execute(
    tried: &mut Tried,
    writes: &[Write],
    places: &[(Numbers, Place)],
) -> Result<bool, Refusal> {
    let mut rows = Vec::new(tried.alloc);
    for write in writes {
        rows.push(tried.board.execute(write)?)?;
    }
    tried.rows = rows;
    Ok(are(tried.rows.as_slice(), places))
}

fn replay(
    tried: &mut Tried,
    writes: &[Write],
    places: &[(Numbers, Place)],
) -> Result<bool, Refusal> {
    let undone = tried.rows.as_slice();
    tried.rows = tried.board.replay_room(&tried.oak, undone, writes)?;
    Ok(are(tried.rows.as_slice(), places))
}

/// Whether the overlay shows this write's row in the error log.
fn is_logged_in(overlay: &Overlay, (server, n): Numbers) -> Result<bool, Refusal> {
    let Some(row) = overlay.row(id(server, n)?) else {
        return Ok(false);
    };
    match &row.trace {
        Trace::OfBooking { standing, .. } => Ok(*standing == Standing::InErrorLog),
        Trace::OfCancel { .. } => Ok(false),
    }
}

/// Whether the replay gives these places, those of the error log as the overlay shows them.
fn replays(
    overlay: &mut Overlay,
    undone: &[UndoRow],
    writes: &[Write],
    places: &[(Numbers, Place)],
) -> Result<bool, Refusal> {
    let rows = overlay.replay(undone, writes)?;
    for (numbers, place) in places {
        if is_logged_in(overlay, *numbers)? != (*place == Place::Logged) {
            return Ok(false);
        }
    }
    Ok(are(rows.as_slice(), places))
}

fn try_out(tried: &Tried, writes: &[Write], places: &[(Numbers, Place)]) -> Result<bool, Refusal> {
    let mut overlay = Overlay::over(SeenBoard::all(tried.board.copy()?));
    replays(&mut overlay, tried.rows.as_slice(), writes, places)
}

/// Undoes the executions of these rows, the last one first.
fn undo_each(board: &mut Board, rows: &[UndoRow]) {
    for row in rows.iter().rev() {
        board.undo(*row);
    }
}

/// What was executed last is undone, but for so many of the first.
fn undo_behind(tried: &mut Tried, first: usize) {
    let rows = tried.rows.as_slice().get(first..).unwrap_or(&[]);
    undo_each(&mut tried.board, rows);
}

fn would_stand(board: &Board, write: Option<&Write>, place: Place) -> bool {
    match write {
        Some(write) => board.merge(write) == place,
        None => false,
    }
}

/// The start and the standing on the row of a booking.
fn row_of(board: &Board, (server, n): Numbers) -> Result<(u32, Standing), Refusal> {
    let Some(row) = board.row(id(server, n)?) else {
        return Err(Refusal::NoSuchRequest);
    };
    match &row.trace {
        Trace::OfBooking { slot, standing, .. } => Ok((slot.start, *standing)),
        Trace::OfCancel { .. } => Err(Refusal::NoSuchRequest),
    }
}

fn is_row(
    board: &Board,
    numbers: Numbers,
    start: u32,
    standing: Standing,
) -> Result<bool, Refusal> {
    Ok(row_of(board, numbers)? == (start, standing))
}

fn is_taken_back(
    board: &Board,
    numbers: Numbers,
    start: u32,
    (server, n): Numbers,
) -> Result<bool, Refusal> {
    let by = id(server, n)?;
    is_row(board, numbers, start, Standing::CancelledBy(by))
}

/// Whether the row of a booking tells this room, start, length and title.
fn tells(
    board: &Board,
    (server, n): Numbers,
    (in_room, start): (&str, u32),
    (minutes, named): (u32, &str),
) -> Result<bool, Refusal> {
    let Some(row) = board.row(id(server, n)?) else {
        return Err(Refusal::NoSuchRequest);
    };
    match &row.trace {
        Trace::OfBooking {
            slot,
            length,
            title,
            ..
        } => Ok(
            row.room.as_str() == in_room
                && slot.start == start
                && *length == minutes
                && title.as_str() == named,
        ),
        Trace::OfCancel { .. } => Ok(false),
    }
}

/// What the row of a cancel has as its target, if there is such a row.
fn target_of(board: &Board, (server, n): Numbers) -> Result<Option<WriteId>, Refusal> {
    let Some(row) = board.row(id(server, n)?) else {
        return Ok(None);
    };
    match &row.trace {
        Trace::OfBooking { .. } => Ok(None),
        Trace::OfCancel { target } => Ok(Some(*target)),
    }
}

fn is_target(board: &Board, numbers: Numbers, target: Option<Numbers>) -> Result<bool, Refusal> {
    match (target_of(board, numbers)?, target) {
        (Some(found), Some(target)) => Ok((found.server.number(), found.n) == target),
        (found, target) => Ok(found.is_none() && target.is_none()),
    }
}

fn is_free(tried: &Tried, start: u32, length: u32, wanted: bool) -> Result<bool, Refusal> {
    let slot = slot(MONDAY, start)?;
    Ok(tried.board.check(&tried.oak, slot, length) == wanted)
}

fn has(board: &Board, (server, n): Numbers, wanted: bool) -> Result<bool, Refusal> {
    Ok(board.row(id(server, n)?).is_some() == wanted)
}

fn copy_has(tried: &Tried, numbers: Numbers, wanted: bool) -> Result<bool, Refusal> {
    let mut copy = tried.board.copy()?;
    copy.undo_all(tried.rows.as_slice());
    has(&copy, numbers, wanted)
}

fn part(writes: &[Write], from: usize, to: usize) -> &[Write] {
    writes.get(from..to).unwrap_or(&[])
}

/// Does what the step says; whether what has to come of it does.
fn is_met(tried: &mut Tried, writes: &[Write], step: Step) -> Result<bool, Refusal> {
    match step {
        Step::Redo(from, to, places) => redo(tried, part(writes, from, to), places),
        Step::Execute(from, to, places) => execute(tried, part(writes, from, to), places),
        Step::Replay(from, to, places) => replay(tried, part(writes, from, to), places),
        Step::Try(from, to, places) => try_out(tried, part(writes, from, to), places),
        Step::Undo(first) => {
            undo_behind(tried, first);
            Ok(true)
        }
        Step::Merge(at, place) => Ok(would_stand(&tried.board, writes.get(at), place)),
        Step::Stands(numbers, start) => is_row(&tried.board, numbers, start, Standing::Booked),
        Step::Logged(numbers, start) => is_row(&tried.board, numbers, start, Standing::InErrorLog),
        Step::TakenBack(numbers, start, by) => is_taken_back(&tried.board, numbers, start, by),
        Step::Tells(numbers, place, words) => tells(&tried.board, numbers, place, words),
        Step::Target(numbers, target) => is_target(&tried.board, numbers, target),
        Step::Free(start, length, wanted) => is_free(tried, start, length, wanted),
        Step::Rows(count) => Ok(tried.board.len() == count),
        Step::Has(numbers, wanted) => has(&tried.board, numbers, wanted),
        Step::CopyHas(numbers, wanted) => copy_has(tried, numbers, wanted),
    }
}

/// Each of these steps is met.
fn check_steps(rt: &impl Abort, tried: &mut Tried, writes: &[Write], steps: &[Step]) {
    for (at, step) in steps.iter().enumerate() {
        same(rt, &is_met(tried, writes, *step), &Ok(true), at);
    }
}

/// Each of these steps is met, on a new board.
fn check(rt: &impl Abort, alloc: Global, entries: &[Entry], steps: &[Step]) {
    let writes = writes(alloc, entries).expect(rt, "writes");
    let mut tried = new_board(alloc).expect(rt, "a board");
    check_steps(rt, &mut tried, writes.as_slice(), steps);
}

/// Xray at 09:00; Alpha at 09:00, else at 10:00; Beta at 10:00. Then requests that touch one of these, that are for another
/// room or another day, and that the error log is not in the way of.
static REQUESTS: [Entry; 9] = [
    ((1, 1), "oak", Act::Books(MONDAY, 30, 540, &[])),
    ((2, 1), "oak", Act::Books(MONDAY, 60, 540, &[600])),
    ((2, 2), "oak", Act::Books(MONDAY, 60, 600, &[])),
    ((1, 2), "oak", Act::Books(MONDAY, 30, 510, &[])),
    ((1, 3), "oak", Act::Books(MONDAY, 31, 510, &[480, 479])),
    ((3, 1), "elm", Act::Books(MONDAY, 60, 540, &[])),
    ((3, 2), "oak", Act::Books(TUESDAY, 60, 540, &[])),
    ((3, 3), "elm", Act::Books(MONDAY, 60, 570, &[])),
    ((2, 3), "elm", Act::Books(MONDAY, 30, 600, &[])),
];

const PLACES: &[(Numbers, Place)] = &[
    ((1, 1), Place::Taken(0)),
    ((2, 1), Place::Taken(1)),
    ((2, 2), Place::Logged),
    ((1, 2), Place::Taken(0)),
    ((1, 3), Place::Taken(2)),
    ((3, 1), Place::Taken(0)),
    ((3, 2), Place::Taken(0)),
    ((3, 3), Place::Logged),
    ((2, 3), Place::Taken(0)),
];

/// The first three of them.
const CHAIN: &[(Numbers, Place)] = &[
    ((1, 1), Place::Taken(0)),
    ((2, 1), Place::Taken(1)),
    ((2, 2), Place::Logged),
];

/// The second and the third if the first isn't there.
const ALONE: &[(Numbers, Place)] = &[((2, 1), Place::Taken(0)), ((2, 2), Place::Taken(0))];

static IN_ORDER: [Step; 5] = [
    Step::Redo(0, 9, PLACES),
    Step::Stands((1, 3), 479),
    Step::Logged((2, 2), 600),
    Step::Free(449, 30, true),
    Step::Free(449, 31, false),
];

#[test]
fn requests_are_executed_in_order(rt: HostRuntime) {
    check(&rt, rt.alloc(), &REQUESTS, &IN_ORDER);
}

static UNDONE: [Step; 5] = [
    Step::Redo(1, 3, ALONE),
    Step::Undo(0),
    Step::Redo(0, 3, CHAIN),
    Step::Undo(0),
    Step::Redo(1, 3, ALONE),
];

#[test]
fn a_chain_is_undone_and_executed_again(rt: HostRuntime) {
    check(&rt, rt.alloc(), &REQUESTS, &UNDONE);
}

static ONE: [Entry; 1] = [((1, 3), "elm", Act::Books(MONDAY, 31, 510, &[]))];

static TELLING: [Step; 2] = [
    Step::Execute(0, 1, &[((1, 3), Place::Taken(0))]),
    Step::Tells((1, 3), ("elm", 510), (31, "Alpha")),
];

#[test]
fn a_row_tells_its_request(rt: HostRuntime) {
    check(&rt, rt.alloc(), &ONE, &TELLING);
}

static IN_ANOTHER_ORDER: [Step; 7] = [
    Step::Execute(5, 6, &[((3, 1), Place::Taken(0))]),
    Step::Merge(2, Place::Taken(0)),
    Step::Execute(1, 3, ALONE),
    Step::Replay(0, 3, CHAIN),
    Step::CopyHas((3, 1), true),
    Step::CopyHas((1, 1), false),
    Step::Has((1, 1), true),
];

#[test]
fn a_room_is_replayed_in_another_order(rt: HostRuntime) {
    check(&rt, rt.alloc(), &REQUESTS, &IN_ANOTHER_ORDER);
}

/// Alpha at 09:00; Beta at 09:00, else at 10:00; a cancel of Alpha; Gamma at 09:00; another cancel of Alpha, one of Gamma that
/// is for another room, and one of a cancel.
static WITH_CANCELS: [Entry; 7] = [
    ((1, 1), "oak", Act::Books(MONDAY, 60, 540, &[])),
    ((1, 2), "oak", Act::Books(MONDAY, 60, 540, &[600])),
    ((1, 3), "oak", Act::Cancels((1, 1))),
    ((1, 4), "oak", Act::Books(MONDAY, 60, 540, &[])),
    ((1, 5), "oak", Act::Cancels((1, 1))),
    ((1, 6), "elm", Act::Cancels((1, 4))),
    ((1, 7), "oak", Act::Cancels((1, 3))),
];

const CANCELLED: &[(Numbers, Place)] = &[
    ((1, 1), Place::Taken(0)),
    ((1, 2), Place::Taken(1)),
    ((1, 3), Place::Done),
    ((1, 4), Place::Taken(0)),
    ((1, 5), Place::Void),
    ((1, 6), Place::Void),
    ((1, 7), Place::Void),
];

static TAKEN_BACK: [Step; 9] = [
    Step::Redo(0, 7, CANCELLED),
    Step::TakenBack((1, 1), 540, (1, 3)),
    Step::Stands((1, 4), 540),
    Step::Target((1, 3), None),
    Step::Target((1, 5), Some((1, 1))),
    Step::Undo(2),
    Step::Stands((1, 1), 540),
    Step::Rows(2),
    Step::Free(540, 60, false),
];

#[test]
fn a_cancel_takes_its_target_back_and_is_undone(rt: HostRuntime) {
    check(&rt, rt.alloc(), &WITH_CANCELS, &TAKEN_BACK);
}

/// A cancel of Alpha, and then Alpha at 09:00.
static CANCEL_FIRST: [Entry; 2] = [
    ((2, 2), "oak", Act::Cancels((2, 1))),
    ((2, 1), "oak", Act::Books(MONDAY, 60, 540, &[])),
];

static NOTHING_BACK: [Step; 3] = [
    Step::Redo(0, 2, &[((2, 2), Place::Void), ((2, 1), Place::Taken(0))]),
    Step::Stands((2, 1), 540),
    Step::Target((2, 2), Some((2, 1))),
];

#[test]
fn a_cancel_in_front_of_its_target_takes_nothing_back(rt: HostRuntime) {
    check(&rt, rt.alloc(), &CANCEL_FIRST, &NOTHING_BACK);
}

/// Xray at 09:30; Alpha at 09:00; a cancel of Alpha; and Xray once more, for the order in which the cancel comes first.
static OVERLAPPING: [Entry; 4] = [
    ((1, 1), "oak", Act::Books(MONDAY, 60, 570, &[])),
    ((2, 1), "oak", Act::Books(MONDAY, 60, 540, &[])),
    ((2, 2), "oak", Act::Cancels((2, 1))),
    ((1, 1), "oak", Act::Books(MONDAY, 60, 570, &[])),
];

static WITH_ITS_CANCELS: [Step; 7] = [
    Step::Execute(1, 2, &[((2, 1), Place::Taken(0))]),
    Step::Execute(2, 3, &[((2, 2), Place::Done)]),
    Step::Merge(0, Place::Taken(0)),
    // without the cancel Alpha stands again, and Xray is logged
    Step::Replay(0, 1, &[((1, 1), Place::Logged)]),
    Step::Stands((2, 1), 540),
    // with it executed in front of Xray, Xray has its slot
    Step::Replay(2, 4, &[((2, 2), Place::Done), ((1, 1), Place::Taken(0))]),
    Step::Stands((1, 1), 570),
];

#[test]
fn a_room_is_replayed_with_its_cancels(rt: HostRuntime) {
    check(&rt, rt.alloc(), &OVERLAPPING, &WITH_ITS_CANCELS);
}

const BEHIND_XRAY: &[(Numbers, Place)] = &[
    ((1, 1), Place::Taken(0)),
    ((2, 1), Place::Logged),
    ((2, 2), Place::Void),
];

static WRITE_IN_FRONT: [Step; 8] = [
    Step::Redo(1, 3, &[((2, 1), Place::Taken(0)), ((2, 2), Place::Done)]),
    Step::Try(0, 3, BEHIND_XRAY),
    Step::TakenBack((2, 1), 540, (2, 2)),
    Step::Has((1, 1), false),
    Step::Rows(1),
    Step::Replay(0, 3, BEHIND_XRAY),
    Step::Logged((2, 1), 540),
    Step::Target((2, 2), Some((2, 1))),
];

#[test]
fn a_write_in_front_changes_what_a_cancel_finds(rt: HostRuntime) {
    check(&rt, rt.alloc(), &OVERLAPPING, &WRITE_IN_FRONT);
}
