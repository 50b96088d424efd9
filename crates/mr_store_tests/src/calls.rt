// Worked rows: calls of the desks of servers 1 to 4, whose primary is 1, their stated answers, and the rows that they put.

use crate::builders::{Ask, Line};
use crate::desks::{Call, NO_ERROR, NONE, NOTHING, Row, answer, check_cases, last_change, opening};
use crate::same::same;
use crate::tables::{Rows, tables};
use mr_audit::do_tables_agree;
use mr_base::Refusal;
use mr_replay::Place;
use mr_replica::Desk;
use mr_tables::{ActionCells, Change, LogRow};
use std::alloc::Global;
use std::process::Abort;

const ALPHA: Ask = Ask {
    title: "Alpha",
    length: 60,
    wish: 840,
    others: &[],
};

const ALPHA_ELSE_LATER: Ask = Ask {
    title: "Alpha",
    length: 60,
    wish: 840,
    others: &[960],
};

const BETA: Ask = Ask {
    title: "Beta",
    length: 60,
    wish: 810,
    others: &[],
};

const BETA_ELSE_LATER: Ask = Ask {
    title: "Beta",
    length: 60,
    wish: 810,
    others: &[900],
};

const EARLY: Ask = Ask {
    title: "Alpha",
    length: 30,
    wish: 540,
    others: &[],
};

const OTHER: Ask = Ask {
    title: "Other",
    length: 30,
    wish: 540,
    others: &[],
};

const LATER: Ask = Ask {
    title: "Beta",
    length: 30,
    wish: 600,
    others: &[],
};

const AUDIT: Ask = Ask {
    title: "Audit",
    length: 60,
    wish: 810,
    others: &[],
};

const BRIEF: Ask = Ask {
    title: "Brief",
    length: 30,
    wish: 870,
    others: &[],
};

/// The requests of servers 2 and 3, from 14:00 and from 14:30, which overlap.
const AUDIT_AT_TWO: Ask = Ask {
    title: "Audit",
    length: 60,
    wish: 840,
    others: &[],
};

const AUDIT_THEN: Ask = Ask {
    title: "Audit",
    length: 60,
    wish: 870,
    others: &[],
};

/// Alpha of server 1 at 14:00.
const FRONT: &[Line] = &[Line::W(1, 1, 1, ALPHA)];

/// That, and Beta of server 2 at 13:30, else at 15:00.
const BOTH: &[Line] = &[Line::W(1, 1, 1, ALPHA), Line::W(2, 1, 1, BETA_ELSE_LATER)];

/// The second write of server 1, without the first.
const SECOND: &[Line] = &[Line::W(1, 2, 5, EARLY)];

/// The first write of server 1, and another in its place.
const FIRST: &[Line] = &[Line::W(1, 1, 1, EARLY)];

const FORGED: &[Line] = &[Line::W(1, 1, 1, OTHER)];

/// The first commit, of the first write of server 1.
const FIRST_COMMIT: &[Line] = &[Line::C(1, 1, 1)];

/// The second commit.
const SECOND_COMMIT: &[Line] = &[Line::C(2, 1, 1)];

/// A commit of the second write of server 1 before the first.
const TURNED: &[Line] = &[
    Line::W(1, 1, 1, EARLY),
    Line::W(1, 2, 2, LATER),
    Line::C(1, 1, 2),
];

/// A write of server 2.
const OF_SECOND: &[Line] = &[Line::W(2, 1, 1, EARLY)];

/// A write with the greatest time.
const GREATEST: &[Line] = &[Line::W(1, 1, 999_999_999_999, EARLY)];

/// The write of server 2 that came before server 3's, and the commits of server 3's and then of that.
const EARLIER: &[Line] = &[Line::W(2, 1, 1, AUDIT_AT_TWO)];

const COMMIT_OF_THIRD: &[Line] = &[Line::C(1, 3, 1)];

const COMMIT_OF_EARLIER: &[Line] = &[Line::C(2, 2, 1)];

pub(crate) const OPENING: Rows = Rows {
    meta: (0, 0, 0),
    vector: &[],
    log: &[],
    kept_cancels: &[],
    booking: &[],
    errorlog: &[],
    cancelled: &[],
    cancels: &[],
};

/// Server 3's write is committed, server 2's is tentative and in the error log, and both are kept.
pub(crate) const KEPT: Rows = Rows {
    meta: (1, 0, 2),
    vector: &[(2, 1, 0), (3, 2, 1)],
    log: &[
        (2, 1, "1995-12-18 14:00", Place::Logged, 0),
        (3, 2, "1995-12-18 14:30", Place::Taken(0), 1),
    ],
    booking: &[3],
    errorlog: &[(2, 0)],
    ..OPENING
};

/// Both are committed, and dropped.
const DROPPED: Rows = Rows {
    meta: (2, 2, 2),
    vector: &[(2, 1, 1), (3, 2, 1)],
    booking: &[3],
    errorlog: &[(2, 2)],
    ..OPENING
};

/// So is one of server 1, which is in the error log too.
const THREE_DROPPED: Rows = Rows {
    meta: (3, 3, 2),
    vector: &[(1, 1, 1), (2, 1, 1), (3, 2, 1)],
    booking: &[3],
    errorlog: &[(1, 3), (2, 2)],
    ..OPENING
};

/// Server 3's write is committed, and server 2's cancel, which is tentative, took it back.
pub(crate) const TAKEN_BACK: Rows = Rows {
    meta: (1, 0, 3),
    vector: &[(2, 3, 0), (3, 2, 1)],
    log: &[(3, 2, "1995-12-18 14:30", Place::Taken(0), 1)],
    kept_cancels: &[(2, 3, Place::Done, 0, 3)],
    booking: &[],
    errorlog: &[],
    cancelled: &[(3, 2, true)],
    cancels: &[(2, 3, true, 3, 0)],
};

static CASES: [(&str, &[Row]); 14] = [
    // The commit order turns the stamp order round: Beta of server 3, tentative behind Alpha, is committed first.
    (
        "a commit moves what stood before it",
        &[
            (2, Call::AddOak, Ok((0, 0)), NOTHING),
            (3, Call::AddOak, Ok((0, 0)), NOTHING),
            (
                2,
                Call::Submit(ALPHA_ELSE_LATER),
                Ok((1, 0)),
                ((2, 1, 840), NONE, NO_ERROR),
            ),
            (
                3,
                Call::Submit(BETA),
                Ok((1, 0)),
                ((3, 1, 810), NONE, NO_ERROR),
            ),
            (
                1,
                Call::HandOver(3, 10),
                Ok((1, 0)),
                ((3, 1, 810), NONE, NO_ERROR),
            ),
            (
                1,
                Call::Commit(5),
                Ok((1, 0)),
                ((3, 1, 810), NONE, NO_ERROR),
            ),
            (
                2,
                Call::HandOver(1, 10),
                Ok((1, 1)),
                ((3, 1, 810), (2, 1, 960), NO_ERROR),
            ),
        ],
    ),
    (
        "a repeat brings nothing",
        &[
            (
                3,
                Call::Receive(1, BOTH),
                Ok((2, 0)),
                ((1, 1, 840), (2, 1, 900), NO_ERROR),
            ),
            (3, Call::Receive(1, BOTH), Ok((0, 0)), NOTHING),
            (3, Call::Position, Ok((0, 2)), NOTHING),
        ],
    ),
    (
        "a front comes before the whole",
        &[
            (
                3,
                Call::Receive(1, FRONT),
                Ok((1, 0)),
                ((1, 1, 840), NONE, NO_ERROR),
            ),
            (
                3,
                Call::Receive(1, BOTH),
                Ok((1, 0)),
                ((2, 1, 900), NONE, NO_ERROR),
            ),
        ],
    ),
    (
        "a gap is refused and changes nothing",
        &[
            (3, Call::Receive(1, SECOND), Err(Refusal::Gap(2)), NOTHING),
            (3, Call::Position, Ok((0, 0)), NOTHING),
            (3, Call::Submit(EARLY), Err(Refusal::UnknownRoom), NOTHING),
        ],
    ),
    (
        "another content is forged until it is dropped",
        &[
            (
                3,
                Call::Receive(1, FIRST),
                Ok((1, 0)),
                ((1, 1, 540), NONE, NO_ERROR),
            ),
            (
                3,
                Call::Receive(1, FORGED),
                Err(Refusal::Forged(2)),
                NOTHING,
            ),
            (
                3,
                Call::Receive(1, FIRST_COMMIT),
                Ok((0, 1)),
                ((1, 1, 540), NONE, NO_ERROR),
            ),
            (3, Call::Truncate(1), Ok((1, 1)), NOTHING),
            (3, Call::Receive(1, FORGED), Ok((0, 0)), NOTHING),
        ],
    ),
    (
        "a truncation drops a front",
        &[
            (1, Call::AddOak, Ok((0, 0)), NOTHING),
            (
                1,
                Call::Submit(AUDIT),
                Ok((1, 0)),
                ((1, 1, 810), NONE, NO_ERROR),
            ),
            (
                1,
                Call::Submit(BRIEF),
                Ok((2, 0)),
                ((1, 2, 870), NONE, NO_ERROR),
            ),
            (
                1,
                Call::Commit(9),
                Ok((2, 0)),
                ((1, 1, 810), (1, 2, 870), NO_ERROR),
            ),
            (
                2,
                Call::HandOver(1, 10),
                Ok((2, 2)),
                ((1, 1, 810), (1, 2, 870), NO_ERROR),
            ),
            (2, Call::Truncate(2), Ok((2, 2)), NOTHING),
            (2, Call::Truncate(3), Err(Refusal::BeyondCommitted), NOTHING),
            (1, Call::Truncate(1), Err(Refusal::PrimaryKeepsAll), NOTHING),
            (3, Call::HandOver(2, 10), Err(Refusal::Truncated), NOTHING),
            (
                3,
                Call::HandOver(1, 3),
                Ok((2, 1)),
                ((1, 1, 810), (1, 2, 870), NO_ERROR),
            ),
        ],
    ),
    (
        "after the greatest time nothing is accepted",
        &[
            (
                2,
                Call::Receive(1, GREATEST),
                Ok((1, 0)),
                ((1, 1, 540), NONE, NO_ERROR),
            ),
            (
                2,
                Call::Submit(LATER),
                Err(Refusal::ClockExhausted),
                NOTHING,
            ),
        ],
    ),
    (
        "hostile lines are refused",
        &[
            (
                2,
                Call::Receive(1, OF_SECOND),
                Err(Refusal::OwnWrite(2)),
                NOTHING,
            ),
            (
                2,
                Call::Receive(1, TURNED),
                Err(Refusal::OutOfOrder(4)),
                NOTHING,
            ),
            (
                2,
                Call::Receive(1, SECOND_COMMIT),
                Err(Refusal::Gap(2)),
                NOTHING,
            ),
            (
                2,
                Call::Receive(3, BOTH),
                Err(Refusal::WrongPrimary),
                NOTHING,
            ),
            // Nothing of those batches is left.
            (2, Call::Position, Ok((0, 0)), NOTHING),
            (2, Call::AddOak, Ok((0, 0)), NOTHING),
            (
                2,
                Call::Receive(1, FIRST),
                Ok((1, 0)),
                ((1, 1, 540), NONE, NO_ERROR),
            ),
            (
                2,
                Call::Receive(1, FIRST_COMMIT),
                Ok((0, 1)),
                ((1, 1, 540), NONE, NO_ERROR),
            ),
            (1, Call::AddOak, Ok((0, 0)), NOTHING),
            (
                1,
                Call::Submit(EARLY),
                Ok((1, 0)),
                ((1, 1, 540), NONE, NO_ERROR),
            ),
            (
                1,
                Call::Receive(1, FIRST_COMMIT),
                Err(Refusal::PrimaryOnly(2)),
                NOTHING,
            ),
        ],
    ),
    (
        "commands are refused",
        &[
            (2, Call::AddOak, Ok((0, 0)), NOTHING),
            (2, Call::Commit(1), Err(Refusal::NotPrimary), NOTHING),
            (2, Call::AddOak, Err(Refusal::RoomThere), NOTHING),
            (2, Call::Receive(0, &[]), Ok((0, 0)), NOTHING),
        ],
    ),
    (
        "an opening replica is read",
        &[
            (3, Call::Read(&OPENING), Ok((0, 0)), NOTHING),
            (3, Call::Position, Ok((0, 0)), NOTHING),
        ],
    ),
    // The committed write is handed out first, though its key and its time are the later ones.
    (
        "the log is in the order of execution",
        &[
            (3, Call::Read(&KEPT), Ok((0, 0)), NOTHING),
            (3, Call::Position, Ok((1, 2)), NOTHING),
            (
                4,
                Call::HandOver(3, 1),
                Ok((1, 0)),
                ((3, 1, 870), NONE, NO_ERROR),
            ),
            (
                4,
                Call::HandOver(3, 1),
                Ok((0, 1)),
                ((3, 1, 870), NONE, NO_ERROR),
            ),
            (4, Call::HandOver(3, 1), Ok((1, 0)), (NONE, NONE, (2, 1, 0))),
            (4, Call::HandOver(3, 1), Ok((0, 0)), NOTHING),
            (
                3,
                Call::Submit(EARLY),
                Ok((2, 0)),
                ((3, 2, 540), NONE, NO_ERROR),
            ),
        ],
    ),
    // A write that is logged for good keeps its row when it is dropped.
    (
        "an error is committed and dropped",
        &[
            (3, Call::Read(&KEPT), Ok((0, 0)), NOTHING),
            (
                3,
                Call::Receive(1, COMMIT_OF_EARLIER),
                Ok((0, 1)),
                (NONE, NONE, (2, 1, 2)),
            ),
            (3, Call::Truncate(2), Ok((2, 2)), NOTHING),
        ],
    ),
    (
        "dropped errors are read",
        &[
            (3, Call::Read(&DROPPED), Ok((0, 0)), NOTHING),
            (3, Call::Position, Ok((2, 2)), NOTHING),
            (4, Call::Read(&KEPT), Ok((0, 0)), NOTHING),
            (4, Call::HandOver(3, 20), Err(Refusal::Truncated), NOTHING),
            (4, Call::Read(&DROPPED), Ok((0, 0)), NOTHING),
            (4, Call::HandOver(3, 20), Ok((0, 0)), NOTHING),
            (3, Call::Read(&THREE_DROPPED), Ok((0, 0)), NOTHING),
            (3, Call::Position, Ok((3, 3)), NOTHING),
        ],
    ),
    // The change of these is that of the test below.
    (
        "rows are put in the order of execution",
        &[
            (
                3,
                Call::Receive(1, EARLIER),
                Ok((1, 0)),
                ((2, 1, 840), NONE, NO_ERROR),
            ),
            (
                3,
                Call::Submit(AUDIT_THEN),
                Ok((1, 0)),
                (NONE, NONE, (3, 2, 0)),
            ),
            (
                3,
                Call::Receive(1, COMMIT_OF_THIRD),
                Ok((0, 1)),
                ((3, 1, 870), NONE, (2, 1, 0)),
            ),
        ],
    ),
];

#[test]
fn calls_are_answered(rt: HostRuntime) {
    check_cases(&rt, rt.alloc(), &CASES);
}

/// Tables that no replica has: rows that are broken, and rows that contradict each other.
static BROKEN: [Rows; 13] = [
    Rows {
        log: &[
            (2, 1, "1995-12-18", Place::Logged, 0),
            (3, 2, "1995-12-18 14:30", Place::Taken(0), 1),
        ],
        ..KEPT
    },
    Rows {
        meta: (1_000_000_000_000, 0, 0),
        ..OPENING
    },
    Rows {
        vector: &[(2, 1, 0), (3, 2, 1)],
        ..DROPPED
    },
    Rows {
        meta: (2, 3, 2),
        ..DROPPED
    },
    Rows {
        log: &[
            (2, 1, "1995-12-18 14:00", Place::Taken(0), 0),
            (3, 2, "1995-12-18 14:30", Place::Taken(0), 1),
        ],
        ..KEPT
    },
    Rows {
        log: &[
            (2, 1, "1995-12-18 14:00", Place::Logged, 0),
            (3, 2, "1995-12-18 14:30", Place::Logged, 1),
        ],
        ..KEPT
    },
    // The dropped error of server 2 has the commit number 2, so that another one has not.
    Rows {
        errorlog: &[(1, 2), (2, 2)],
        ..THREE_DROPPED
    },
    // The booking that was taken back stands too, or was taken back by no cancel.
    Rows {
        booking: &[3],
        ..TAKEN_BACK
    },
    Rows {
        cancelled: &[(3, 4, true)],
        ..TAKEN_BACK
    },
    Rows {
        booking: &[3],
        cancelled: &[],
        ..TAKEN_BACK
    },
    // The cancel is done in one of its rows alone.
    Rows {
        cancels: &[(2, 3, false, 3, 0)],
        ..TAKEN_BACK
    },
    Rows {
        kept_cancels: &[(2, 3, Place::Void, 0, 3)],
        ..TAKEN_BACK
    },
    Rows {
        cancels: &[],
        ..TAKEN_BACK
    },
];

fn refusal_of(alloc: Global, desks: &mut Vec<Desk>, rows: &'static Rows) -> Option<Refusal> {
    answer(alloc, desks, 3, Call::Read(rows)).err()
}

fn check_broken(rt: &impl Abort, alloc: Global, desks: &mut Vec<Desk>) {
    for (index, rows) in BROKEN.iter().enumerate() {
        let refusal = refusal_of(alloc, desks, rows);
        same(rt, &refusal, &Some(Refusal::Store), index);
    }
}

#[test]
fn broken_rows_are_not_believed(rt: HostRuntime) {
    let mut desks = opening(rt.alloc()).expect(&rt, "desks");
    check_broken(&rt, rt.alloc(), &mut desks);
}

/// Tables of replicas.
static AGREEING: [Rows; 5] = [OPENING, KEPT, DROPPED, THREE_DROPPED, TAKEN_BACK];

fn do_agree(alloc: Global, rows: &Rows) -> Result<bool, Refusal> {
    let tables = tables(alloc, rows)?;
    do_tables_agree(alloc, &tables)
}

fn check_agreeing(rt: &impl Abort, alloc: Global, all: &'static [Rows], wanted: bool) {
    for (index, rows) in all.iter().enumerate() {
        same(rt, &do_agree(alloc, rows), &Ok(wanted), index);
    }
}

#[test]
fn rows_that_agree_are_told_from_others(rt: HostRuntime) {
    check_agreeing(&rt, rt.alloc(), &AGREEING, true);
    check_agreeing(&rt, rt.alloc(), &BROKEN, false);
}

static CALLS: [Call; 3] = [
    Call::Receive(1, EARLIER),
    Call::Submit(AUDIT_THEN),
    Call::Receive(1, COMMIT_OF_THIRD),
];

fn is_log_row(row: &LogRow, time: u64, choices: &str, seq: u64) -> bool {
    match &row.action {
        ActionCells::OfMeeting(meeting) => {
            row.time == time && meeting.choices.as_str() == choices && row.seq == seq
        }
        ActionCells::OfCancel(_) => false,
    }
}

fn have_log_rows(change: &Change) -> bool {
    match change.log.as_slice() {
        [first, second] => {
            is_log_row(first, 2, "1995-12-18 14:30", 1)
                && is_log_row(second, 1, "1995-12-18 14:00", 0)
        }
        _ => false,
    }
}

/// The places of both writes that a change puts.
fn places_of(change: &Change) -> Option<[Place; 2]> {
    match change.log.as_slice() {
        [first, second] => Some([first.place, second.place]),
        _ => None,
    }
}

/// The places that the last call puts, and whether it puts the rows of the log beside them.
fn put_at_last(alloc: Global) -> Result<(Option<[Place; 2]>, bool), Refusal> {
    let change = last_change(alloc, 3, &CALLS)?.ok_or(Refusal::Store)?;
    Ok((places_of(&change), have_log_rows(&change)))
}

/// The committed write is put first, though its time is the later one.
#[test]
fn rows_are_put_in_the_order_of_execution(rt: HostRuntime) {
    let places = Some([Place::Taken(0), Place::Logged]);
    same(&rt, &put_at_last(rt.alloc()), &Ok((places, true)), "rows");
}
