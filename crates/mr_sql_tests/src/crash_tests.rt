// What a replica on disks is asked that stop at each call in turn, also while it is moved up. The memory is ample.

use crate::acts::Act;
use crate::disks::{Bytes, NO_STOP, bytes_of, disks, no_bytes};
use crate::first_files::{FIRST, first_bytes, layout_of};
use crate::on_disks::asked;
use crate::same_text::holds;
use crate::stops::{Case, Found, all_stops};
use mr_service::CalendarPart;
use std::alloc::Global;
use std::process::Abort;

/// What is asked of replica 2, its reply, and what is seen of it then.
type Row = (Act, &'static str, &'static str);

/// An earlier meeting, and its commit.
const BETA: &str = "mr2 1 1\nW 3 1 1 oak 60 1995-12-18 13:30 0 Beta\nC 1 3 1\nE\n";

/// Oak isn't known.
const NEW: &str =
    "refused 7 UnknownRoom\nrefused 7 UnknownRoom\nrefused 7 UnknownRoom\nrefused 7 UnknownRoom\nmp2 2 1\nK 0\nE\n";

const EMPTY: &str =
    "oak 1995-12-18 Monday\n(no bookings)\noak full\n(no bookings)\noak committed\n(no bookings)\noak errors\n(no errors)\nmp2 2 1\nK 0\nE\n";

const BOOKED: &str =
    "oak 1995-12-18 Monday\n14:00-15:00 T 2-1 Alpha\noak full\n1995-12-18 14:00-15:00 T 2-1 Alpha\noak committed\n(no bookings)\noak errors\n(no errors)\nmp2 2 1\nK 0\nV 2 1\nE\n";

/// The commit of an earlier meeting has come.
const MOVED: &str =
    "oak 1995-12-18 Monday\n13:30-14:30 C 3-1 Beta\n16:00-17:00 T 2-1 Alpha\noak full\n1995-12-18 13:30-14:30 C 3-1 Beta\n1995-12-18 16:00-17:00 T 2-1 Alpha\noak committed\n1995-12-18 13:30-14:30 C 3-1 Beta\noak errors\n(no errors)\nmp2 2 1\nK 1\nV 2 1\nV 3 1\nE\n";

/// What was moved is taken back.
const TAKEN_BACK: &str =
    "oak 1995-12-18 Monday\n13:30-14:30 C 3-1 Beta\noak full\n1995-12-18 13:30-14:30 C 3-1 Beta\noak committed\n1995-12-18 13:30-14:30 C 3-1 Beta\noak errors\n(no errors)\nmp2 2 1\nK 1\nV 2 2\nV 3 1\nE\n";

/// The first one finds empty files, in which the tables are made.
static ROWS: [Row; 10] = [
    (Act::Position, "mp2 2 1\nK 0\nE\n", NEW),
    (Act::Room("oak"), "ok\n", EMPTY),
    (
        Act::Book("60", "14:00", &["16:00"], "Alpha"),
        "2-1 T 1995-12-18 14:00-15:00\n",
        BOOKED,
    ),
    (Act::Position, "mp2 2 1\nK 0\nV 2 1\nE\n", BOOKED),
    (Act::Batch(BETA), "took 1 writes 1 commits\n", MOVED),
    (
        Act::Sheet,
        "oak 1995-12-18 Monday\n13:30-14:30 C 3-1 Beta\n16:00-17:00 T 2-1 Alpha\n",
        MOVED,
    ),
    (
        Act::Calendar(CalendarPart::Committed),
        "oak committed\n1995-12-18 13:30-14:30 C 3-1 Beta\n",
        MOVED,
    ),
    (Act::Outcome("2-1"), "2-1 T 1995-12-18 16:00-17:00\n", MOVED),
    (Act::Cancel("2-1"), "2-2 T cancels 2-1\n", TAKEN_BACK),
    (Act::Outcome("2-1"), "2-1 T cancelled T 2-2\n", TAKEN_BACK),
];

/// Asks all that comes before the row of that place, with no stop. Answers the bytes of the files, and what is seen of the replica.
fn ready(rt: &impl Abort, alloc: Global, place: usize) -> (Bytes, &'static str) {
    let mut bytes = no_bytes(alloc);
    let mut seen = NEW;
    for (act, reply, after) in &ROWS[..place.min(ROWS.len())] {
        let files = disks(rt, alloc, &bytes, NO_STOP);
        let (is_acknowledged, files) = asked(rt, alloc, files, (*act, *reply));
        holds(rt, is_acknowledged, reply);
        bytes = bytes_of(rt, alloc, &files);
        seen = *after;
    }
    (bytes, seen)
}

/// How often the log stops at the row of that place, and how often the database does.
fn stops_at(rt: &impl Abort, alloc: Global, place: usize) -> (u64, u64) {
    let (bytes, before) = ready(rt, alloc, place);
    let (act, reply, after) = ROWS[place.min(ROWS.len() - 1)];
    let case = Case {
        ask: (act, reply),
        found: Found::Seen(before, after),
    };
    all_stops(rt, alloc, &bytes, case)
}

/// How often the log stops in the middle of a pull over HTTP, and how often the database does.
fn stops_of_pull(rt: &impl Abort, alloc: Global) -> (u64, u64) {
    let (bytes, before) = ready(rt, alloc, 3);
    let case = Case {
        ask: (Act::Pull, "took 1 writes 1 commits\n"),
        found: Found::Seen(before, MOVED),
    };
    all_stops(rt, alloc, &bytes, case)
}

/// How often the log stops while a database of the first schema is moved up, and how often the database does.
fn stops_of_move(rt: &impl Abort, alloc: Global) -> (u64, u64) {
    let bytes = first_bytes(rt, alloc);
    holds(
        rt,
        layout_of(rt, alloc, &bytes) == Some(FIRST),
        "a first database",
    );
    let case = Case {
        ask: (Act::Position, "mp2 2 1\nK 1\nV 2 1\nV 3 1\nE\n"),
        found: Found::Moved(MOVED),
    };
    all_stops(rt, alloc, &bytes, case)
}

/// Prints how often the log stopped, and how often the database did.
fn tell(rt: &HostRuntime, stops: (u64, u64)) {
    let (of_log, of_database) = stops;
    let _ = println!(rt; "{of_log} stops of the log, {of_database} of the database");
}

#[test]
fn disks_stop_as_tables_are_made(rt: HostRuntime) {
    tell(&rt, stops_at(&rt, rt.alloc(), 0));
}

#[test]
fn disks_stop_as_a_room_is_added(rt: HostRuntime) {
    tell(&rt, stops_at(&rt, rt.alloc(), 1));
}

#[test]
fn disks_stop_as_a_meeting_is_booked(rt: HostRuntime) {
    tell(&rt, stops_at(&rt, rt.alloc(), 2));
}

#[test]
fn disks_stop_at_a_position(rt: HostRuntime) {
    tell(&rt, stops_at(&rt, rt.alloc(), 3));
}

#[test]
fn disks_stop_as_a_batch_is_received(rt: HostRuntime) {
    tell(&rt, stops_at(&rt, rt.alloc(), 4));
}

#[test]
fn disks_stop_in_the_middle_of_a_pull(rt: HostRuntime) {
    tell(&rt, stops_of_pull(&rt, rt.alloc()));
}

#[test]
fn disks_stop_at_a_sheet(rt: HostRuntime) {
    tell(&rt, stops_at(&rt, rt.alloc(), 5));
}

#[test]
fn disks_stop_at_a_calendar(rt: HostRuntime) {
    tell(&rt, stops_at(&rt, rt.alloc(), 6));
}

#[test]
fn disks_stop_at_an_outcome(rt: HostRuntime) {
    tell(&rt, stops_at(&rt, rt.alloc(), 7));
}

#[test]
fn disks_stop_at_a_cancel(rt: HostRuntime) {
    tell(&rt, stops_at(&rt, rt.alloc(), 8));
}

#[test]
fn disks_stop_at_the_outcome_of_what_was_taken_back(rt: HostRuntime) {
    tell(&rt, stops_at(&rt, rt.alloc(), 9));
}

#[test]
fn disks_stop_as_the_first_tables_are_moved_up(rt: HostRuntime) {
    tell(&rt, stops_of_move(&rt, rt.alloc()));
}
