// What a replica replies to batches from other hands, worked by hand, some of each kind: over lists, over lists that load no desk, and over a database
// in memory. The memory is ample. Of files the program is asked all of them (tests/files/commands.sh, hostile_rows.sh).

use crate::acts::{Act, said};
use crate::opening::{Opening, new_service};
use crate::same_text::same_text;
use crate::without_desk::WithoutDesk;
use mr_base::Refusal;
use mr_service::Service;
use mr_sql::SqlKeeper;
use mr_store::ListKeeper;
use sqlite::MemStore;
use std::alloc::Global;
use std::process::Abort;

/// Two tentative writes for overlapping hours, of replicas 1 and 2, in 106 bytes.
pub(crate) const TWO: &str =
    "mr1 1 1\nW 1 1 1 oak 60 1995-12-18 14:00 0 Alpha\nW 2 1 1 oak 60 1995-12-18 13:30 1 1995-12-18 15:00 Beta\nE\n";

const SHEET_OF_TWO: &str =
    "oak 1995-12-18 Monday\n14:00-15:00 T 1-1 Alpha\n15:00-16:00 T 2-1 Beta\n";

const POSITION_OF_TWO: &str = "mp2 9 1\nK 0\nV 1 1\nV 2 1\nE\n";

const ALPHA: &str = "mr1 1 1\nW 1 1 1 oak 30 1995-12-18 09:00 0 Alpha\nE\n";

/// The same write with another title.
const OTHER: &str = "mr1 1 1\nW 1 1 1 oak 30 1995-12-18 09:00 0 Other\nE\n";

const COMMIT_OF_ALPHA: &str = "mr1 1 1\nC 1 1 1\nE\n";

const SHEET_OF_ALPHA: &str = "oak 1995-12-18 Monday\n09:00-09:30 C 1-1 Alpha\n";

/// The second write of replica 1, without the first.
const GAP: &str = "mr1 1 1\nW 1 2 5 oak 30 1995-12-18 09:00 0 Beta\nE\n";

/// A write at the greatest time.
const LAST: &str = "mr1 1 1\nW 1 1 999999999999 oak 30 1995-12-18 09:00 0 Last\nE\n";

const SHEET_OF_LAST: &str = "oak 1995-12-18 Monday\n09:00-09:30 T 1-1 Last\n";

const OWN: &str = "mr1 1 1\nW 2 1 1 oak 30 1995-12-18 09:00 0 Own\nE\n";

/// A commit of the second write of replica 1 before the first.
const TURNED: &str =
    "mr1 1 1\nW 1 1 1 oak 30 1995-12-18 09:00 0 Alpha\nW 1 2 2 oak 30 1995-12-18 10:00 0 Beta\nC 1 1 2\nE\n";

/// A cancel of a booking that isn't known, in the second version.
const CANCEL: &str = "mr2 1 1\nX 1 1 1 oak 2 1\nE\n";

/// The booking, which has come later.
const LATE: &str = "mr1 1 1\nW 2 1 2 oak 30 1995-12-18 09:00 0 Late\nE\n";

const OTHER_PRIMARY: &str = "mr1 1 3\nE\n";

const LEADING_ZERO: &str = "mr1 1 1\nW 1 01 1 oak 30 1995-12-18 09:00 0 Alpha\nE\n";

/// The position of replica 2 that knows nothing.
const NOTHING: &str = "mp2 2 1\nK 0\nE\n";

/// What happens to a replica.
#[derive(Clone, Copy)]
enum Event {
    /// It is a new one with this server.
    New(u32),
    Asked(Act),
}

static ROWS: [(Event, &str); 40] = [
    // a repeat brings nothing
    (Event::New(9), ""),
    (Event::Asked(Act::Batch(TWO)), "took 2 writes 0 commits\n"),
    (Event::Asked(Act::Sheet), SHEET_OF_TWO),
    (Event::Asked(Act::Position), POSITION_OF_TWO),
    (Event::Asked(Act::Batch(TWO)), "took 0 writes 0 commits\n"),
    // a torn line is dropped, and comes with the whole batch
    (Event::New(9), ""),
    (
        Event::Asked(Act::Front(TWO, 102)),
        "took 1 writes 0 commits\n",
    ),
    (Event::Asked(Act::Batch(TWO)), "took 1 writes 0 commits\n"),
    (Event::Asked(Act::Sheet), SHEET_OF_TWO),
    // another content is forged until it is dropped
    (Event::New(9), ""),
    (Event::Asked(Act::Batch(ALPHA)), "took 1 writes 0 commits\n"),
    (Event::Asked(Act::Batch(OTHER)), "refused 19 Forged 2\n"),
    (
        Event::Asked(Act::Batch(COMMIT_OF_ALPHA)),
        "took 0 writes 1 commits\n",
    ),
    (Event::Asked(Act::Truncate(1)), "dropped 1\n"),
    (Event::Asked(Act::Batch(OTHER)), "took 0 writes 0 commits\n"),
    (Event::Asked(Act::Sheet), SHEET_OF_ALPHA),
    // a cancel comes before what it would take back, which it leaves then
    (Event::New(9), ""),
    (
        Event::Asked(Act::Batch(CANCEL)),
        "took 1 writes 0 commits\n",
    ),
    (Event::Asked(Act::Errors), "oak errors\nT 1-1 cancel 2-1\n"),
    (Event::Asked(Act::Batch(LATE)), "took 1 writes 0 commits\n"),
    (
        Event::Asked(Act::Sheet),
        "oak 1995-12-18 Monday\n09:00-09:30 T 2-1 Late\n",
    ),
    (
        Event::Asked(Act::BatchFor("mp1 8 1\nK 0\nV 1 1\nE\n", 10)),
        "mr1 9 1\nW 2 1 2 oak 30 1995-12-18 09:00 0 Late\nE\n",
    ),
    // hostile lines, one of each refusal, to a replica that knows nothing
    (Event::New(2), ""),
    (
        Event::Asked(Act::Batch(LEADING_ZERO)),
        "refused 15 BadLine 2\n",
    ),
    (
        Event::Asked(Act::Batch(OTHER_PRIMARY)),
        "refused 16 WrongPrimary\n",
    ),
    (Event::Asked(Act::Batch(GAP)), "refused 17 Gap 2\n"),
    (
        Event::Asked(Act::Batch(TURNED)),
        "refused 18 OutOfOrder 4\n",
    ),
    (Event::Asked(Act::Batch(OWN)), "refused 20 OwnWrite 2\n"),
    (Event::Asked(Act::Position), NOTHING),
    (Event::Asked(Act::Sheet), "refused 7 UnknownRoom\n"),
    // after the greatest time nothing is booked
    (Event::Asked(Act::Batch(LAST)), "took 1 writes 0 commits\n"),
    (
        Event::Asked(Act::Book("30", "09:00", &[], "Next")),
        "refused 13 ClockExhausted\n",
    ),
    (Event::Asked(Act::Sheet), SHEET_OF_LAST),
    // what the primary alone may do
    (Event::New(1), ""),
    (Event::Asked(Act::Room("oak")), "ok\n"),
    (
        Event::Asked(Act::Book("30", "09:00", &[], "Alpha")),
        "1-1 T 1995-12-18 09:00-09:30\n",
    ),
    (
        Event::Asked(Act::Batch(COMMIT_OF_ALPHA)),
        "refused 21 PrimaryOnly 2\n",
    ),
    (Event::Asked(Act::Commit(5)), "committed 1\n"),
    (
        Event::Asked(Act::BatchFor("mp2 9 1\nK 0\nE\n", 10)),
        "mr2 1 1\nW 1 1 1 oak 30 1995-12-18 09:00 0 Alpha\nC 1 1 1\nE\n",
    ),
    (
        Event::Asked(Act::Truncate(1)),
        "refused 11 PrimaryKeepsAll\n",
    ),
];

/// The text of the reply; none if the replica is a new one now.
fn reply<K: Opening + Drop>(
    rt: &impl Abort,
    alloc: Global,
    service: &mut Service<K>,
    event: Event,
) -> Result<Vec<u8>, Refusal> {
    match event {
        Event::New(server) => {
            *service = new_service::<K>(rt, alloc, server);
            Ok(Vec::new(alloc))
        }
        Event::Asked(act) => said(alloc, service, act),
    }
}

fn check<K: Opening + Drop>(rt: &impl Abort, alloc: Global) {
    let mut service = new_service::<K>(rt, alloc, 9);
    for (event, want) in &ROWS {
        same_text(rt, &reply(rt, alloc, &mut service, *event), want);
    }
}

#[test]
fn batches_over_lists(rt: HostRuntime) {
    assert!(rt; TWO.len() == 106);
    check::<ListKeeper>(&rt, rt.alloc());
}

#[test]
fn batches_need_no_desk(rt: HostRuntime) {
    check::<WithoutDesk>(&rt, rt.alloc());
}

#[test]
fn batches_over_a_database(rt: HostRuntime) {
    check::<SqlKeeper<MemStore>>(&rt, rt.alloc());
}
