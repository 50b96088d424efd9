// Scripts of offices with each reply, worked by hand. The primary is office 1. The program is asked these and others (tests/scripts).

use crate::acts::Act;
use crate::offices::Step;
use mr_service::CalendarPart;

/// A step, and the text of its reply.
pub(crate) type Row = (Step, &'static str);

const OAK: Act = Act::Room("oak");

/// The first steps of offices that know the room.
const OAK_AT_1: Row = (Step::At(1, OAK), "ok\n");

const OAK_AT_2: Row = (Step::At(2, OAK), "ok\n");

const OAK_AT_3: Row = (Step::At(3, OAK), "ok\n");

const AUDIT: Row = (
    Step::At(1, Act::Book("60", "13:30", &[], "Audit")),
    "1-1 T 1995-12-18 13:30-14:30\n",
);

const BRIEF: Row = (
    Step::At(1, Act::Book("30", "14:30", &[], "Brief")),
    "1-2 T 1995-12-18 14:30-15:00\n",
);

const SHEET_OF_EQUAL_TIMES: &str =
    "oak 1995-12-18 Monday\n14:00-15:00 T 1-1 Alpha\n15:00-16:00 T 2-1 Beta\n";

/// Two writes have the same time, so that the server decides.
pub(crate) static EQUAL_TIMES: [Row; 10] = [
    OAK_AT_1,
    OAK_AT_2,
    (
        Step::At(1, Act::Book("60", "14:00", &[], "Alpha")),
        "1-1 T 1995-12-18 14:00-15:00\n",
    ),
    (
        Step::At(2, Act::Book("60", "13:30", &["15:00"], "Beta")),
        "2-1 T 1995-12-18 13:30-14:30\n",
    ),
    (Step::Batch(1, 2, 10), "batch 1 50 bytes\n"),
    (Step::Deliver(1, 2), "took 1 writes 0 commits\n"),
    (Step::Batch(2, 1, 10), "batch 2 66 bytes\n"),
    (Step::Deliver(2, 1), "took 1 writes 0 commits\n"),
    (Step::At(1, Act::Sheet), SHEET_OF_EQUAL_TIMES),
    (Step::At(2, Act::Sheet), SHEET_OF_EQUAL_TIMES),
];

/// The order of the commits turns that of the stamps round.
pub(crate) static TURNED: [Row; 12] = [
    OAK_AT_2,
    OAK_AT_3,
    (
        Step::At(2, Act::Book("60", "14:00", &["16:00"], "Alpha")),
        "2-1 T 1995-12-18 14:00-15:00\n",
    ),
    (
        Step::At(3, Act::Book("60", "13:30", &[], "Beta")),
        "3-1 T 1995-12-18 13:30-14:30\n",
    ),
    (Step::Batch(3, 1, 10), "batch 1 49 bytes\n"),
    (Step::Deliver(1, 1), "took 1 writes 0 commits\n"),
    (Step::At(1, Act::Commit(5)), "committed 1\n"),
    (Step::Batch(1, 2, 10), "batch 2 57 bytes\n"),
    (Step::Deliver(2, 2), "took 1 writes 1 commits\n"),
    (
        Step::At(2, Act::Sheet),
        "oak 1995-12-18 Monday\n13:30-14:30 C 3-1 Beta\n16:00-17:00 T 2-1 Alpha\n",
    ),
    (
        Step::At(2, Act::Calendar(CalendarPart::Committed)),
        "oak committed\n1995-12-18 13:30-14:30 C 3-1 Beta\n",
    ),
    (
        Step::At(2, Act::Outcome("2-1")),
        "2-1 T 1995-12-18 16:00-17:00\n",
    ),
];

/// An earlier write moves the next one, which takes the slot of a third.
pub(crate) static CHAIN: [Row; 10] = [
    OAK_AT_1,
    OAK_AT_2,
    (
        Step::At(2, Act::Book("60", "09:00", &["10:00"], "Alpha")),
        "2-1 T 1995-12-18 09:00-10:00\n",
    ),
    (
        Step::At(2, Act::Book("60", "10:00", &[], "Beta")),
        "2-2 T 1995-12-18 10:00-11:00\n",
    ),
    (
        Step::At(1, Act::Book("30", "09:00", &[], "Xray")),
        "1-1 T 1995-12-18 09:00-09:30\n",
    ),
    (Step::Batch(1, 2, 10), "batch 1 49 bytes\n"),
    (Step::Deliver(1, 2), "took 1 writes 0 commits\n"),
    (
        Step::At(2, Act::Sheet),
        "oak 1995-12-18 Monday\n09:00-09:30 T 1-1 Xray\n10:00-11:00 T 2-1 Alpha\n",
    ),
    (
        Step::At(2, Act::Errors),
        "oak errors\nT 2-2 1995-12-18 10:00-11:00 Beta\n",
    ),
    (Step::At(2, Act::Outcome("2-2")), "2-2 T logged\n"),
];

const ALPHA: Row = (
    Step::At(1, Act::Book("60", "09:00", &[], "Alpha")),
    "1-1 T 1995-12-18 09:00-10:00\n",
);

/// A position of the first version, of a replica that knows nothing.
const NOTHING: &str = "mp1 9 1\nK 0\nE\n";

const SHEET_OF_TAKEN_BACK: &str =
    "oak 1995-12-18 Monday\n09:00-10:00 T 1-4 Gamma\n10:00-11:00 T 1-2 Beta\n";

/// A committed booking is taken back by a tentative cancel, and its slot is booked again. All of it is told in the second version, and in
/// the first what comes before the cancel. Its first 15 rows are the script `cancel_and_rebook`.
pub(crate) static TAKEN_BACK: [Row; 20] = [
    OAK_AT_1,
    ALPHA,
    (
        Step::At(1, Act::Book("60", "09:00", &["10:00"], "Beta")),
        "1-2 T 1995-12-18 10:00-11:00\n",
    ),
    (Step::At(1, Act::Commit(1)), "committed 1\n"),
    (Step::At(1, Act::Cancel("1-1")), "1-3 T cancels 1-1\n"),
    (
        Step::At(1, Act::Book("60", "09:00", &[], "Gamma")),
        "1-4 T 1995-12-18 09:00-10:00\n",
    ),
    (Step::At(1, Act::Sheet), SHEET_OF_TAKEN_BACK),
    (
        Step::At(1, Act::Calendar(CalendarPart::Committed)),
        "oak committed\n1995-12-18 09:00-10:00 C 1-1 Alpha\n",
    ),
    (Step::At(1, Act::Outcome("1-1")), "1-1 C cancelled T 1-3\n"),
    (Step::At(1, Act::Cancel("1-1")), "1-5 T void 1-1\n"),
    (Step::At(1, Act::Errors), "oak errors\nT 1-5 cancel 1-1\n"),
    (Step::At(1, Act::Cancel("1-3")), "refused 9 NoSuchRequest\n"),
    (Step::Batch(1, 2, 10), "batch 1 186 bytes\n"),
    (Step::Deliver(1, 2), "took 5 writes 1 commits\n"),
    (Step::At(2, Act::Sheet), SHEET_OF_TAKEN_BACK),
    // the same at the office that cancelled, and what no script has a line for
    (Step::At(1, Act::Sheet), SHEET_OF_TAKEN_BACK),
    (Step::At(1, Act::Outcome("1-5")), "1-5 T void 1-1\n"),
    (Step::At(2, Act::Outcome("1-1")), "1-1 C cancelled T 1-3\n"),
    (
        Step::At(1, Act::BatchFor(NOTHING, 3)),
        "mr1 1 1\nW 1 1 1 oak 60 1995-12-18 09:00 0 Alpha\nC 1 1 1\nW 1 2 2 oak 60 1995-12-18 09:00 1 1995-12-18 10:00 Beta\nM\n",
    ),
    (
        Step::At(1, Act::BatchFor(NOTHING, 4)),
        "refused 27 NeedsVersion2\n",
    ),
];

/// An earlier write takes the slot of a booking that was taken back, and the cancel is void.
pub(crate) static MADE_VOID: [Row; 9] = [
    OAK_AT_1,
    OAK_AT_2,
    (
        Step::At(2, Act::Book("60", "09:00", &[], "Alpha")),
        "2-1 T 1995-12-18 09:00-10:00\n",
    ),
    (Step::At(2, Act::Cancel("2-1")), "2-2 T cancels 2-1\n"),
    (
        Step::At(1, Act::Book("60", "09:30", &[], "Xray")),
        "1-1 T 1995-12-18 09:30-10:30\n",
    ),
    (Step::Batch(1, 2, 10), "batch 1 49 bytes\n"),
    (Step::Deliver(1, 2), "took 1 writes 0 commits\n"),
    (
        Step::At(2, Act::Sheet),
        "oak 1995-12-18 Monday\n09:30-10:30 T 1-1 Xray\n",
    ),
    (
        Step::At(2, Act::Errors),
        "oak errors\nT 2-1 1995-12-18 09:00-10:00 Alpha\nT 2-2 cancel 2-1\n",
    ),
];

/// A booking that was taken back is committed before its cancel is.
pub(crate) static COMMITTED_FIRST: [Row; 8] = [
    OAK_AT_1,
    ALPHA,
    (Step::At(1, Act::Cancel("1-1")), "1-2 T cancels 1-1\n"),
    (Step::At(1, Act::Commit(1)), "committed 1\n"),
    (Step::At(1, Act::Outcome("1-1")), "1-1 C cancelled T 1-2\n"),
    (
        Step::At(1, Act::Calendar(CalendarPart::Committed)),
        "oak committed\n1995-12-18 09:00-10:00 C 1-1 Alpha\n",
    ),
    (Step::At(1, Act::Commit(1)), "committed 1\n"),
    (
        Step::At(1, Act::Calendar(CalendarPart::Committed)),
        "oak committed\n(no bookings)\n",
    ),
];

/// Committed writes are dropped, and an office that lacks them turns to the primary.
pub(crate) static TRUNCATED: [Row; 14] = [
    OAK_AT_1,
    AUDIT,
    BRIEF,
    (Step::At(1, Act::Commit(9)), "committed 2\n"),
    (Step::Batch(1, 2, 10), "batch 1 106 bytes\n"),
    (Step::Deliver(1, 2), "took 2 writes 2 commits\n"),
    (Step::At(2, Act::Truncate(2)), "dropped 2\n"),
    (
        Step::At(2, Act::Truncate(3)),
        "refused 12 BeyondCommitted\n",
    ),
    (
        Step::At(1, Act::Truncate(1)),
        "refused 11 PrimaryKeepsAll\n",
    ),
    (Step::Batch(2, 3, 10), "refused 22 Truncated\n"),
    (Step::Batch(1, 3, 3), "batch 2 98 bytes\n"),
    (Step::Deliver(2, 3), "took 2 writes 1 commits\n"),
    (
        Step::At(2, Act::Sheet),
        "oak 1995-12-18 Monday\n13:30-14:30 C 1-1 Audit\n14:30-15:00 C 1-2 Brief\n",
    ),
    (
        Step::At(3, Act::Sheet),
        "oak 1995-12-18 Monday\n13:30-14:30 C 1-1 Audit\n14:30-15:00 T 1-2 Brief\n",
    ),
];

/// Two offices book the same half hour, meet, and hear of the primary's commits.
pub(crate) static MET: [Row; 15] = [
    OAK_AT_1,
    OAK_AT_2,
    (
        Step::At(1, Act::Book("30", "09:00", &[], "Planning")),
        "1-1 T 1995-12-18 09:00-09:30\n",
    ),
    (
        Step::At(2, Act::Book("30", "09:00", &[], "Interview")),
        "2-1 T 1995-12-18 09:00-09:30\n",
    ),
    (Step::Batch(1, 2, 10), "batch 1 53 bytes\n"),
    (Step::Deliver(1, 2), "took 1 writes 0 commits\n"),
    (Step::Batch(2, 1, 10), "batch 2 54 bytes\n"),
    (Step::Deliver(2, 1), "took 1 writes 0 commits\n"),
    (Step::At(1, Act::Commit(2)), "committed 2\n"),
    (Step::Batch(1, 2, 10), "batch 3 26 bytes\n"),
    (Step::Deliver(3, 2), "took 0 writes 2 commits\n"),
    (
        Step::At(2, Act::Sheet),
        "oak 1995-12-18 Monday\n09:00-09:30 C 1-1 Planning\n",
    ),
    (
        Step::At(2, Act::Book("30", "09:00", &[], "Tidying")),
        "2-2 T logged\n",
    ),
    (Step::Batch(2, 1, 10), "batch 4 52 bytes\n"),
    (Step::Deliver(4, 1), "took 1 writes 0 commits\n"),
];
