// Values are made within their limits and not past them, and each call that takes memory answers with enough of it.
// What a test compares is made by functions without clauses, so that its proof carries no values that own memory.

use crate::builders::{
    Ask, Line, MONDAY, TUESDAY, batch, cancel, header, id, names, position, request, slot, slots,
    stamp,
};
use crate::same::same;
use mr_base::{
    Action, Batch, CommitNumber, Ending, Item, LineCount, Meeting, Refusal, RoomName, Title,
    Version, Write, overlaps, stamp_before,
};
use std::alloc::Global;
use std::process::Abort;

static STARTS: [(u32, Option<Refusal>); 7] = [
    (0, None),
    (1, None),
    (719, None),
    (1439, None),
    (1440, Some(Refusal::BadTime)),
    (1441, Some(Refusal::BadTime)),
    (u32::MAX, Some(Refusal::BadTime)),
];

// the start and the length of a meeting on Monday, those of another and its day, and whether they share a minute
static MEETINGS: [((u32, u32), (u32, u32), &str, bool); 13] = [
    ((810, 60), (870, 30), MONDAY, false),
    ((810, 61), (870, 30), MONDAY, true),
    ((870, 30), (810, 60), MONDAY, false),
    ((870, 30), (810, 61), MONDAY, true),
    ((0, 1440), (1439, 1), MONDAY, true),
    ((600, 60), (600, 60), MONDAY, true),
    ((600, 60), (610, 10), MONDAY, true),
    ((610, 10), (600, 60), MONDAY, true),
    ((600, 0), (590, 60), MONDAY, false),
    ((600, 0), (600, 0), MONDAY, false),
    ((1439, u32::MAX), (0, u32::MAX), MONDAY, true),
    ((600, 60), (600, 60), TUESDAY, false),
    ((1439, u32::MAX), (0, u32::MAX), TUESDAY, false),
];

fn do_overlap(
    (a, a_length): (u32, u32),
    (b, b_length): (u32, u32),
    day: &str,
) -> Result<bool, Refusal> {
    let first = slot(MONDAY, a)?;
    let second = slot(day, b)?;
    Ok(overlaps(first, second, a_length, b_length))
}

#[test]
fn slots_start_on_their_day_and_overlap_there(rt: HostRuntime) {
    for (start, want) in &STARTS {
        same(&rt, &slot(MONDAY, *start).err(), want, start);
    }
    for (first, second, day, want) in &MEETINGS {
        let found = do_overlap(*first, *second, day);
        same(&rt, &found, &Ok(*want), (first, second));
    }
}

static ROOMS: [(&str, Result<bool, Refusal>); 12] = [
    ("a", Ok(true)),
    ("oak", Ok(true)),
    ("room-7", Ok(true)),
    ("0123456789abcdef", Ok(true)),
    ("-", Ok(true)),
    ("", Err(Refusal::BadRoomName)),
    ("Oak", Err(Refusal::BadRoomName)),
    ("0123456789abcdefg", Err(Refusal::BadRoomName)),
    ("a b", Err(Refusal::BadRoomName)),
    ("a_b", Err(Refusal::BadRoomName)),
    ("é", Err(Refusal::BadRoomName)),
    ("oak\n", Err(Refusal::BadRoomName)),
];

static TITLES: [(&str, Result<bool, Refusal>); 12] = [
    ("x", Ok(true)),
    ("Budget Meeting", Ok(true)),
    ("~!@", Ok(true)),
    (
        "123456789 123456789 123456789 123456789 123456789 123456789.",
        Ok(true),
    ),
    ("", Err(Refusal::BadTitle)),
    (" x", Err(Refusal::BadTitle)),
    ("x ", Err(Refusal::BadTitle)),
    (" ", Err(Refusal::BadTitle)),
    ("a\tb", Err(Refusal::BadTitle)),
    ("a\nb", Err(Refusal::BadTitle)),
    ("café", Err(Refusal::BadTitle)),
    (
        "123456789 123456789 123456789 123456789 123456789 123456789..",
        Err(Refusal::BadTitle),
    ),
];

// Whether the room of this text, copied and cloned, has the text.
fn is_room_of(alloc: Global, text: &str) -> Result<bool, Refusal> {
    let room = RoomName::new(alloc, text)?.copy(alloc)?.clone()?;
    Ok(room.as_str() == text)
}

// Whether the title of this text, copied and cloned, has the text.
fn is_title_of(alloc: Global, text: &str) -> Result<bool, Refusal> {
    let title = Title::new(alloc, text)?.copy(alloc)?.clone()?;
    Ok(title.as_str() == text)
}

#[test]
fn room_names_and_titles_are_within_limits(rt: HostRuntime) {
    for (text, want) in &ROOMS {
        same(&rt, &is_room_of(rt.alloc(), text), want, text);
    }
    for (text, want) in &TITLES {
        same(&rt, &is_title_of(rt.alloc(), text), want, text);
    }
}

// the number of a server, a number of lines and that of a commit, a server's count and a time, and whether all are in range
static LIMITS: [((u32, u32, u64), (u32, u64), Option<bool>); 12] = [
    ((1, 1, 1), (1, 1), Some(true)),
    (
        (99, 100_000, 999_999_999_999),
        (999_999_999, 999_999_999_999),
        Some(true),
    ),
    ((0, 1, 1), (1, 1), None),
    ((100, 1, 1), (1, 1), None),
    ((1, 0, 1), (1, 1), None),
    ((1, 100_001, 1), (1, 1), None),
    ((1, 1, 0), (1, 1), None),
    ((1, 1, 1_000_000_000_000), (1, 1), None),
    ((1, 1, 1), (0, 1), None),
    ((1, 1, 1), (1_000_000_000, 1), None),
    ((1, 1, 1), (1, 0), None),
    ((1, 1, 1), (1, 1_000_000_000_000), None),
];

// Whether what is made of these numbers has them.
fn have_numbers((server, lines, commit): (u32, u32, u64), (n, time): (u32, u64)) -> Option<bool> {
    let stamp = stamp(server, n, time).ok()?;
    let lines_made = LineCount::new(lines)?;
    let commit_made = CommitNumber::new(commit)?;
    let id = stamp.id();
    Some(
        lines_made.number() == lines
            && commit_made.number() == commit
            && id.server.number() == server
            && id.n == n
            && stamp.time == time,
    )
}

#[test]
fn numbers_are_within_limits(rt: HostRuntime) {
    for (numbers, parts, want) in &LIMITS {
        let found = have_numbers(*numbers, *parts);
        same(&rt, &found, want, (numbers, parts));
    }
}

// A write for oak on 1995-12-18 at 14:00, or else at one of these minutes of the day; or its refusal.
fn write(
    alloc: Global,
    (server, n, time): (u32, u32, u64),
    length: u32,
    others: &[u32],
) -> Result<Write, Refusal> {
    let (stamp, wish) = (stamp(server, n, time)?, slot(MONDAY, 840)?);
    let (room, title) = names(alloc, "oak", "Budget Meeting")?;
    Write::new(
        stamp,
        room,
        title,
        length,
        wish,
        slots(alloc, MONDAY, others)?,
    )
}

// a write's server, count and time, its length and its alternatives; whether it is the same as the second write of server
// 2, at time 2, of 60 minutes, with 09:00 as its alternative; and whether that one stands before it
static WRITES: [((u32, u32, u64), u32, &[u32], Result<(bool, bool), Refusal>); 17] = [
    ((2, 2, 2), 60, &[540], Ok((true, false))),
    ((2, 2, 2), 59, &[540], Ok((false, false))),
    ((2, 2, 2), 60, &[541], Ok((false, false))),
    ((2, 2, 2), 60, &[540, 540], Ok((false, false))),
    ((2, 3, 2), 60, &[540], Ok((false, false))),
    ((1, 1, 1), 60, &[540], Ok((false, false))),
    ((3, 1, 1), 60, &[540], Ok((false, false))),
    ((1, 1, 2), 60, &[540], Ok((false, false))),
    ((3, 1, 2), 60, &[540], Ok((false, true))),
    ((1, 3, 3), 60, &[540], Ok((false, true))),
    ((3, 3, 3), 60, &[540], Ok((false, true))),
    ((2, 2, 2), 0, &[540], Err(Refusal::BadLength)),
    ((2, 2, 2), 1441, &[540], Err(Refusal::BadLength)),
    ((2, 2, 2), 600, &[540], Ok((false, false))),
    ((2, 2, 2), 601, &[540], Err(Refusal::BadLength)),
    ((2, 2, 2), 60, &[1380], Ok((false, false))),
    ((2, 2, 2), 60, &[1381], Err(Refusal::BadLength)),
];

// What a write and the copy of another are to each other.
fn compared(alloc: Global, first: &Write, other: &Write) -> Result<(bool, bool), Refusal> {
    let other = other.copy(alloc)?;
    Ok((first.is_same(&other), stamp_before(first, &other)))
}

fn compared_bookings(
    alloc: Global,
    first: &Write,
    numbers: (u32, u32, u64),
    length: u32,
    others: &[u32],
) -> Result<(bool, bool), Refusal> {
    let other = write(alloc, numbers, length, others)?;
    compared(alloc, first, &other)
}

// What this write is to the others.
fn check_writes(rt: &impl Abort, alloc: Global, first: &Write) {
    for (numbers, length, others, want) in &WRITES {
        let found = compared_bookings(alloc, first, *numbers, *length, others);
        same(rt, &found, want, (numbers, length));
    }
}

#[test]
fn writes_are_copied_and_compared(rt: HostRuntime) {
    let first = write(rt.alloc(), (2, 2, 2), 60, &[540]).expect(&rt, "a write");
    check_writes(&rt, rt.alloc(), &first);
}

// a cancel's stamp and its target; what it and its copy are to the cancel 2-2 of 1-1 at time 2; and whether that cancel stands
// before it
static CANCELS: [((u32, u32, u64), (u32, u32), Result<(bool, bool), Refusal>); 5] = [
    ((2, 2, 2), (1, 1), Ok((true, false))),
    ((2, 2, 2), (1, 2), Ok((false, false))),
    ((2, 2, 2), (2, 1), Ok((false, false))),
    ((2, 3, 2), (1, 1), Ok((false, false))),
    ((3, 2, 2), (1, 1), Ok((false, true))),
];

// The cancel for oak with this stamp.
fn cancel_of(
    alloc: Global,
    (server, n, time): (u32, u32, u64),
    (of, target): (u32, u32),
) -> Result<Write, Refusal> {
    cancel(alloc, stamp(server, n, time)?, "oak", id(of, target)?)
}

fn compared_cancels(
    alloc: Global,
    first: &Write,
    numbers: (u32, u32, u64),
    target: (u32, u32),
) -> Result<(bool, bool), Refusal> {
    let other = cancel_of(alloc, numbers, target)?;
    compared(alloc, first, &other)
}

fn is_cancel_of(write: &Write, (of, n): (u32, u32)) -> Result<bool, Refusal> {
    let wanted = id(of, n)?;
    match &write.action {
        Action::Cancels(found) => Ok(*found == wanted),
        Action::Books(_) => Ok(false),
    }
}

fn is_same_as_cancel(alloc: Global, booking: &Write) -> Result<bool, Refusal> {
    let other = cancel_of(alloc, (2, 2, 2), (1, 1))?;
    Ok(booking.is_same(&other) || other.is_same(booking))
}

// Whether a booking and a cancel under one stamp are the same.
fn are_kinds_same(alloc: Global) -> Result<bool, Refusal> {
    let booking = write(alloc, (2, 2, 2), 60, &[540])?;
    is_same_as_cancel(alloc, &booking)
}

// What this cancel is to the others.
fn check_cancels(rt: &impl Abort, alloc: Global, first: &Write) {
    for (numbers, target, want) in &CANCELS {
        let found = compared_cancels(alloc, first, *numbers, *target);
        same(rt, &found, want, (numbers, target));
    }
}

#[test]
fn cancels_are_copied_and_compared(rt: HostRuntime) {
    let first = cancel_of(rt.alloc(), (2, 2, 2), (1, 1)).expect(&rt, "a cancel");
    same(&rt, &is_cancel_of(&first, (1, 1)), &Ok(true), "its target");
    check_cancels(&rt, rt.alloc(), &first);
}

#[test]
fn a_booking_and_a_cancel_are_compared(rt: HostRuntime) {
    same(&rt, &are_kinds_same(rt.alloc()), &Ok(false), "both kinds");
}

// the words of a request that wishes 14:00, its length and its alternatives, and its smallest refusal
static REQUESTS: [((&str, &str), u32, &[u32], Result<bool, Refusal>); 14] = [
    (("oak", "Audit"), 60, &[], Ok(true)),
    (("oak", "Audit"), 600, &[540, 600], Ok(true)),
    (("oak", "Audit"), 60, &[540; 9], Ok(true)),
    (("oak", "Audit"), 60, &[540; 16], Ok(true)),
    (
        ("oak", "Audit"),
        60,
        &[540; 17],
        Err(Refusal::TooManyAlternatives),
    ),
    (("oak", ""), 60, &[540; 17], Err(Refusal::BadTitle)),
    (("Oak", ""), 60, &[540; 17], Err(Refusal::BadRoomName)),
    (("Oak", ""), 0, &[540; 17], Err(Refusal::BadLength)),
    (("Oak", "Audit"), 60, &[540; 17], Err(Refusal::BadRoomName)),
    (("oak", " Audit"), 60, &[], Err(Refusal::BadTitle)),
    (("", "Audit"), 60, &[], Err(Refusal::BadRoomName)),
    (("oak", "Audit"), 601, &[], Err(Refusal::BadLength)),
    (("oak", "Audit"), 1441, &[], Err(Refusal::BadLength)),
    (("oak", "Audit"), 60, &[1381], Err(Refusal::BadLength)),
];

// Whether the meeting is what is asked for, on Monday.
fn is_meeting_of(meeting: &Meeting, ask: Ask) -> Result<bool, Refusal> {
    let wish = slot(MONDAY, ask.wish)?;
    Ok(
        meeting.title.as_str() == ask.title
            && meeting.length == ask.length
            && meeting.wish == wish
            && meeting.alternatives.as_slice().len() == ask.others.len(),
    )
}

// Whether the request of these words has them.
fn is_request_of(alloc: Global, room: &str, ask: Ask) -> Result<bool, Refusal> {
    let made = request(alloc, (room, MONDAY), ask)?;
    Ok(made.room.as_str() == room && is_meeting_of(&made.meeting, ask)?)
}

#[test]
fn the_smallest_refusal_of_words_is_answered(rt: HostRuntime) {
    for ((room, title), length, others, want) in &REQUESTS {
        let ask = Ask {
            title,
            length: *length,
            wish: 840,
            others,
        };
        let found = is_request_of(rt.alloc(), room, ask);
        same(&rt, &found, want, (room, title, length));
    }
}

// A write of server 2, with as many alternatives as the first version has, and its commit.
const WRITE_AND_COMMIT: [Line; 2] = [
    Line::W(
        2,
        1,
        1,
        Ask {
            title: "Budget Meeting",
            length: 60,
            wish: 840,
            others: &[540; 8],
        },
    ),
    Line::C(1, 2, 1),
];

// Whether a batch of a write and its commit has its version, its servers, its items and its ending.
fn is_batch_made(alloc: Global, version: Version) -> Result<bool, Refusal> {
    let header = header(2, 1)?;
    let batch = batch(alloc, version, (2, 1), &WRITE_AND_COMMIT, Ending::More)?;
    Ok(
        batch.version == version
            && batch.header == Some(header)
            && batch.items.len() == 2
            && batch.ending == Ending::More,
    )
}

// Whether a batch of nothing without a header is one of the first version that was cut.
fn is_empty_made(alloc: Global) -> bool {
    let made = Batch::without_header(Vec::new(alloc));
    made.header.is_none() && made.ending == Ending::Cut && made.version == Version::First
}

// Whether this version of the exchange text can say the write; and why there is no batch of that version of it.
fn said(alloc: Global, version: Version, write: Write) -> Result<(bool, Option<Refusal>), Refusal> {
    let is_said = write.is_in_version(version);
    let mut items = Vec::new(alloc);
    items.push(Item::W(write))?;
    let made = Batch::new(version, header(2, 1)?, items, Ending::Complete);
    Ok((is_said, made.err()))
}

// Of a booking with these alternatives.
fn said_booking(
    alloc: Global,
    version: Version,
    others: &[u32],
) -> Result<(bool, Option<Refusal>), Refusal> {
    said(alloc, version, write(alloc, (2, 1, 1), 60, others)?)
}

// Of a cancel.
fn said_cancel(alloc: Global, version: Version) -> Result<(bool, Option<Refusal>), Refusal> {
    said(alloc, version, cancel_of(alloc, (2, 1, 1), (1, 1))?)
}

const IS_SAID: Result<(bool, Option<Refusal>), Refusal> = Ok((true, None));

const IS_REFUSED: Result<(bool, Option<Refusal>), Refusal> = Ok((
    false,
    Some(Refusal::NeedsVersion2),
));

// the alternatives of a booking, and whether the first version can say it
static BOOKINGS: [(&[u32], bool); 4] = [
    (&[], true),
    (&[540; 8], true),
    (&[540; 9], false),
    (&[540; 16], false),
];

#[test]
fn the_first_version_has_fewer_writes(rt: HostRuntime) {
    for (others, is_said) in &BOOKINGS {
        let want = if *is_said { IS_SAID } else { IS_REFUSED };
        same(
            &rt,
            &said_booking(rt.alloc(), Version::First, others),
            &want,
            others,
        );
        same(
            &rt,
            &said_booking(rt.alloc(), Version::Second, others),
            &IS_SAID,
            others,
        );
    }
    same(
        &rt,
        &said_cancel(rt.alloc(), Version::First),
        &IS_REFUSED,
        "a cancel",
    );
    same(
        &rt,
        &said_cancel(rt.alloc(), Version::Second),
        &IS_SAID,
        "a cancel",
    );
}

// the version, the commits and the counts of a position, and whether they are one's
static POSITIONS: [(Version, u64, &[(u32, u32)], bool); 8] = [
    (Version::First, 999_999_999_999, &[], true),
    (Version::Second, 0, &[], true),
    (
        Version::Second,
        999_999_999_999,
        &[(1, 5), (2, 999_999_999)],
        true,
    ),
    (Version::First, 999_999_999_999, &[(2, 1), (1, 1)], false),
    (Version::Second, 999_999_999_999, &[(1, 1), (1, 1)], false),
    (Version::First, 999_999_999_999, &[(1, 0)], false),
    (
        Version::Second,
        999_999_999_999,
        &[(1, 1_000_000_000)],
        false,
    ),
    (Version::Second, 1_000_000_000_000, &[], false),
];

// The version of the position with these.
fn version_of_position(
    alloc: Global,
    version: Version,
    commits: u64,
    of: &[(u32, u32)],
) -> Result<Version, Refusal> {
    Ok(position(alloc, version, 2, commits, of)?.version)
}

#[test]
fn batches_are_made(rt: HostRuntime) {
    for version in [Version::First, Version::Second] {
        same(&rt, &is_batch_made(rt.alloc(), version), &Ok(true), version);
    }
    same(&rt, &is_empty_made(rt.alloc()), &true, "no line");
}

#[test]
fn positions_are_made(rt: HostRuntime) {
    for (version, commits, counts, is_one) in &POSITIONS {
        let found = version_of_position(rt.alloc(), *version, *commits, counts);
        let want = if *is_one {
            Ok(*version)
        } else {
            Err(Refusal::BadPosition)
        };
        same(&rt, &found, &want, (version, commits, counts));
    }
}

static REFUSALS: [(Refusal, u32, &str, Option<u64>); 27] = [
    (Refusal::BadDay, 1, "BadDay", None),
    (Refusal::BadTime, 2, "BadTime", None),
    (Refusal::BadLength, 3, "BadLength", None),
    (Refusal::BadRoomName, 4, "BadRoomName", None),
    (Refusal::BadTitle, 5, "BadTitle", None),
    (Refusal::TooManyAlternatives, 6, "TooManyAlternatives", None),
    (Refusal::UnknownRoom, 7, "UnknownRoom", None),
    (Refusal::RoomThere, 8, "RoomThere", None),
    (Refusal::NoSuchRequest, 9, "NoSuchRequest", None),
    (Refusal::NotPrimary, 10, "NotPrimary", None),
    (Refusal::PrimaryKeepsAll, 11, "PrimaryKeepsAll", None),
    (Refusal::BeyondCommitted, 12, "BeyondCommitted", None),
    (Refusal::ClockExhausted, 13, "ClockExhausted", None),
    (Refusal::CountExhausted, 14, "CountExhausted", None),
    (Refusal::BadLine(2), 15, "BadLine", Some(2)),
    (Refusal::WrongPrimary, 16, "WrongPrimary", None),
    (Refusal::Gap(3), 17, "Gap", Some(3)),
    (Refusal::OutOfOrder(4), 18, "OutOfOrder", Some(4)),
    (Refusal::Forged(5), 19, "Forged", Some(5)),
    (Refusal::OwnWrite(6), 20, "OwnWrite", Some(6)),
    (Refusal::PrimaryOnly(7), 21, "PrimaryOnly", Some(7)),
    (Refusal::Truncated, 22, "Truncated", None),
    (Refusal::BadPosition, 23, "BadPosition", None),
    (Refusal::OutOfMemory, 24, "OutOfMemory", None),
    (Refusal::Store, 25, "Store", None),
    (Refusal::NotAReplica, 26, "NotAReplica", None),
    (Refusal::NeedsVersion2, 27, "NeedsVersion2", None),
];

#[test]
fn refusals_have_numbers_and_names(rt: HostRuntime) {
    for (refusal, number, name, line) in &REFUSALS {
        let found = (refusal.number(), refusal.name(), refusal.line());
        same(&rt, &found, &(*number, *name, *line), refusal);
    }
}
