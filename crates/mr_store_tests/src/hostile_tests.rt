// Bytes that are no batch or no position, and large ones. What a test compares is made by functions without clauses, so
// that its proof carries no values that own memory.

use crate::same::same;
use mr_base::Refusal;
use mr_wire::{read_batch, read_position};
use std::alloc::Global;
use std::process::Abort;

const SIXTY: &str = "123456789012345678901234567890123456789012345678901234567890";

const PAIRS: &str =
    " 1995-12-18 09:00 1995-12-18 10:00 1995-12-18 11:00 1995-12-18 12:00 1995-12-18 13:00";

// The first text, more bytes this many times, and the last text.
fn joined(
    alloc: Global,
    first: &str,
    more: &[u8],
    times: usize,
    last: &str,
) -> Result<Vec<u8>, Refusal> {
    let mut bytes = Vec::new(alloc);
    bytes.extend_from_slice(first.as_bytes())?;
    for _ in 0..times {
        bytes.extend_from_slice(more)?;
    }
    bytes.extend_from_slice(last.as_bytes())?;
    Ok(bytes)
}

// How many items these bytes are.
fn items_in(
    alloc: Global,
    first: &str,
    more: &[u8],
    times: usize,
    last: &str,
) -> Result<usize, Refusal> {
    let bytes = joined(alloc, first, more, times, last)?;
    let batch = read_batch(alloc, bytes.as_slice())?;
    Ok(batch.items.len())
}

// How many commits the position has that these bytes are.
fn commits_in(
    alloc: Global,
    first: &str,
    more: &[u8],
    times: usize,
    last: &str,
) -> Result<u64, Refusal> {
    let bytes = joined(alloc, first, more, times, last)?;
    let position = read_position(alloc, bytes.as_slice())?;
    Ok(position.commits)
}

const HEADERS: [&str; 2] = ["mr1 1 1\n", "mr2 1 1\n"];

// lines of which each is refused under a header of either version: lines of no kind, bad stamps, bad titles and counts, bad
// rooms, lengths and slots, bad commits, and bad cancels
static BAD_LINES: [&str; 85] = [
    "",
    " ",
    "Z",
    "e",
    "E ",
    " E",
    "M ",
    "W",
    "C",
    "W ",
    "E\r",
    "W  1 1 1 oak 30 1995-12-18 09:00 0 Alpha",
    "w 1 1 1 oak 30 1995-12-18 09:00 0 Alpha",
    "c 1 1 1",
    "W 1 01 1 oak 30 1995-12-18 09:00 0 Alpha",
    "W 1 1000000000 1 oak 30 1995-12-18 09:00 0 Alpha",
    "W 1 0 1 oak 30 1995-12-18 09:00 0 Alpha",
    "W 0 1 1 oak 30 1995-12-18 09:00 0 Alpha",
    "W 100 1 1 oak 30 1995-12-18 09:00 0 Alpha",
    "W 01 1 1 oak 30 1995-12-18 09:00 0 Alpha",
    "W 1 1 0 oak 30 1995-12-18 09:00 0 Alpha",
    "W 1 1 1000000000000 oak 30 1995-12-18 09:00 0 Alpha",
    "W 1 1 1 oak 30 1995-12-18 09:00 0 ",
    "W 1 1 1 oak 30 1995-12-18 09:00 0",
    "W 1 1 1 oak 30 1995-12-18 09:00 0 Alpha ",
    "W 1 1 1 oak 30 1995-12-18 09:00 0  Alpha",
    "W 1 1 1 oak 30 1995-12-18 09:00 0 Al\tpha",
    "W 1 1 1 oak 30 1995-12-18 09:00 0 Alph\u{e4}",
    "W 1 1 1 oak 30 1995-12-18 09:00 0 Alpha\r",
    "W 1 1 1 oak 30 1995-12-18 09:00 00 Alpha",
    "W 1 1 1 oak 30 1995-12-18 09:00 1 Alpha",
    "W 1 1 1 oak 30 1995-12-18 09:00 2 1995-12-18 10:00 Alpha",
    "W 1 1 1 oak 30 1995-12-18 09:00 16 1995-12-18 10:00 1995-12-18 10:00 1995-12-18 10:00 1995-12-18 10:00 1995-12-18 10:00 1995-12-18 10:00 1995-12-18 10:00 1995-12-18 10:00 1995-12-18 10:00 1995-12-18 10:00 1995-12-18 10:00 1995-12-18 10:00 1995-12-18 10:00 1995-12-18 10:00 1995-12-18 10:00 Alpha",
    "W 1 1 1 oak 30 1995-12-18 09:00 17 1995-12-18 10:00 1995-12-18 10:00 1995-12-18 10:00 1995-12-18 10:00 1995-12-18 10:00 1995-12-18 10:00 1995-12-18 10:00 1995-12-18 10:00 1995-12-18 10:00 1995-12-18 10:00 1995-12-18 10:00 1995-12-18 10:00 1995-12-18 10:00 1995-12-18 10:00 1995-12-18 10:00 1995-12-18 10:00 1995-12-18 10:00 Alpha",
    "W 1 1 1  30 1995-12-18 09:00 0 Alpha",
    "W 1 1 1 Oak 30 1995-12-18 09:00 0 Alpha",
    "W 1 1 1 oak 30 1995-12-18 09:00 0 1234567890123456789012345678901234567890123456789012345678901",
    "W 1 1 1 abcdefghijklmnopq 30 1995-12-18 09:00 0 Alpha",
    "W 1 1 1 oak 0 1995-12-18 09:00 0 Alpha",
    "W 1 1 1 oak 030 1995-12-18 09:00 0 Alpha",
    "W 1 1 1 oak 1441 1995-12-18 00:00 0 Alpha",
    "W 1 1 1 oak 2 1995-12-18 23:59 0 Late",
    "W 1 1 1 oak 60 1995-12-18 09:00 1 1995-12-18 23:30 Late",
    "W 1 1 1 oak 30 2023-02-29 09:00 0 Leap",
    "W 1 1 1 oak 30 1989-12-31 09:00 0 Early",
    "W 1 1 1 oak 30 1995-12-18 24:00 0 Late",
    "W 1 1 1 oak 30 1995-12-18 9:00 0 Alpha",
    "W 1 1 1 oak 30  1995-12-18 09:00 0 Alpha",
    "C ",
    "C 0 1 1",
    "C 1000000000000 1 1",
    "C 01 1 1",
    "C 1 100 1",
    "C 1 01 1",
    "C 1 1 0",
    "C 1 1 01",
    "C 1 1 1000000000",
    "C 1 1 1 ",
    "C 1 1 1 1",
    "C 1 1",
    "X",
    "X ",
    "x 1 1 1 oak 2 1",
    "Y 1 1 1 oak 2 1",
    "X  1 1 1 oak 2 1",
    "X 0 1 1 oak 2 1",
    "X 1 0 1 oak 2 1",
    "X 1 1 0 oak 2 1",
    "X 1 1 01 oak 2 1",
    "X 1 1 1 Oak 2 1",
    "X 1 1 1  2 1",
    "X 1 1 1 abcdefghijklmnopq 2 1",
    "X 1 1 1 oak",
    "X 1 1 1 oak ",
    "X 1 1 1 oak 2",
    "X 1 1 1 oak 2-1",
    "X 1 1 1 oak 0 1",
    "X 1 1 1 oak 02 1",
    "X 1 1 1 oak 100 1",
    "X 1 1 1 oak 2 0",
    "X 1 1 1 oak 2 01",
    "X 1 1 1 oak 2 1000000000",
    "X 1 1 1 oak 2 1 ",
    "X 1 1 1 oak 2 1 1",
    "X 1 1 1 oak 2 1\r",
];

// lines under a header of either version, and how many items they are, or their refusal
static LINES: [(&str, Result<usize, Refusal>); 15] = [
    ("E\nE", Err(Refusal::BadLine(3))),
    ("M\nE", Err(Refusal::BadLine(3))),
    ("E\n", Err(Refusal::BadLine(3))),
    ("C 1 1 1\nE\nC 2 1 2", Err(Refusal::BadLine(4))),
    ("C 1 1 1\nC 2 1 2\nZ\nZ", Err(Refusal::BadLine(4))),
    ("W 2 1 1 oak 30 1995-12-18 09:00 0 Own", Ok(1)),
    (
        "W 1 1 1 oak 30 1995-12-18 09:00 0 Alpha\nW 1 2 2 oak 30 1995-12-18 10:00 0 Beta\nC 1 1 2",
        Ok(3),
    ),
    ("C 2 1 1", Ok(1)),
    (
        "W 1 1 1 oak 30 1995-12-18 09:00 0 1995-12-18 10:00 x\nE",
        Ok(1),
    ),
    ("W 1 999999999 1 oak 30 1995-12-18 09:00 0 Far", Ok(1)),
    ("C 999999999999 1 1", Ok(1)),
    (
        "W 1 1 999999999999 oak 30 1995-12-18 09:00 0 Last\nW 1 2 999999999999 oak 30 1995-12-18 09:00 0 More",
        Ok(2),
    ),
    (
        "W 1 1 1 oak 30 1995-12-18 09:00 0 Alpha\nW 1 1 1 oak 30 1995-12-18 09:00 0 Other",
        Ok(2),
    ),
    (
        "W 1 1 1 oak 30 1995-12-18 09:00 0 Alpha\nC 1 1 1\nC 1 1 1\nE",
        Ok(3),
    ),
    (
        "W 1 1 1 oak 1440 2096-02-29 00:00 0 123456789012345678901234567890123456789012345678901234567890",
        Ok(1),
    ),
];

// lines under the header of the first version and of the second, and how many items they are, or their refusal
static LINES_OF_VERSIONS: [(&str, Result<usize, Refusal>, Result<usize, Refusal>); 8] = [
    ("X 1 1 1 oak 2 1\nE", Err(Refusal::BadLine(2)), Ok(1)),
    ("X 1 1 1 oak 1 1", Err(Refusal::BadLine(2)), Ok(1)),
    (
        "X 99 999999999 999999999999 oak 99 999999999",
        Err(Refusal::BadLine(2)),
        Ok(1),
    ),
    (
        "C 1 1 1\nX 1 2 2 oak 1 1\nC 2 1 2\nE",
        Err(Refusal::BadLine(3)),
        Ok(3),
    ),
    (
        "X 1 1 1 oak 2 1\nE\nE",
        Err(Refusal::BadLine(2)),
        Err(Refusal::BadLine(4)),
    ),
    (
        "W 1 1 1 oak 30 1995-12-18 09:00 8 1995-12-18 10:00 1995-12-18 10:00 1995-12-18 10:00 1995-12-18 10:00 1995-12-18 10:00 1995-12-18 10:00 1995-12-18 10:00 1995-12-18 10:00 Eight",
        Ok(1),
        Ok(1),
    ),
    (
        "W 1 1 1 oak 30 1995-12-18 09:00 9 1995-12-18 09:00 1995-12-18 10:00 1995-12-18 11:00 1995-12-18 12:00 1995-12-18 13:00 1995-12-18 14:00 1995-12-18 15:00 1995-12-18 16:00 1995-12-18 17:00 Nine",
        Err(Refusal::BadLine(2)),
        Ok(1),
    ),
    (
        "W 1 1 1 oak 30 1995-12-18 09:00 16 1995-12-18 10:00 1995-12-18 10:00 1995-12-18 10:00 1995-12-18 10:00 1995-12-18 10:00 1995-12-18 10:00 1995-12-18 10:00 1995-12-18 10:00 1995-12-18 10:00 1995-12-18 10:00 1995-12-18 10:00 1995-12-18 10:00 1995-12-18 10:00 1995-12-18 10:00 1995-12-18 10:00 1995-12-18 10:00 Sixteen",
        Err(Refusal::BadLine(2)),
        Ok(1),
    ),
];

static BAD_HEADERS: [&str; 26] = [
    "mr1 100 1",
    "mr1 0 1",
    "mr1 01 1",
    "mr1 1 100",
    "mr1 1 0",
    "mr1 1 01",
    "mr1 1 1\r",
    "mr1 1 1 ",
    "mr1 1 1 1",
    "mr1 1",
    "mr1  1 1",
    " mr1 1 1",
    "MR1 1 1",
    "mr2 100 1",
    "mr2 1 0",
    "mr2 1 1\r",
    "mr2 1 1 ",
    "mr2 1",
    "mr2",
    "mr0 1 1",
    "mr3 1 1",
    "mr21 1 1",
    "mp1 1 1",
    "mp2 1 1",
    "E",
    "",
];

// Each of the texts, between the first and the last, is refused for this line.
fn check_bad(rt: &impl Abort, alloc: Global, (first, last): (&str, &str), of: &[&str], line: u64) {
    for text in of {
        let found = items_in(alloc, first, text.as_bytes(), 1, last);
        same(rt, &found, &Err(Refusal::BadLine(line)), (first, text));
    }
}

#[test]
fn the_first_bad_line_is_reported(rt: HostRuntime) {
    for header in &HEADERS {
        check_bad(&rt, rt.alloc(), (header, "\n"), &BAD_LINES, 2);
    }
    check_bad(&rt, rt.alloc(), ("", "\nE\n"), &BAD_HEADERS, 1);
}

// The lines are read so under this header.
fn check_lines(rt: &impl Abort, alloc: Global, header: &str) {
    for (lines, want) in &LINES {
        let found = items_in(alloc, header, lines.as_bytes(), 1, "\n");
        same(rt, &found, want, (header, lines));
    }
}

#[test]
fn either_version_reads_these_lines(rt: HostRuntime) {
    for header in &HEADERS {
        check_lines(&rt, rt.alloc(), header);
    }
}

#[test]
fn a_version_reads_its_own_lines(rt: HostRuntime) {
    for (lines, first, second) in &LINES_OF_VERSIONS {
        let found = items_in(rt.alloc(), "mr1 1 1\n", lines.as_bytes(), 1, "\n");
        same(&rt, &found, first, lines);
        let found = items_in(rt.alloc(), "mr2 1 1\n", lines.as_bytes(), 1, "\n");
        same(&rt, &found, second, lines);
    }
}

// a text, what follows it many times and what stands at the end, and how many items these are, or their refusal; reading
// takes time in proportion to the bytes
static LARGE: [((&str, &str), usize, &str, Result<usize, Refusal>); 13] = [
    (
        ("mr1 1 1\nW ", SIXTY),
        50_000,
        "\n",
        Err(Refusal::BadLine(2)),
    ),
    (
        ("mr1 1 1\nW 1 1 1 ", SIXTY),
        50_000,
        "\n",
        Err(Refusal::BadLine(2)),
    ),
    (
        ("mr1 1 1\nW 1 1 1 oak 30 1995-12-18 09:00 0 ", SIXTY),
        50_000,
        "\n",
        Err(Refusal::BadLine(2)),
    ),
    (
        ("mr1 1 1\nW 1 1 1 oak 30 1995-12-18 09:00 8", PAIRS),
        50_000,
        "\n",
        Err(Refusal::BadLine(2)),
    ),
    (
        ("mr1 1 1\nW 1 1 1 oak 30 1995-12-18 09:00 4000000000", PAIRS),
        50_000,
        "\n",
        Err(Refusal::BadLine(2)),
    ),
    (("mr1 1 1\n", PAIRS), 50_000, "\n", Err(Refusal::BadLine(2))),
    (
        ("mr1 1 1\n\n", PAIRS),
        50_000,
        "\n",
        Err(Refusal::BadLine(2)),
    ),
    (("mr1 1 1\n", PAIRS), 50_000, "", Ok(0)),
    (("mr1 1 1", "\nC 1 1 1"), 1_000_000, "\n", Ok(1_000_000)),
    (
        ("mr2 1 1\nW 1 1 1 oak 30 1995-12-18 09:00 16", PAIRS),
        10_000,
        "\n",
        Err(Refusal::BadLine(2)),
    ),
    (
        ("mr2 1 1\nX 1 1 1 ", SIXTY),
        10_000,
        "\n",
        Err(Refusal::BadLine(2)),
    ),
    (
        ("mr2 1 1\nX 1 1 1 oak 2 ", SIXTY),
        10_000,
        "\n",
        Err(Refusal::BadLine(2)),
    ),
    (("mr2 1 1", "\nX 1 1 1 oak 2 1"), 10_000, "\n", Ok(10_000)),
];

// a text, bytes that are none, the text behind them, and what comes of the whole
static NO_TEXT: [(&str, &[u8], &str, Result<usize, Refusal>); 4] = [
    (
        "mr1 1 1\nW 1 1 1 oak 30 1995-12-18 09:00 0 Al",
        b"\xff",
        "ha\n",
        Err(Refusal::BadLine(2)),
    ),
    (
        "mr2 1 1\nX 1 1 1 oa",
        b"\xff",
        "k 2 1\n",
        Err(Refusal::BadLine(2)),
    ),
    ("mr1 1 ", b"\xc3", "\n", Err(Refusal::BadLine(1))),
    ("mr1 1 1\n", b"\xff\xfe", "", Ok(0)),
];

#[test]
fn large_batches_are_read(rt: HostRuntime) {
    for ((first, more), times, last, want) in &LARGE {
        let found = items_in(rt.alloc(), first, more.as_bytes(), *times, last);
        same(&rt, &found, want, first);
    }
}

#[test]
fn what_is_no_text_is_read(rt: HostRuntime) {
    for (first, bytes, last, want) in &NO_TEXT {
        let found = items_in(rt.alloc(), first, bytes, 1, last);
        same(&rt, &found, want, first);
    }
}

// texts that are no position's, whatever stands behind their first word
static NO_POSITIONS: [&str; 9] = [
    "",
    "\n",
    "\nmp1 9 1\nK 0\nE\n",
    "mp3 9 1\nK 0\nE\n",
    "mp 9 1\nK 0\nE\n",
    "mp12 9 1\nK 0\nE\n",
    "MP2 9 1\nK 0\nE\n",
    "mr1 9 1\nK 0\nE\n",
    "mr2 9 1\nK 0\nE\n",
];

const POSITION_WORDS: [&str; 2] = ["mp1", "mp2"];

// what is bad behind the first word of either version
static BAD_POSITIONS: [&str; 30] = [
    "\n",
    " 9 1\n",
    " 9 1\nE\n",
    " 9 1\nK 0\n",
    " 9 1\nK 0\nE",
    " 9 1\nK 0\nM\n",
    " 9 1\nK 0\nE\n\n",
    " 9 1\nK 0\nE\nE\n",
    " 9 1\nK 0\nE\nx",
    " 9 1\n\nK 0\nE\n",
    " 9 1\r\nK 0\r\nE\r\n",
    " 9 1 \nK 0\nE\n",
    " 09 1\nK 0\nE\n",
    " 0 1\nK 0\nE\n",
    " 100 1\nK 0\nE\n",
    " 9 100\nK 0\nE\n",
    " 9 1\nK 00\nE\n",
    " 9 1\nK 1000000000000\nE\n",
    " 9 1\nK -1\nE\n",
    " 9 1\nK\nE\n",
    " 9 1\nK 0 0\nE\n",
    " 9 1\nK 0\nV 1 0\nE\n",
    " 9 1\nK 0\nV 1 01\nE\n",
    " 9 1\nK 0\nV 1 1000000000\nE\n",
    " 9 1\nK 0\nV 0 1\nE\n",
    " 9 1\nK 0\nV 100 1\nE\n",
    " 9 1\nK 0\nV 1 1\nV 1 1\nE\n",
    " 9 1\nK 0\nV 2 1\nV 1 1\nE\n",
    " 9 1\nV 1 1\nK 0\nE\n",
    " 9 1\nK 0\nV 1 1 \nE\n",
];

// a text, and what follows it many times
static LARGE_POSITIONS: [(&str, &str); 5] = [
    ("mp1 1 1\nK 0", "\nV 1 1\nV 1 1\nV 1 1\nV 1 1\nV 1 1"),
    ("mp1 1 1\nK 0\nE", "\n\n\n\n\n\n\n\n"),
    ("mp1 1 1\nK ", SIXTY),
    ("mp2 1 1\nK 0\nV 1 ", SIXTY),
    ("", SIXTY),
];

// No text behind this word is a position's.
fn check_none(rt: &impl Abort, alloc: Global, word: &str, texts: &[&str]) {
    for text in texts {
        let found = commits_in(alloc, word, text.as_bytes(), 1, "");
        same(rt, &found, &Err(Refusal::BadPosition), (word, text));
    }
}

#[test]
fn bad_positions_are_refused(rt: HostRuntime) {
    check_none(&rt, rt.alloc(), "", &NO_POSITIONS);
    for word in &POSITION_WORDS {
        check_none(&rt, rt.alloc(), word, &BAD_POSITIONS);
    }
}

#[test]
fn large_positions_are_refused(rt: HostRuntime) {
    for (first, more) in &LARGE_POSITIONS {
        let found = commits_in(rt.alloc(), first, more.as_bytes(), 50_000, "\n");
        same(&rt, &found, &Err(Refusal::BadPosition), first);
    }
}

#[test]
fn what_is_no_text_is_no_position(rt: HostRuntime) {
    let found = commits_in(rt.alloc(), "mp1 1 1\nK 0\nE\n", b"\xff", 1, "\n");
    same(&rt, &found, &Err(Refusal::BadPosition), b"\xff");
}

// batches whose first bad line stands behind good ones, and that line
static BAD_BEHIND_GOOD: [(&str, u64); 9] = [
    ("mr1 1 1\nW 1 1 1 oak 30 1995-12-18 09:00 0 Alpha\nZ\n", 3),
    (
        "mr1 1 1\nW 1 1 1 oak 30 1995-12-18 09:00 1 1995-12-18 10:00 Alpha\nC 1 1 1\nE\nE\n",
        5,
    ),
    (
        "mr1 1 1\nC 1 1 1\nW 1 1 1 oak 30 1995-12-18 09:00 1 1995-12-18 23:31 Late\nE\n",
        3,
    ),
    (
        "mr1 1 1\nC 1 1 1\nW 1 1 1 oak 30 1995-12-18 09:00 2 1995-12-18 10:00 1995-12-18 11:00  two\n",
        3,
    ),
    (
        "mr1 1 1\nC 1 1 1\nC 2 1 2\nW 1 1 1 oak_2 30 1995-12-18 09:00 0 Alpha\nE\n",
        4,
    ),
    (
        "mr1 1 1\nW 1 1 1 oak 30 1995-12-18 09:00 0 Alpha\nX 1 2 2 oak 1 1\nE\n",
        3,
    ),
    (
        "mr1 1 1\nW 1 1 1 oak 30 1995-12-18 09:00 0 Alpha\nW 1 2 2 oak 30 1995-12-18 09:00 9 1995-12-18 09:00 1995-12-18 10:00 1995-12-18 11:00 1995-12-18 12:00 1995-12-18 13:00 1995-12-18 14:00 1995-12-18 15:00 1995-12-18 16:00 1995-12-18 17:00 Nine\nE\n",
        3,
    ),
    ("mr2 1 1\nX 1 1 1 oak 2 1\nX 1 2 2 oak_2 2 1\nE\n", 3),
    (
        "mr2 1 1\nX 1 1 1 oak 2 1\nW 1 2 2 oak 30 1995-12-18 09:00 17 1995-12-18 10:00 1995-12-18 10:00 1995-12-18 10:00 1995-12-18 10:00 1995-12-18 10:00 1995-12-18 10:00 1995-12-18 10:00 1995-12-18 10:00 1995-12-18 10:00 1995-12-18 10:00 1995-12-18 10:00 1995-12-18 10:00 1995-12-18 10:00 1995-12-18 10:00 1995-12-18 10:00 1995-12-18 10:00 1995-12-18 10:00 Late\n",
        3,
    ),
];

// positions whose first bad line stands behind good counts
static BAD_BEHIND_COUNTS: [&str; 4] = [
    "mp1 9 1\nK 0\nV 1 1\nV 1 1\nE\n",
    "mp1 9 1\nK 0\nV 1 1\nV 3 1\nV 2 1\nE\n",
    "mp1 9 1\nK 0\nV 1 1\nV 2 1\nE\nE\n",
    "mp2 9 1\nK 0\nV 1 1\nV 2 1\nV 1 1\nE\n",
];

// The line for which the bytes are refused, 0 if they are read.
fn bad_line_of(alloc: Global, text: &str) -> Result<u64, Refusal> {
    match read_batch(alloc, text.as_bytes()) {
        Ok(_) => Ok(0),
        Err(Refusal::BadLine(line)) => Ok(line),
        Err(refusal) => Err(refusal),
    }
}

#[test]
fn bad_lines_behind_good_ones_are_reported(rt: HostRuntime) {
    for (text, line) in &BAD_BEHIND_GOOD {
        same(&rt, &bad_line_of(rt.alloc(), text), &Ok(*line), text);
    }
}

#[test]
fn bad_lines_behind_counts_are_refused(rt: HostRuntime) {
    for text in &BAD_BEHIND_COUNTS {
        let found = read_position(rt.alloc(), text.as_bytes()).err();
        same(&rt, &found, &Some(Refusal::BadPosition), text);
    }
}
