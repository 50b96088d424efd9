// The batches and positions of worked examples, as values and as bytes. What a test compares is made by functions without
// clauses, so that its proof carries no values that own memory.

use crate::builders::{Ask, Line, batch, position};
use crate::same::same;
use mr_base::{Batch, Ending, Position, Refusal, Version};
use mr_wire::{read_batch, read_position, write_batch, write_position};
use std::alloc::Global;
use std::process::Abort;

fn is_written_as(alloc: Global, batch: &Batch, text: &str) -> Result<bool, Refusal> {
    let written = write_batch(alloc, batch)?;
    Ok(written.as_slice() == text.as_bytes())
}

fn is_made_as(
    alloc: Global,
    version: Version,
    from: u32,
    lines: &[Line],
    ending: Ending,
    text: &str,
) -> Result<bool, Refusal> {
    let batch = batch(alloc, version, (from, 1), lines, ending)?;
    is_written_as(alloc, &batch, text)
}

/// Whether what is read of the text has it.
fn is_read_as(alloc: Global, text: &str) -> Result<bool, Refusal> {
    let found = read_batch(alloc, text.as_bytes())?;
    is_written_as(alloc, &found, text)
}

const ALPHA: Line = Line::W(
    1,
    1,
    1,
    Ask {
        title: "Alpha",
        length: 60,
        wish: 840,
        others: &[],
    },
);

const BETA: Line = Line::W(
    2,
    1,
    1,
    Ask {
        title: "Beta",
        length: 60,
        wish: 810,
        others: &[900],
    },
);

const LATER_BETA: Line = Line::W(
    3,
    1,
    1,
    Ask {
        title: "Beta",
        length: 60,
        wish: 810,
        others: &[],
    },
);

const AUDIT: Line = Line::W(
    1,
    1,
    1,
    Ask {
        title: "Audit",
        length: 60,
        wish: 810,
        others: &[],
    },
);

const BRIEF: Line = Line::W(
    1,
    2,
    2,
    Ask {
        title: "Brief",
        length: 30,
        wish: 870,
        others: &[],
    },
);

const LATE: Line = Line::W(
    2,
    1,
    2,
    Ask {
        title: "Late",
        length: 30,
        wish: 540,
        others: &[],
    },
);

const MORNING_ALPHA: Line = Line::W(
    1,
    1,
    1,
    Ask {
        title: "Alpha",
        length: 60,
        wish: 540,
        others: &[],
    },
);

const MORNING_BETA: Line = Line::W(
    1,
    2,
    2,
    Ask {
        title: "Beta",
        length: 60,
        wish: 540,
        others: &[600],
    },
);

const GAMMA: Line = Line::W(
    1,
    4,
    4,
    Ask {
        title: "Gamma",
        length: 60,
        wish: 540,
        others: &[],
    },
);

const NINE: Line = Line::W(
    1,
    1,
    1,
    Ask {
        title: "Nine",
        length: 60,
        wish: 480,
        others: &[540, 600, 660, 720, 780, 840, 900, 960, 1020],
    },
);

/// At all limits of the second version.
const SIXTEEN: Line = Line::W(
    99,
    999_999_999,
    999_999_999_999,
    Ask {
        title: "a title of sixty bytes,  with two spaces in it, and a point.",
        length: 60,
        wish: 480,
        others: &[
            540, 600, 660, 720, 780, 840, 900, 960, 1020, 1080, 1140, 1200, 1260, 1320, 1380, 420,
        ],
    },
);

/// At all limits of the first version.
const FULL: Line = Line::W(
    99,
    999_999_999,
    999_999_999_999,
    Ask {
        title: "a title of sixty bytes,  with two spaces in it, and a point.",
        length: 60,
        wish: 480,
        others: &[540, 600, 660, 720, 780, 840, 900, 960],
    },
);

const ALPHA_AND_BETA: &str =
    "mr1 1 1\nW 1 1 1 oak 60 1995-12-18 14:00 0 Alpha\nW 2 1 1 oak 60 1995-12-18 13:30 1 1995-12-18 15:00 Beta\nE\n";

/// Batches: their version, who made them, their lines and their ending, their text and how many bytes it has.
static BATCHES: [(Version, u32, &[Line], Ending, &str, usize); 17] = [
    (
        Version::First,
        1,
        &[ALPHA],
        Ending::Complete,
        "mr1 1 1\nW 1 1 1 oak 60 1995-12-18 14:00 0 Alpha\nE\n",
        50,
    ),
    (
        Version::First,
        2,
        &[BETA],
        Ending::Complete,
        "mr1 2 1\nW 2 1 1 oak 60 1995-12-18 13:30 1 1995-12-18 15:00 Beta\nE\n",
        66,
    ),
    (
        Version::First,
        3,
        &[LATER_BETA],
        Ending::Complete,
        "mr1 3 1\nW 3 1 1 oak 60 1995-12-18 13:30 0 Beta\nE\n",
        49,
    ),
    (
        Version::First,
        1,
        &[ALPHA, BETA],
        Ending::Complete,
        ALPHA_AND_BETA,
        106,
    ),
    (
        Version::First,
        1,
        &[LATER_BETA, Line::C(1, 3, 1)],
        Ending::Complete,
        "mr1 1 1\nW 3 1 1 oak 60 1995-12-18 13:30 0 Beta\nC 1 3 1\nE\n",
        57,
    ),
    (
        Version::First,
        1,
        &[AUDIT, Line::C(1, 1, 1), BRIEF, Line::C(2, 1, 2)],
        Ending::Complete,
        "mr1 1 1\nW 1 1 1 oak 60 1995-12-18 13:30 0 Audit\nC 1 1 1\nW 1 2 2 oak 30 1995-12-18 14:30 0 Brief\nC 2 1 2\nE\n",
        106,
    ),
    (
        Version::First,
        1,
        &[AUDIT, Line::C(1, 1, 1), BRIEF],
        Ending::More,
        "mr1 1 1\nW 1 1 1 oak 60 1995-12-18 13:30 0 Audit\nC 1 1 1\nW 1 2 2 oak 30 1995-12-18 14:30 0 Brief\nM\n",
        98,
    ),
    (Version::First, 99, &[], Ending::Cut, "mr1 99 1\n", 9),
    (Version::Second, 99, &[], Ending::Cut, "mr2 99 1\n", 9),
    (
        Version::First,
        1,
        &[FULL, Line::C(999_999_999_999, 99, 999_999_999)],
        Ending::Cut,
        "mr1 1 1\nW 99 999999999 999999999999 oak 60 1995-12-18 08:00 8 1995-12-18 09:00 1995-12-18 10:00 1995-12-18 11:00 1995-12-18 12:00 1995-12-18 13:00 1995-12-18 14:00 1995-12-18 15:00 1995-12-18 16:00 a title of sixty bytes,  with two spaces in it, and a point.\nC 999999999999 99 999999999\n",
        287,
    ),
    (
        Version::Second,
        1,
        &[ALPHA, BETA],
        Ending::Complete,
        "mr2 1 1\nW 1 1 1 oak 60 1995-12-18 14:00 0 Alpha\nW 2 1 1 oak 60 1995-12-18 13:30 1 1995-12-18 15:00 Beta\nE\n",
        106,
    ),
    (
        Version::Second,
        1,
        &[
            MORNING_ALPHA,
            Line::C(1, 1, 1),
            MORNING_BETA,
            Line::X(1, 3, 3, 1, 1),
            GAMMA,
            Line::X(1, 5, 5, 1, 1),
        ],
        Ending::Complete,
        "mr2 1 1\nW 1 1 1 oak 60 1995-12-18 09:00 0 Alpha\nC 1 1 1\nW 1 2 2 oak 60 1995-12-18 09:00 1 1995-12-18 10:00 Beta\nX 1 3 3 oak 1 1\nW 1 4 4 oak 60 1995-12-18 09:00 0 Gamma\nX 1 5 5 oak 1 1\nE\n",
        186,
    ),
    (
        Version::First,
        1,
        &[MORNING_ALPHA, Line::C(1, 1, 1), MORNING_BETA],
        Ending::More,
        "mr1 1 1\nW 1 1 1 oak 60 1995-12-18 09:00 0 Alpha\nC 1 1 1\nW 1 2 2 oak 60 1995-12-18 09:00 1 1995-12-18 10:00 Beta\nM\n",
        114,
    ),
    (
        Version::Second,
        1,
        &[Line::X(1, 1, 1, 2, 1)],
        Ending::Complete,
        "mr2 1 1\nX 1 1 1 oak 2 1\nE\n",
        26,
    ),
    (
        Version::First,
        9,
        &[LATE],
        Ending::Complete,
        "mr1 9 1\nW 2 1 2 oak 30 1995-12-18 09:00 0 Late\nE\n",
        49,
    ),
    (
        Version::Second,
        1,
        &[NINE],
        Ending::Complete,
        "mr2 1 1\nW 1 1 1 oak 60 1995-12-18 08:00 9 1995-12-18 09:00 1995-12-18 10:00 1995-12-18 11:00 1995-12-18 12:00 1995-12-18 13:00 1995-12-18 14:00 1995-12-18 15:00 1995-12-18 16:00 1995-12-18 17:00 Nine\nE\n",
        202,
    ),
    (
        Version::Second,
        99,
        &[
            SIXTEEN,
            Line::X(99, 999_999_998, 999_999_999_998, 99, 999_999_999),
            Line::C(999_999_999_999, 99, 999_999_999),
        ],
        Ending::Cut,
        "mr2 99 1\nW 99 999999999 999999999999 oak 60 1995-12-18 08:00 16 1995-12-18 09:00 1995-12-18 10:00 1995-12-18 11:00 1995-12-18 12:00 1995-12-18 13:00 1995-12-18 14:00 1995-12-18 15:00 1995-12-18 16:00 1995-12-18 17:00 1995-12-18 18:00 1995-12-18 19:00 1995-12-18 20:00 1995-12-18 21:00 1995-12-18 22:00 1995-12-18 23:00 1995-12-18 07:00 a title of sixty bytes,  with two spaces in it, and a point.\nX 99 999999998 999999999998 oak 99 999999999\nC 999999999999 99 999999999\n",
        470,
    ),
];

/// Whether a text has a header, how many items it has, and how it ends.
type Parts = (bool, usize, Ending);

/// The numbers of bytes from one to another of the text of Alpha and Beta, the second one left out, and what these bytes have. The
/// header ends with byte 8, the lines of the two writes with the bytes 48 and 104.
static FRONTS: [(usize, usize, Parts); 5] = [
    (0, 8, (false, 0, Ending::Cut)),
    (8, 48, (true, 0, Ending::Cut)),
    (48, 104, (true, 1, Ending::Cut)),
    (104, 106, (true, 2, Ending::Cut)),
    (106, 107, (true, 2, Ending::Complete)),
];

fn parts_of(alloc: Global, bytes: &[u8]) -> Result<Parts, Refusal> {
    let found = read_batch(alloc, bytes)?;
    Ok((found.header.is_some(), found.items.len(), found.ending))
}

#[test]
fn batches_are_exchanged(rt: HostRuntime) {
    for (version, from, lines, ending, text, size) in &BATCHES {
        let is_made = is_made_as(rt.alloc(), *version, *from, lines, *ending, text);
        same(&rt, &(is_made, text.len()), &(Ok(true), *size), text);
        same(&rt, &is_read_as(rt.alloc(), text), &Ok(true), text);
    }
}

#[test]
fn no_line_is_written_as_nothing(rt: HostRuntime) {
    let empty = Batch::without_header(Vec::new(rt.alloc()));
    let found = is_written_as(rt.alloc(), &empty, "");
    same(&rt, &found, &Ok(true), "no line");
}

/// The prefixes of these numbers of bytes have these parts.
fn check_fronts(rt: &impl Abort, alloc: Global, (from, to): (usize, usize), want: Parts) {
    for j in from..to {
        let front = ALPHA_AND_BETA.as_bytes().get(..j).unwrap_or(&[]);
        same(rt, &parts_of(alloc, front), &Ok(want), j);
    }
}

#[test]
fn fronts_are_read(rt: HostRuntime) {
    for (from, to, want) in &FRONTS {
        check_fronts(&rt, rt.alloc(), (*from, *to), *want);
    }
}

fn is_position_written_as(alloc: Global, position: &Position, text: &str) -> Result<bool, Refusal> {
    let written = write_position(alloc, position)?;
    Ok(written.as_slice() == text.as_bytes())
}

fn is_position_made_as(
    alloc: Global,
    version: Version,
    own: u32,
    commits: u64,
    of: &[(u32, u32)],
    text: &str,
) -> Result<bool, Refusal> {
    let position = position(alloc, version, own, commits, of)?;
    is_position_written_as(alloc, &position, text)
}

/// Whether what is read of the text has it.
fn is_position_read_as(alloc: Global, text: &str) -> Result<bool, Refusal> {
    let found = read_position(alloc, text.as_bytes())?;
    is_position_written_as(alloc, &found, text)
}

fn refusal_of_position(alloc: Global, bytes: &[u8]) -> Option<Refusal> {
    read_position(alloc, bytes).err()
}

/// Positions: their version, the own server, the commits and the counts, and their text.
static POSITIONS: [(Version, u32, u64, &[(u32, u32)], &str); 7] = [
    (Version::First, 2, 0, &[], "mp1 2 1\nK 0\nE\n"),
    (Version::Second, 2, 0, &[], "mp2 2 1\nK 0\nE\n"),
    (Version::First, 8, 0, &[(1, 1)], "mp1 8 1\nK 0\nV 1 1\nE\n"),
    (
        Version::First,
        9,
        0,
        &[(1, 1), (2, 1)],
        "mp1 9 1\nK 0\nV 1 1\nV 2 1\nE\n",
    ),
    (
        Version::Second,
        9,
        0,
        &[(1, 1), (2, 1)],
        "mp2 9 1\nK 0\nV 1 1\nV 2 1\nE\n",
    ),
    (
        Version::First,
        99,
        999_999_999_999,
        &[(1, 999_999_999), (99, 10)],
        "mp1 99 1\nK 999999999999\nV 1 999999999\nV 99 10\nE\n",
    ),
    (
        Version::Second,
        99,
        999_999_999_999,
        &[(1, 999_999_999), (99, 10)],
        "mp2 99 1\nK 999999999999\nV 1 999999999\nV 99 10\nE\n",
    ),
];

#[test]
fn positions_are_exchanged(rt: HostRuntime) {
    for (version, own, commits, counts, text) in &POSITIONS {
        let is_made = is_position_made_as(rt.alloc(), *version, *own, *commits, counts, text);
        same(&rt, &is_made, &Ok(true), text);
        same(&rt, &is_position_read_as(rt.alloc(), text), &Ok(true), text);
    }
}

/// No prefix of this text is a position's.
fn check_no_positions(rt: &impl Abort, alloc: Global, text: &str) {
    for j in 0..text.len() {
        let refusal = refusal_of_position(alloc, text.as_bytes().get(..j).unwrap_or(&[]));
        same(rt, &refusal, &Some(Refusal::BadPosition), (j, text));
    }
}

#[test]
fn fronts_of_positions_are_none(rt: HostRuntime) {
    for (_, _, _, _, text) in &POSITIONS {
        check_no_positions(&rt, rt.alloc(), text);
    }
}
