// A database of the first schema in two files: replica 2, which the commit of an earlier meeting has reached. The memory is ample.

use crate::disks::{Bytes, NO_STOP, bytes_of, disks, no_bytes};
use crate::layouts::Layout;
use crate::on_disks::{Came, Deed, on_files};
use sqlite::{Alter, Connection};
use std::alloc::Global;
use std::process::Abort;

/// The tables as the first schema has them, and their rows.
static STATEMENTS: [&str; 17] = [
    "CREATE TABLE meta (one INTEGER NOT NULL UNIQUE, schema INTEGER NOT NULL, server INTEGER NOT NULL, prim INTEGER NOT NULL, commits INTEGER NOT NULL, dropped INTEGER NOT NULL, clock INTEGER NOT NULL) STRICT",
    "CREATE TABLE room (name TEXT NOT NULL PRIMARY KEY) STRICT",
    "CREATE TABLE vector (server INTEGER NOT NULL UNIQUE, n INTEGER NOT NULL, tm INTEGER NOT NULL, committed INTEGER NOT NULL) STRICT",
    "CREATE TABLE write_log (server INTEGER NOT NULL, n INTEGER NOT NULL, tm INTEGER NOT NULL, room TEXT NOT NULL, length INTEGER NOT NULL, choices TEXT NOT NULL, title TEXT NOT NULL, seq INTEGER NOT NULL, PRIMARY KEY (server, n)) STRICT",
    "CREATE TABLE undo (server INTEGER NOT NULL, n INTEGER NOT NULL, place INTEGER NOT NULL, PRIMARY KEY (server, n)) STRICT",
    "CREATE TABLE booking (room TEXT NOT NULL, day TEXT NOT NULL, start INTEGER NOT NULL, stop INTEGER NOT NULL, server INTEGER NOT NULL, n INTEGER NOT NULL, title TEXT NOT NULL, committed INTEGER NOT NULL, PRIMARY KEY (server, n)) STRICT",
    "CREATE TABLE errorlog (room TEXT NOT NULL, day TEXT NOT NULL, start INTEGER NOT NULL, stop INTEGER NOT NULL, server INTEGER NOT NULL, n INTEGER NOT NULL, title TEXT NOT NULL, tm INTEGER NOT NULL, seq INTEGER NOT NULL, PRIMARY KEY (server, n)) STRICT",
    "INSERT INTO meta VALUES (1, 1, 2, 1, 1, 0, 1)",
    "INSERT INTO room VALUES ('oak')",
    "INSERT INTO vector VALUES (2, 1, 1, 0)",
    "INSERT INTO vector VALUES (3, 1, 1, 1)",
    "INSERT INTO write_log VALUES (2, 1, 1, 'oak', 60, '1995-12-18 14:00 1995-12-18 16:00', 'Alpha', 0)",
    "INSERT INTO write_log VALUES (3, 1, 1, 'oak', 60, '1995-12-18 13:30', 'Beta', 1)",
    "INSERT INTO undo VALUES (2, 1, 1)",
    "INSERT INTO undo VALUES (3, 1, 0)",
    "INSERT INTO booking VALUES ('oak', '1995-12-18', 960, 1020, 2, 1, 'Alpha', 0)",
    "INSERT INTO booking VALUES ('oak', '1995-12-18', 810, 870, 3, 1, 'Beta', 1)",
];

/// The layouts of that database, and of the one that it is moved up to.
pub(crate) const FIRST: Layout = [1, 7, 2, 2];

pub(crate) const SECOND: Layout = [2, 10, 0, 0];

pub(crate) fn fill<S: Alter>(rt: &impl Abort, conn: &mut Connection<S>) {
    for statement in &STATEMENTS {
        conn.execute(statement, &[]).expect(rt, "a statement");
    }
}

/// The bytes of both files.
pub(crate) fn first_bytes(rt: &impl Abort, alloc: Global) -> Bytes {
    let files = disks(rt, alloc, &no_bytes(alloc), NO_STOP);
    let (_, files) = on_files(rt, alloc, files, Deed::Fill);
    bytes_of(rt, alloc, &files)
}

/// Which tables the files with these bytes have; none if they can't be opened.
pub(crate) fn layout_of(rt: &impl Abort, alloc: Global, bytes: &Bytes) -> Option<Layout> {
    let files = disks(rt, alloc, bytes, NO_STOP);
    let (came, _) = on_files(rt, alloc, files, Deed::Count);
    match came {
        Came::Counted(found) => found,
        _ => None,
    }
}
