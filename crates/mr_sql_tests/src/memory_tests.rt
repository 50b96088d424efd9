// What a database in memory answers to each call of a keeper, and how it is adopted or given back. The memory is ample.

use crate::acts::Act;
use crate::moving_tests::{Trial, check_each};
use crate::opening::{Opening, server};
use crate::part_tests::filled;
use crate::reads::has_all;
use crate::same_text::holds;
use mr_base::Refusal;
use mr_sql::SqlKeeper;
use mr_store::ListKeeper;
use sqlite::{Connection, MemStore};
use std::alloc::Global;
use std::process::Abort;

/// Oak, two requests for the same half hour of it, a cancel of the first, a third request, and a void cancel of the second.
static COMMANDS: [(Act, &str); 6] = [
    (Act::Room("oak"), "ok\n"),
    (
        Act::Book("30", "09:00", &[], "Audit"),
        "1-1 T 1995-12-18 09:00-09:30\n",
    ),
    (Act::Book("30", "09:00", &[], "Audit"), "1-2 T logged\n"),
    (Act::Cancel("1-1"), "1-3 T cancels 1-1\n"),
    (
        Act::Book("30", "09:00", &[], "Audit"),
        "1-4 T 1995-12-18 09:00-09:30\n",
    ),
    (Act::Cancel("1-2"), "1-5 T void 1-2\n"),
];

/// Whether the keeper of replica 1, once it was asked these, has their rows.
fn is_read_back<K: Opening + Drop>(rt: &impl Abort, alloc: Global) -> bool {
    let mut keeper = filled::<K>(rt, alloc, 1, &COMMANDS).into_keeper();
    has_all(&mut keeper, alloc) == Ok(true)
}

#[test]
fn each_call_of_a_keeper_has_its_rows(rt: HostRuntime) {
    holds(&rt, is_read_back::<ListKeeper>(&rt, rt.alloc()), "lists");
    let is_so = is_read_back::<SqlKeeper<MemStore>>(&rt, rt.alloc());
    holds(&rt, is_so, "a database");
}

/// Another primary, another replica, and replica 1 itself.
static OF_OTHERS: [Trial; 3] = [
    Trial::Adopt(1, 2, 26),
    Trial::Adopt(3, 1, 26),
    Trial::Adopt(1, 1, 0),
];

/// Whether replica 1 in the database has all rows of the commands.
fn has_all_in(alloc: Global, conn: Connection<MemStore>) -> Result<bool, Refusal> {
    let server = server(1)?;
    match SqlKeeper::adopt(alloc, conn, server, server) {
        Ok(mut keeper) => has_all(&mut keeper, alloc),
        Err((refusal, _)) => Err(refusal),
    }
}

#[test]
fn a_refused_database_keeps_its_rows(rt: HostRuntime) {
    let alloc = rt.alloc();
    let filled = filled::<SqlKeeper<MemStore>>(&rt, alloc, 1, &COMMANDS);
    let conn = check_each(&rt, alloc, filled.into_keeper().release(), &OF_OTHERS);
    holds(&rt, has_all_in(alloc, conn) == Ok(true), "the rows");
}
