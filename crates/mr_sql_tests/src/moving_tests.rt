// Tables of the first schema in memory are moved up: what is seen of the replica stays, and it goes on as any other. The memory is ample. Of files
// the program is asked this (tests/files/moved.sh).

use crate::acts::{Act, said};
use crate::firsts::first_tables;
use crate::layouts::schema;
use crate::offices::{Offices, opened};
use crate::opening::{new_service, server};
use crate::receiving_tests::TWO;
use crate::same_text::{same_count, same_text, same_texts};
use crate::scripts::TRUNCATED;
use mr_base::{Refusal, ServerId};
use mr_first::First;
use mr_service::{CalendarPart, Service};
use mr_sql::{FirstKeeper, SqlKeeper};
use mr_store::{Keeper, ListKeeper};
use sqlite::{Connection, MemStore};
use std::alloc::Global;
use std::process::Abort;

/// What a replica is asked, and its reply.
type Reply = (Act, &'static str);

fn check<K: Keeper>(rt: &impl Abort, alloc: Global, service: &mut Service<K>, replies: &[Reply]) {
    for (act, want) in replies {
        same_text(rt, &said(alloc, service, *act), want);
    }
}

/// Fifty writes of elm have come with their commits and are dropped, of which the first alone was booked; and then two of oak.
static OF_ELM: [Reply; 3] = [
    (Act::Elm, "took 50 writes 50 commits\n"),
    (Act::Truncate(50), "dropped 50\n"),
    (Act::Batch(TWO), "took 2 writes 0 commits\n"),
];

/// A replica that has dropped two committed writes of the primary.
static SEEN_OF_TRUNCATED: [Reply; 6] = [
    (
        Act::Sheet,
        "oak 1995-12-18 Monday\n13:30-14:30 C 1-1 Audit\n14:30-15:00 C 1-2 Brief\n",
    ),
    (
        Act::Calendar(CalendarPart::Committed),
        "oak committed\n1995-12-18 13:30-14:30 C 1-1 Audit\n1995-12-18 14:30-15:00 C 1-2 Brief\n",
    ),
    (Act::Outcome("1-1"), "1-1 C 1995-12-18 13:30-14:30\n"),
    (Act::Outcome("1-2"), "1-2 C 1995-12-18 14:30-15:00\n"),
    (Act::Errors, "oak errors\n(no errors)\n"),
    (Act::Truncate(3), "refused 12 BeyondCommitted\n"),
];

/// One of these is taken back: it leaves the sheet, and the committed calendar once the cancel is committed, too.
static AFTER_TRUNCATED: [Reply; 4] = [
    (Act::Cancel("1-1"), "2-1 T cancels 1-1\n"),
    (
        Act::Calendar(CalendarPart::Committed),
        "oak committed\n1995-12-18 13:30-14:30 C 1-1 Audit\n1995-12-18 14:30-15:00 C 1-2 Brief\n",
    ),
    (
        Act::Sheet,
        "oak 1995-12-18 Monday\n14:30-15:00 C 1-2 Brief\n",
    ),
    (Act::Outcome("1-1"), "1-1 C cancelled T 2-1\n"),
];

/// Tables of the first schema in memory, moved up.
fn raised(alloc: Global, tables: &First) -> Result<Service<SqlKeeper<MemStore>>, Refusal> {
    let first = FirstKeeper::from_tables(alloc, tables)?;
    match first.move_up() {
        Ok(keeper) => Ok(Service::new(alloc, keeper)),
        Err((_, refusal)) => Err(refusal),
    }
}

/// Both replicas reply alike to all that the rows ask, and as the rows say; they have one position.
fn check_alike<K: Keeper, L: Keeper>(
    rt: &impl Abort,
    alloc: Global,
    (before, after): (&mut Service<K>, &mut Service<L>),
    replies: &[Reply],
) {
    check(rt, alloc, before, replies);
    check(rt, alloc, after, replies);
    same_texts(
        rt,
        &said(alloc, before, Act::Position),
        &said(alloc, after, Act::Position),
    );
}

/// Replica 9 with the writes of elm and oak.
pub(crate) fn with_elm(rt: &impl Abort, alloc: Global) -> Service<ListKeeper> {
    let mut service = new_service::<ListKeeper>(rt, alloc, 9);
    check(rt, alloc, &mut service, &OF_ELM);
    service
}

/// Replica 2 as the script of truncation leaves it.
pub(crate) fn truncated(rt: &impl Abort, alloc: Global) -> Service<ListKeeper> {
    let mut offices = opened::<ListKeeper>(alloc).expect(rt, "offices");
    for (step, want) in &TRUNCATED {
        same_text(rt, &offices.take(*step), want);
    }
    let Offices { second, .. } = offices;
    second
}

/// The replica's tables, as those of the first schema, and the replica.
pub(crate) fn split(
    rt: &impl Abort,
    alloc: Global,
    service: Service<ListKeeper>,
) -> (First, Service<ListKeeper>) {
    let mut keeper = service.into_keeper();
    let tables = first_tables(alloc, &mut keeper).expect(rt, "tables");
    (tables, Service::new(alloc, keeper))
}

/// The replica is told so, and once it is moved up it is told alike, and goes on so.
fn check_moved(
    rt: &impl Abort,
    alloc: Global,
    service: Service<ListKeeper>,
    replies: &[Reply],
    then: &[Reply],
) {
    let (tables, mut before) = split(rt, alloc, service);
    let mut after = raised(alloc, &tables).expect(rt, "a moved replica");
    check_alike::<ListKeeper, SqlKeeper<MemStore>>(rt, alloc, (&mut before, &mut after), replies);
    check::<SqlKeeper<MemStore>>(rt, alloc, &mut after, then);
}

#[test]
fn a_moved_replica_cancels(rt: HostRuntime) {
    let before = truncated(&rt, rt.alloc());
    check_moved(
        &rt,
        rt.alloc(),
        before,
        &SEEN_OF_TRUNCATED,
        &AFTER_TRUNCATED,
    );
}

fn first_connection_of(alloc: Global, tables: &First) -> Result<Connection<MemStore>, Refusal> {
    Ok(FirstKeeper::from_tables(alloc, tables)?.release())
}

/// A connection to tables of the first schema, those of replica 2 with two dropped writes.
fn first_connection(rt: &impl Abort, alloc: Global) -> Connection<MemStore> {
    let (tables, _) = split(rt, alloc, truncated(rt, alloc));
    first_connection_of(alloc, &tables).expect(rt, "a connection")
}

/// The number of the refusal, 0 for none, and the connection.
fn adopt(
    alloc: Global,
    conn: Connection<MemStore>,
    of: ServerId,
    primary: ServerId,
) -> Result<(u32, Connection<MemStore>), Refusal> {
    match SqlKeeper::adopt(alloc, conn, of, primary) {
        Ok(keeper) => Ok((0, keeper.release())),
        Err((refusal, Ok(conn))) => Ok((refusal.number(), conn)),
        Err((refusal, Err(_))) => Err(refusal),
    }
}

/// The same of a call that takes the tables of a replica, whichever it is.
fn resume(
    alloc: Global,
    conn: Connection<MemStore>,
) -> Result<(u32, Connection<MemStore>), Refusal> {
    match SqlKeeper::resume(alloc, conn) {
        Ok(keeper) => Ok((0, keeper.release())),
        Err((refusal, Ok(conn))) => Ok((refusal.number(), conn)),
        Err((refusal, Err(_))) => Err(refusal),
    }
}

/// What is done with a connection.
#[derive(Clone, Copy)]
pub(crate) enum Trial {
    /// The replica of this server and primary is adopted; the number of its refusal, 0 for none.
    Adopt(u32, u32, u32),
    /// It is resumed; the number of its refusal, 0 for none.
    Resume(u32),
    /// A row is changed.
    Execute(&'static str),
    /// The number of the schema, and how many tables there are.
    Schema(u32, u32),
}

/// Adopts replica so, and answers whether it is refused so.
fn adopted(
    alloc: Global,
    conn: Connection<MemStore>,
    (of, primary): (ServerId, ServerId),
    number: u32,
) -> Result<(bool, Connection<MemStore>), Refusal> {
    let (refusal, conn) = adopt(alloc, conn, of, primary)?;
    Ok((refusal == number, conn))
}

fn resumed(
    alloc: Global,
    conn: Connection<MemStore>,
    number: u32,
) -> Result<(bool, Connection<MemStore>), Refusal> {
    let (refusal, conn) = resume(alloc, conn)?;
    Ok((refusal == number, conn))
}

/// Does what the trial says; whether it comes to what the trial says, and the connection.
fn tried(
    rt: &impl Abort,
    alloc: Global,
    conn: Connection<MemStore>,
    trial: Trial,
) -> Result<(bool, Connection<MemStore>), Refusal> {
    match trial {
        Trial::Adopt(of, primary, number) => {
            let of = server(of).expect(rt, "a server");
            let primary = server(primary).expect(rt, "a server");
            adopted(alloc, conn, (of, primary), number)
        }
        Trial::Resume(number) => resumed(alloc, conn, number),
        Trial::Execute(statement) => {
            let mut conn = conn;
            let is_done = conn.execute(statement, &[]).is_ok();
            Ok((is_done, conn))
        }
        Trial::Schema(number, tables) => {
            let mut conn = conn;
            let is_so = schema(&mut conn) == Some((number, tables));
            Ok((is_so, conn))
        }
    }
}

/// Each of the trials comes to what it says, on this connection, which is left.
pub(crate) fn check_each(
    rt: &impl Abort,
    alloc: Global,
    conn: Connection<MemStore>,
    trials: &[Trial],
) -> Connection<MemStore> {
    let mut conn = conn;
    for (index, trial) in trials.iter().enumerate() {
        let (is_so, left) = tried(rt, alloc, conn, *trial).expect(rt, "a connection");
        same_count(rt, is_so as u64, 1, index);
        conn = left;
    }
    conn
}

/// The same on tables of the first schema.
fn check_trials(rt: &impl Abort, alloc: Global, trials: &[Trial]) {
    check_each(rt, alloc, first_connection(rt, alloc), trials);
}

static OF_OTHERS: [Trial; 5] = [
    Trial::Adopt(2, 3, 26),
    Trial::Adopt(1, 1, 26),
    Trial::Schema(1, 7),
    Trial::Adopt(2, 1, 0),
    Trial::Schema(2, 10),
];

#[test]
fn others_find_the_first_tables_as_they_were(rt: HostRuntime) {
    check_trials(&rt, rt.alloc(), &OF_OTHERS);
}

static RESUMED: [Trial; 6] = [
    Trial::Execute("UPDATE meta SET schema = 2"),
    Trial::Resume(26),
    Trial::Schema(2, 7),
    Trial::Execute("UPDATE meta SET schema = 1"),
    Trial::Resume(0),
    Trial::Schema(2, 10),
];

#[test]
fn first_tables_are_resumed_whosever_they_are(rt: HostRuntime) {
    check_trials(&rt, rt.alloc(), &RESUMED);
}

/// The number of the refusal of these tables, 0 for none.
fn refusal_of(alloc: Global, tables: &First) -> u32 {
    match raised(alloc, tables) {
        Ok(_) => 0,
        Err(refusal) => refusal.number(),
    }
}

/// The refusals of whole tables, of tables with a write without a place, and of tables with a key that is there twice.
fn refusals(alloc: Global, tables: &mut First) -> Option<(u32, u32, u32)> {
    let whole = refusal_of(alloc, tables);
    let place = tables.undo.pop()?;
    let without_place = refusal_of(alloc, tables);
    tables.undo.push(place).ok()?;
    tables.undo.push(place).ok()?;
    Some((whole, without_place, refusal_of(alloc, tables)))
}

#[test]
fn broken_first_tables_are_refused(rt: HostRuntime) {
    let (mut tables, _) = split(&rt, rt.alloc(), with_elm(&rt, rt.alloc()));
    assert!(rt; refusals(rt.alloc(), &mut tables) == Some((0, 25, 25)));
}
