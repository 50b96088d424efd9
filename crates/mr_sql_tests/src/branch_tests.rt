// Rounds between two offices over HTTP, on lines that break off and over keepers that fail, and calls at one of several offices. What is
// wanted is worked by hand. The memory is ample.

use crate::acts::{Act, command, said};
use crate::opening::{Opening, new_service};
use crate::same_text::{holds, same_count, same_text};
use mr_base::{Ending, Position, Refusal};
use mr_branches::offices::{ask_at, reopen_at};
use mr_branches::pulling::{pull_between, push_between};
use mr_http::WebFault;
use mr_service::{Command, Local, Reply, Service, reply_text};
use mr_sql::SqlKeeper;
use mr_store::{Fault, Keeper, ListKeeper, Tripped};
use sqlite::MemStore;
use std::alloc::Global;
use std::process::Abort;

/// The writes and commits that were new, and how the batch ended; or what went wrong.
type Round = Result<(u64, u64, Ending), WebFault>;

/// A line that breaks off behind so many bytes of the request, and so many of the response.
#[derive(Clone, Copy)]
struct Line {
    sent: usize,
    told: usize,
}

const WHOLE: Line = Line {
    sent: usize::MAX,
    told: usize::MAX,
};

const ALL: Round = Ok((1, 0, Ending::Complete));

fn pulled<C: Keeper, S: Keeper>(
    alloc: Global,
    client: &mut Service<C>,
    server: &mut Service<S>,
    line: Line,
) -> Round {
    pull_between(alloc, client, server, "a", line.sent, line.told)
}

/// The position of the replica.
fn position<K: Keeper>(service: &mut Service<K>) -> Option<Position> {
    match service.ask(&Command::Local(Local::Position)) {
        Reply::Position(position) => Some(position),
        _ => None,
    }
}

/// What comes of a push to the server for the position that it has.
fn pushed<C: Keeper, S: Keeper>(
    alloc: Global,
    client: &mut Service<C>,
    server: &mut Service<S>,
    at: &Position,
    line: Line,
) -> Round {
    push_between(alloc, client, server, at, "a", line.sent, line.told)
}

fn same_round(rt: &impl Abort, found: Round, wanted: Round) {
    assert_eq!(rt; found, wanted);
}

fn booked<K: Keeper>(alloc: Global, service: &mut Service<K>) -> Result<Vec<u8>, Refusal> {
    said(alloc, service, Act::Room("oak"))?;
    said(alloc, service, Act::Book("60", "14:00", &[], "Alpha"))
}

/// An office with one booking.
fn with_booking<K: Opening + Drop>(rt: &impl Abort, alloc: Global, server: u32) -> Service<K> {
    let mut service = new_service::<K>(rt, alloc, server);
    let is_booked = booked(alloc, &mut service).is_ok();
    holds(rt, is_booked, "a booking");
    service
}

const OF_FIRST: &str = "oak 1995-12-18 Monday\n14:00-15:00 T 1-1 Alpha\n";

const OF_SECOND: &str = "oak 1995-12-18 Monday\n14:00-15:00 T 2-1 Alpha\n";

// A request that is cut is answered 400. The head of the response has 84 bytes, the first line of the batch 8, the booking's 40, and the last one 2.

/// Where the line of a pull breaks off, what that comes to, and how many writes another pull brings then.
static PULLS: [(Line, Round, u64); 8] = [
    (Line { sent: 0, told: 999 }, Err(WebFault::Peer(400)), 1),
    (
        Line {
            sent: 40,
            told: 999,
        },
        Err(WebFault::Peer(400)),
        1,
    ),
    (Line { sent: 999, told: 0 }, Err(WebFault::BadReply), 1),
    (
        Line {
            sent: 999,
            told: 83,
        },
        Err(WebFault::BadReply),
        1,
    ),
    (
        Line {
            sent: 999,
            told: 84,
        },
        Ok((0, 0, Ending::Cut)),
        1,
    ),
    (
        Line {
            sent: 999,
            told: 131,
        },
        Ok((0, 0, Ending::Cut)),
        1,
    ),
    (
        Line {
            sent: 999,
            told: 132,
        },
        Ok((1, 0, Ending::Cut)),
        0,
    ),
    (
        Line {
            sent: 999,
            told: 134,
        },
        ALL,
        0,
    ),
];

fn check_pulls<K: Opening + Drop>(rt: &impl Abort, alloc: Global) {
    for (line, want, left) in &PULLS {
        let mut server = with_booking::<K>(rt, alloc, 1);
        let mut client = new_service::<K>(rt, alloc, 2);
        same_round(rt, pulled(alloc, &mut client, &mut server, *line), *want);
        let rest = pulled(alloc, &mut client, &mut server, WHOLE);
        same_round(rt, rest, Ok((*left, 0, Ending::Complete)));
        same_text(rt, &said(alloc, &mut client, Act::Sheet), OF_FIRST);
    }
}

#[test]
fn lines_of_a_pull_break_off(rt: HostRuntime) {
    check_pulls::<ListKeeper>(&rt, rt.alloc());
    check_pulls::<SqlKeeper<MemStore>>(&rt, rt.alloc());
}

/// The same of a push, whose response has the text `took 1 writes 0 commits`: nothing is handed over, or all is.
static PUSHES: [(Line, Round, u64); 5] = [
    (Line { sent: 0, told: 999 }, Err(WebFault::Peer(400)), 1),
    (
        Line {
            sent: 60,
            told: 999,
        },
        Err(WebFault::Peer(400)),
        1,
    ),
    (Line { sent: 999, told: 0 }, Err(WebFault::BadReply), 0),
    (
        Line {
            sent: 999,
            told: 90,
        },
        Err(WebFault::BadReply),
        0,
    ),
    (WHOLE, ALL, 0),
];

fn check_push<K: Opening + Drop>(
    rt: &impl Abort,
    alloc: Global,
    at: &Position,
    (line, want, left): (Line, Round, u64),
) {
    let mut server = new_service::<K>(rt, alloc, 1);
    let mut client = with_booking::<K>(rt, alloc, 2);
    same_round(rt, pushed(alloc, &mut client, &mut server, at, line), want);
    let rest = pushed(alloc, &mut client, &mut server, at, WHOLE);
    same_round(rt, rest, Ok((left, 0, Ending::Complete)));
    same_text(rt, &said(alloc, &mut server, Act::Sheet), OF_SECOND);
}

fn check_pushes<K: Opening + Drop>(rt: &impl Abort, alloc: Global) {
    let at = position(&mut new_service::<K>(rt, alloc, 1)).expect(rt, "a position");
    for case in &PUSHES {
        check_push::<K>(rt, alloc, &at, *case);
    }
}

#[test]
fn lines_of_a_push_break_off(rt: HostRuntime) {
    check_pushes::<ListKeeper>(&rt, rt.alloc());
    check_pushes::<SqlKeeper<MemStore>>(&rt, rt.alloc());
}

// ---- with the primary

/// The earlier meeting of a third office, as that hands it out.
const BETA: &str = "mr2 3 1\nW 3 1 1 oak 60 1995-12-18 13:30 0 Beta\nE\n";

/// The primary, which has committed it.
fn primary(alloc: Global) -> Result<Service<ListKeeper>, Refusal> {
    let mut primary = Service::new(alloc, ListKeeper::open(alloc, 1)?);
    said(alloc, &mut primary, Act::Batch(BETA))?;
    said(alloc, &mut primary, Act::Commit(1))?;
    Ok(primary)
}

/// What the replica takes of a pull from the primary, as the text of a reply.
pub(crate) fn pulled_text<K: Keeper>(
    alloc: Global,
    client: &mut Service<K>,
) -> Result<Vec<u8>, Refusal> {
    let mut primary = primary(alloc)?;
    match pulled(alloc, client, &mut primary, WHOLE) {
        Ok((writes, commits, _)) => reply_text(alloc, &Reply::Took { writes, commits }),
        Err(WebFault::Own(refusal)) => reply_text(alloc, &Reply::Refused(refusal)),
        Err(_) => Err(Refusal::OutOfMemory),
    }
}

// ---- keepers that fail

/// More calls than a round has.
const MANY: u64 = 20;

/// After how many calls the client's keeper fails, and the server's, and how.
#[derive(Clone, Copy)]
struct Trips {
    client: u64,
    server: u64,
    fault: Fault,
}

/// Whether the pull failed. Then another one, of keepers that don't fail again, brings all.
fn pull_fails<K: Opening + Drop>(rt: &impl Abort, alloc: Global, trips: Trips) -> bool {
    let keeper = with_booking::<K>(rt, alloc, 1).into_keeper();
    let mut server = Service::new(alloc, Tripped::new(keeper, trips.server, trips.fault));
    let keeper = new_service::<K>(rt, alloc, 2).into_keeper();
    let mut client = Service::new(alloc, Tripped::new(keeper, trips.client, trips.fault));
    if pulled(alloc, &mut client, &mut server, WHOLE) == ALL {
        return false;
    }
    same_round(rt, pulled(alloc, &mut client, &mut server, WHOLE), ALL);
    same_text(rt, &said(alloc, &mut client, Act::Sheet), OF_FIRST);
    true
}

/// How many calls a pull makes of the client's keeper, each of which fails in turn.
fn calls_of_client<K: Opening + Drop>(rt: &impl Abort, alloc: Global, fault: Fault) -> u64 {
    for client in 0..MANY {
        let trips = Trips {
            client,
            server: u64::MAX,
            fault,
        };
        if !pull_fails::<K>(rt, alloc, trips) {
            return client;
        }
    }
    MANY
}

fn calls_of_server<K: Opening + Drop>(rt: &impl Abort, alloc: Global, fault: Fault) -> u64 {
    for server in 0..MANY {
        let trips = Trips {
            client: u64::MAX,
            server,
            fault,
        };
        if !pull_fails::<K>(rt, alloc, trips) {
            return server;
        }
    }
    MANY
}

/// The client's position takes one call of its keeper, what it receives two; the server's batch one.
fn check_calls<K: Opening + Drop>(rt: &impl Abort, alloc: Global, fault: Fault) {
    same_count(rt, calls_of_client::<K>(rt, alloc, fault), 3, 1);
    same_count(rt, calls_of_server::<K>(rt, alloc, fault), 1, 2);
}

#[test]
fn calls_fail_in_a_pull(rt: HostRuntime) {
    check_calls::<ListKeeper>(&rt, rt.alloc(), Fault::OutOfMemory);
    check_calls::<ListKeeper>(&rt, rt.alloc(), Fault::Store);
    check_calls::<SqlKeeper<MemStore>>(&rt, rt.alloc(), Fault::Store);
}

// ---- several offices

fn said_at<K: Keeper>(
    alloc: Global,
    offices: &mut Vec<Service<K>>,
    place: usize,
    act: Act,
) -> Result<Vec<u8>, Refusal> {
    let command = command(alloc, act)?;
    if place >= offices.len() {
        return Err(Refusal::NotAReplica);
    }
    reply_text(alloc, &ask_at(offices, place, &command))
}

fn reopened<K: Keeper + Drop>(
    offices: &mut Vec<Service<K>>,
    place: usize,
    service: Service<K>,
) -> Option<Service<K>> {
    if place >= offices.len() {
        return None;
    }
    Some(reopen_at(offices, place, service))
}

fn offices<K: Opening + Drop>(rt: &impl Abort, alloc: Global) -> Vec<Service<K>> {
    let mut offices = Vec::new(alloc);
    let first = new_service::<K>(rt, alloc, 1);
    offices.push(first).expect(rt, "memory");
    let second = with_booking::<K>(rt, alloc, 2);
    offices.push(second).expect(rt, "memory");
    offices
}

fn check_offices<K: Opening + Drop>(rt: &impl Abort, alloc: Global) {
    let mut offices = offices::<K>(rt, alloc);
    let outcome = Act::Outcome("2-1");
    let told = said_at(alloc, &mut offices, 1, outcome);
    same_text(rt, &told, "2-1 T 1995-12-18 14:00-15:00\n");
    let fresh = new_service::<K>(rt, alloc, 2);
    let mut shut = reopened(&mut offices, 1, fresh).expect(rt, "an office");
    let told = said(alloc, &mut shut, outcome);
    same_text(rt, &told, "2-1 T 1995-12-18 14:00-15:00\n");
    let told = said_at(alloc, &mut offices, 1, outcome);
    same_text(rt, &told, "refused 7 UnknownRoom\n");
}

#[test]
fn offices_are_asked_in_their_places(rt: HostRuntime) {
    check_offices::<ListKeeper>(&rt, rt.alloc());
    check_offices::<SqlKeeper<MemStore>>(&rt, rt.alloc());
}
