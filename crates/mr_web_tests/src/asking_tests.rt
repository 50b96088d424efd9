// What a peer's replies are taken for, where the program prints one line for several faults; rounds for programs of others; and readers and writers that fail.
// The memory is ample. What a test compares is made by functions without clauses, so that its proof carries no state of a replica. Of sockets the
// program is asked this (tests/hostile/peers.py).

use crate::connections::{Drip, check_front, writer_of};
use crate::same::{same, same_bytes};
use mr_base::{Ending, Position, Refusal, ServerId};
use mr_http::WebFault;
use mr_peer::{position_take, pull, pull_ask, pull_take, push, push_take};
use mr_service::{Command, Service};
use mr_store::ListKeeper;
use std::alloc::Global;
use std::process::Abort;

// The reply of a peer that hands over a batch of two writes.
const WHOLE: &[u8] =
    b"HTTP/1.1 200 OK\r\nContent-Length: 106\r\n\r\nmr2 1 1\nW 1 1 1 oak 60 1995-12-18 14:00 0 Alpha\nW 2 1 1 oak 60 1995-12-18 13:30 1 1995-12-18 15:00 Beta\nE\n";

fn server(rt: &impl Abort, number: u32) -> ServerId {
    ServerId::new(number).expect(rt, "a server")
}

// A replica that knows nothing yet, with primary 1.
pub(crate) fn service(rt: &impl Abort, alloc: Global, number: u32) -> Service<ListKeeper> {
    let keeper = ListKeeper::new(alloc, server(rt, number), server(rt, 1));
    Service::new(alloc, keeper)
}

// Gives the replica this command.
pub(crate) fn give(service: &mut Service<ListKeeper>, command: Command) {
    service.ask(&command);
}

fn took_position(alloc: Global, reply: &[u8]) -> Result<Position, WebFault> {
    let mut reader = reply;
    position_take(alloc, &mut reader)
}

fn position_fault(alloc: Global, reply: &[u8]) -> Option<WebFault> {
    took_position(alloc, reply).err()
}

fn took_counts(alloc: Global, reply: &[u8]) -> Result<(u64, u64), WebFault> {
    let mut reader = reply;
    push_take(alloc, &mut reader)
}

// The request of this replica's pull.
fn pull_request(alloc: Global, service: &mut Service<ListKeeper>) -> Result<Vec<u8>, WebFault> {
    let mut writer = Vec::new(alloc);
    pull_ask(alloc, service, "a", &mut writer)?;
    Ok(writer)
}

// The pull of a replica that knows nothing.
const FIRST_PULL: &[u8] =
    b"POST /pull HTTP/1.1\r\nHost: a\r\nContent-Length: 14\r\nConnection: close\r\n\r\nmp2 9 1\nK 0\nE\n";

// What a replica that knows nothing pulls of the whole batch.
fn pulled_whole(
    rt: &impl Abort,
    alloc: Global,
    service: &mut Service<ListKeeper>,
) -> Result<(u64, u64, Ending), WebFault> {
    let mut reader = WHOLE;
    let mut writer = Vec::new(alloc);
    let pulled = pull(alloc, service, "a", &mut reader, &mut writer);
    same(rt, &writer.as_slice(), &FIRST_PULL, "what is sent");
    pulled
}

// What a peer tells as its position, and what is pushed to it.
static PUSHES: [(&[u8], &[u8]); 2] = [
    (
        b"HTTP/1.1 200 OK\r\nContent-Length: 20\r\n\r\nmp2 1 1\nK 0\nV 1 1\nE\n",
        b"POST /push HTTP/1.1\r\nHost: a\r\nContent-Length: 66\r\nConnection: close\r\n\r\nmr2 9 1\nW 2 1 1 oak 60 1995-12-18 13:30 1 1995-12-18 15:00 Beta\nE\n",
    ),
    (
        b"HTTP/1.1 200 OK\r\nContent-Length: 20\r\n\r\nmp1 1 1\nK 0\nV 1 1\nE\n",
        b"POST /push HTTP/1.1\r\nHost: a\r\nContent-Length: 66\r\nConnection: close\r\n\r\nmr1 9 1\nW 2 1 1 oak 60 1995-12-18 13:30 1 1995-12-18 15:00 Beta\nE\n",
    ),
];

// A replica pulls the batch, and pushes on what a peer lacks, under its own name and in the version of the peer's position.
#[test]
fn pulls_and_pushes(rt: HostRuntime) {
    let alloc = rt.alloc();
    let mut service = service(&rt, alloc, 9);
    let pulled = pulled_whole(&rt, alloc, &mut service);
    same(&rt, &pulled, &Ok((2, 0, Ending::Complete)), "the pull");
    for (told, pushed) in &PUSHES {
        check_pushed(&rt, alloc, &mut service, told, pushed);
    }
}

// Pushes to a peer that tells this position, and that has taken one write then.
fn pushed(
    alloc: Global,
    service: &mut Service<ListKeeper>,
    told: &[u8],
    writer: &mut Vec<u8>,
) -> Result<(u64, u64, Ending), WebFault> {
    let position = took_position(alloc, told)?;
    let mut reader = &b"HTTP/1.1 200 OK\r\nContent-Length: 24\r\n\r\ntook 1 writes 0 commits\n"[..];
    push(alloc, service, &position, "a", &mut reader, writer)
}

// To a peer that tells this position the replica pushes this.
fn check_pushed(
    rt: &impl Abort,
    alloc: Global,
    service: &mut Service<ListKeeper>,
    told: &[u8],
    want: &[u8],
) {
    let mut writer = Vec::new(alloc);
    let took = pushed(alloc, service, told, &mut writer);
    same(rt, &took, &Ok((1, 0, Ending::Complete)), "the counts");
    same(rt, &writer.as_slice(), &want, "the request");
}

static POSITIONS: [(&[u8], WebFault); 6] = [
    (
        b"HTTP/1.1 200 OK\r\nContent-Length: 22\r\n\r\nmp1 1 1\nK 0\nV 1 1\nE\n..",
        WebFault::BadReply,
    ),
    (
        b"HTTP/1.1 200 OK\r\nContent-Length: 20\r\n\r\nmp2 1 1\nK 0\nV 1 1\nE",
        WebFault::BadReply,
    ),
    (
        b"HTTP/1.1 200 OK\r\nTransfer-Encoding: chunked\r\nContent-Length: 14\r\n\r\nmp2 2 1\nK 0\nE\n",
        WebFault::BadReply,
    ),
    (
        b"HTTP/1.0 200 OK\r\nContent-Length: 14\r\n\r\nmp1 2 1\nK 0\nE\n",
        WebFault::BadReply,
    ),
    (
        b"HTTP/1.1 200 OK\r\nContent-Length: 14\r\n\r\nmp3 2 1\nK 0\nE\n",
        WebFault::BadReply,
    ),
    (
        b"HTTP/1.1 404 Not Found\r\nContent-Length: 14\r\n\r\nmp1 2 1\nK 0\nE\n",
        WebFault::Peer(404),
    ),
];

#[test]
fn positions_told(rt: HostRuntime) {
    for (reply, fault) in &POSITIONS {
        same(
            &rt,
            &position_fault(rt.alloc(), reply),
            &Some(*fault),
            reply,
        );
    }
}

fn pulled(rt: &impl Abort, alloc: Global, reply: &[u8]) -> Result<(u64, u64, Ending), WebFault> {
    let mut service = service(rt, alloc, 9);
    let mut reader = reply;
    pull_take(alloc, &mut service, &mut reader)
}

// What a replica that knows nothing takes of replies to its pull: a batch of which one line came whole, and none.
static PULLS: [(&[u8], Result<(u64, u64, Ending), WebFault>); 8] = [
    (
        b"HTTP/1.1 200 OK\r\nContent-Length: 106\r\n\r\nmr2 1 1\nW 1 1 1 oak 60 1995-12-18 14:00 0 Alpha\nW 2 1",
        Ok((1, 0, Ending::Cut)),
    ),
    (b"", Err(WebFault::BadReply)),
    (
        b"HTTP/1.1 200 OK\r\n\r\nmr1 1 1\nE\n",
        Err(WebFault::BadReply),
    ),
    (
        b"HTTP/1.1 200 OK\r\nContent-Length: 1048577\r\n\r\n",
        Err(WebFault::BadReply),
    ),
    (
        b"HTTP/1.1 409 Conflict\r\nContent-Length: 2\r\n\r\n{}",
        Err(WebFault::Peer(409)),
    ),
    (
        b"HTTP/1.1 409 Conflict\r\nContent-Length: 3\r\n\r\n{}",
        Err(WebFault::BadReply),
    ),
    (
        b"HTTP/1.1 200 OK\r\nContent-Length: 5\r\n\r\nmr1 \n",
        Err(WebFault::Own(Refusal::BadLine(1))),
    ),
    (
        b"HTTP/1.1 200 OK\r\nContent-Length: 10\r\n\r\nmr1 1 3\nE\n",
        Err(WebFault::Own(Refusal::WrongPrimary)),
    ),
];

#[test]
fn pulls_told(rt: HostRuntime) {
    for (reply, told) in &PULLS {
        same(&rt, &pulled(&rt, rt.alloc(), reply), told, reply);
    }
}

static COUNTS: [(&[u8], Result<(u64, u64), WebFault>); 7] = [
    (
        b"HTTP/1.1 200 OK\r\nContent-Length: 24\r\n\r\ntook 64 writes 0 commits\n",
        Err(WebFault::BadReply),
    ),
    (
        b"HTTP/1.1 200 OK\r\nContent-Length: 25\r\n\r\ntook 64 writes 0 commits\n",
        Ok((64u64, 0u64)),
    ),
    (
        b"HTTP/1.1 200 OK\r\nContent-Length: 26\r\n\r\ntook 64 writes 0 commits\n",
        Err(WebFault::BadReply),
    ),
    (
        b"HTTP/1.1 200 OK\r\nContent-Length: 25\r\n\r\ntook 064 writes 0 commit\n",
        Err(WebFault::BadReply),
    ),
    (
        b"HTTP/1.1 200 OK\r\nContent-Length: 43\r\n\r\ntook 18446744073709551615 writes 1 commits\n",
        Ok((u64::MAX, 1)),
    ),
    (
        b"HTTP/1.1 200 OK\r\nContent-Length: 43\r\n\r\ntook 18446744073709551616 writes 1 commits\n",
        Err(WebFault::BadReply),
    ),
    (
        b"HTTP/1.1 503 Service Unavailable\r\nContent-Length: 0\r\n\r\n",
        Err(WebFault::Peer(503)),
    ),
];

#[test]
fn counts_told(rt: HostRuntime) {
    for (reply, told) in &COUNTS {
        same(&rt, &took_counts(rt.alloc(), reply), told, reply);
    }
}

// What is taken of a reply that comes a byte a read, so many times.
fn dripped(
    alloc: Global,
    service: &mut Service<ListKeeper>,
    bytes: &[u8],
    left: usize,
) -> Result<(u64, u64, Ending), WebFault> {
    let mut reader = Drip { bytes, left };
    pull_take(alloc, service, &mut reader)
}

// Nothing is taken of a reply that isn't read whole.
fn check_cut(rt: &impl Abort, alloc: Global, reply: &[u8], left: usize) {
    let mut service = service(rt, alloc, 9);
    let taken = dripped(alloc, &mut service, reply, left);
    same(rt, &taken, &Err(WebFault::Read), left);
    let request = pull_request(alloc, &mut service);
    same_bytes(rt, &request, FIRST_PULL);
}

fn check_each_cut(rt: &impl Abort, alloc: Global, reply: &[u8]) {
    for left in 0..reply.len() {
        check_cut(rt, alloc, reply, left);
    }
}

fn check_whole(rt: &impl Abort, alloc: Global, reply: &[u8]) {
    let mut service = service(rt, alloc, 9);
    let taken = dripped(alloc, &mut service, reply, reply.len());
    same(rt, &taken, &Ok((2, 0, Ending::Complete)), "all");
}

// One byte a read is enough, and a read that fails leaves the replica as it was.
#[test]
fn drips(rt: HostRuntime) {
    check_each_cut(&rt, rt.alloc(), WHOLE);
    check_whole(&rt, rt.alloc(), WHOLE);
}

fn check_narrow(
    rt: &impl Abort,
    alloc: Global,
    service: &mut Service<ListKeeper>,
    whole: &[u8],
    room: usize,
) {
    let mut writer = writer_of(alloc, room);
    let asked = pull_ask(alloc, service, "a", &mut writer);
    check_front(rt, &writer, asked.err(), whole, room);
}

// A write that fails leaves a prefix of the request.
#[test]
fn narrow_writers(rt: HostRuntime) {
    let alloc = rt.alloc();
    let mut service = service(&rt, alloc, 9);
    let whole = pull_request(alloc, &mut service).expect(&rt, "a request");
    for room in 0..whole.len() {
        check_narrow(&rt, alloc, &mut service, whole.as_slice(), room);
    }
}
