// Requests and their replies, to the byte, over lists that load no desk, over a keeper that fails, and with readers and writers that do. The memory is ample. The
// program is asked these and others (tests/http).

use crate::asking_tests::{give, service};
use crate::connections::{Drip, check_front, writer_of};
use crate::same::same;
use crate::without_desk::WithoutDesk;
use mr_http::WebFault;
use mr_service::{Command, Local, Service};
use mr_store::{Fault, Keeper, ListKeeper, Tripped};
use mr_web::serve_one;
use std::alloc::Global;
use std::fmt::Debug;
use std::io::Read;
use std::process::Abort;

// A submission.
pub(crate) static FIRST: [(&str, u16, &str); 1] = [(
    "POST /submit HTTP/1.1\r\nContent-Length: 86\r\n\r\n{\"day\":\"1995-12-18\",\"length\":60,\"room\":\"oak\",\"start\":\"13:30\",\"title\":\"Budget Meeting\"}",
    200,
    "HTTP/1.1 200 OK\r\nContent-Type: application/json\r\nContent-Length: 90\r\nConnection: close\r\n\r\n{\"day\":\"1995-12-18\",\"id\":\"1-1\",\"mark\":\"T\",\"start\":\"13:30\",\"state\":\"booked\",\"stop\":\"14:30\"}",
)];

// Its sheet.
pub(crate) static SHEET: [(&str, u16, &str); 1] = [(
    "GET /rooms/oak/days/1995-12-18 HTTP/1.1\r\n\r\n",
    200,
    "HTTP/1.1 200 OK\r\nContent-Type: text/plain\r\nContent-Length: 55\r\nConnection: close\r\n\r\noak 1995-12-18 Monday\n13:30-14:30 T 1-1 Budget Meeting\n",
)];

// The other routes, once each.
static ROUTES: [(&str, u16, &str); 8] = [
    (
        "POST /push HTTP/1.1\r\nContent-Length: 66\r\n\r\nmr1 2 1\nW 2 1 1 oak 60 1995-12-18 13:30 1 1995-12-18 15:00 Beta\nE\n",
        200,
        "HTTP/1.1 200 OK\r\nContent-Type: text/plain\r\nContent-Length: 24\r\nConnection: close\r\n\r\ntook 1 writes 0 commits\n",
    ),
    (
        "GET /rooms/oak/days/1995-12-18 HTTP/1.1\r\n\r\n",
        200,
        "HTTP/1.1 200 OK\r\nContent-Type: text/plain\r\nContent-Length: 78\r\nConnection: close\r\n\r\noak 1995-12-18 Monday\n13:30-14:30 T 1-1 Budget Meeting\n15:00-16:00 T 2-1 Beta\n",
    ),
    (
        "GET /rooms/oak/requests/1-1 HTTP/1.1\r\n\r\n",
        200,
        "HTTP/1.1 200 OK\r\nContent-Type: application/json\r\nContent-Length: 90\r\nConnection: close\r\n\r\n{\"day\":\"1995-12-18\",\"id\":\"1-1\",\"mark\":\"T\",\"start\":\"13:30\",\"state\":\"booked\",\"stop\":\"14:30\"}",
    ),
    (
        "GET /rooms/oak/errors HTTP/1.1\r\n\r\n",
        200,
        "HTTP/1.1 200 OK\r\nContent-Type: text/plain\r\nContent-Length: 23\r\nConnection: close\r\n\r\noak errors\n(no errors)\n",
    ),
    (
        "GET /position HTTP/1.1\r\n\r\n",
        200,
        "HTTP/1.1 200 OK\r\nContent-Type: text/plain\r\nContent-Length: 26\r\nConnection: close\r\n\r\nmp2 1 1\nK 0\nV 1 1\nV 2 1\nE\n",
    ),
    (
        "POST /pull HTTP/1.1\r\nContent-Length: 14\r\n\r\nmp1 9 1\nK 0\nE\n",
        200,
        "HTTP/1.1 200 OK\r\nContent-Type: text/plain\r\nContent-Length: 115\r\nConnection: close\r\n\r\nmr1 1 1\nW 1 1 1 oak 60 1995-12-18 13:30 0 Budget Meeting\nW 2 1 1 oak 60 1995-12-18 13:30 1 1995-12-18 15:00 Beta\nE\n",
    ),
    (
        "POST /pull HTTP/1.1\r\nContent-Length: 14\r\n\r\nmp2 9 1\nK 0\nE\n",
        200,
        "HTTP/1.1 200 OK\r\nContent-Type: text/plain\r\nContent-Length: 115\r\nConnection: close\r\n\r\nmr2 1 1\nW 1 1 1 oak 60 1995-12-18 13:30 0 Budget Meeting\nW 2 1 1 oak 60 1995-12-18 13:30 1 1995-12-18 15:00 Beta\nE\n",
    ),
    (
        "POST /cancel HTTP/1.1\r\nContent-Length: 25\r\n\r\n{\"id\":\"1-1\",\"room\":\"oak\"}",
        200,
        "HTTP/1.1 200 OK\r\nContent-Type: application/json\r\nContent-Length: 56\r\nConnection: close\r\n\r\n{\"id\":\"1-2\",\"mark\":\"T\",\"state\":\"cancels\",\"target\":\"1-1\"}",
    ),
];

// The primary, which knows the room oak.
fn opening(rt: &impl Abort, alloc: Global) -> Service<ListKeeper> {
    let mut service = service(rt, alloc, 1);
    let room = String::from_str(alloc, "oak").expect(rt, "memory");
    give(&mut service, Command::Local(Local::AddRoom(room)));
    service
}

// What is read there is answered so, by these bytes.
fn check_served<K: Keeper, R: Read, A: Copy + Debug>(
    rt: &impl Abort,
    alloc: Global,
    service: &mut Service<K>,
    reader: &mut R,
    (answer, reply, at): (Result<u16, WebFault>, &str, A),
) {
    let mut writer = Vec::new(alloc);
    let answered = serve_one(alloc, reader, &mut writer, service);
    same(rt, &writer.as_slice(), &reply.as_bytes(), at);
    same(rt, &answered, &answer, at);
}

// The request is answered by this status and these bytes.
fn check<K: Keeper>(
    rt: &impl Abort,
    alloc: Global,
    service: &mut Service<K>,
    (request, status, reply): (&str, u16, &str),
) {
    let mut reader = request.as_bytes();
    let wanted = (Ok(status), reply, request);
    check_served(rt, alloc, service, &mut reader, wanted);
}

fn check_all<K: Keeper>(
    rt: &impl Abort,
    alloc: Global,
    service: &mut Service<K>,
    rows: &[(&str, u16, &str)],
) {
    for row in rows {
        check(rt, alloc, service, *row);
    }
}

// The service answers one list after the other.
fn check_lists<K: Keeper + Drop>(
    rt: &impl Abort,
    alloc: Global,
    mut service: Service<K>,
    lists: &[&[(&str, u16, &str)]],
) {
    for rows in lists {
        check_all(rt, alloc, &mut service, rows);
    }
}

// No request needs a whole desk.
#[test]
fn serves_each_route_without_a_desk(rt: HostRuntime) {
    let keeper = WithoutDesk::new(opening(&rt, rt.alloc()).into_keeper());
    let service = Service::new(rt.alloc(), keeper);
    check_lists(&rt, rt.alloc(), service, &[&FIRST, &SHEET, &ROUTES]);
}

const NO_MEMORY: &str =
    "HTTP/1.1 503 Service Unavailable\r\nContent-Type: application/json\r\nContent-Length: 35\r\nConnection: close\r\n\r\n{\"name\":\"OutOfMemory\",\"refusal\":24}";

const STORE_FAILED: &str =
    "HTTP/1.1 503 Service Unavailable\r\nContent-Type: application/json\r\nContent-Length: 29\r\nConnection: close\r\n\r\n{\"name\":\"Store\",\"refusal\":25}";

// A submission whose keeper fails after so many calls is answered 503, and once more it is the first one.
fn check_tripped(rt: &impl Abort, alloc: Global, left: u64, fault: Fault, reply: &str) {
    let keeper = opening(rt, alloc).into_keeper();
    let mut service = Service::new(alloc, Tripped::new(keeper, left, fault));
    check(rt, alloc, &mut service, (FIRST[0].0, 503, reply));
    check(rt, alloc, &mut service, FIRST[0]);
}

#[test]
fn keepers_fail(rt: HostRuntime) {
    for left in 0..2u64 {
        check_tripped(&rt, rt.alloc(), left, Fault::OutOfMemory, NO_MEMORY);
        check_tripped(&rt, rt.alloc(), left, Fault::Store, STORE_FAILED);
    }
}

// The sheet, which has the one booking or none.
fn check_sheet(rt: &impl Abort, alloc: Global, service: &mut Service<ListKeeper>, is_booked: bool) {
    let (request, status, booked) = SHEET[0];
    let reply = if is_booked { booked } else { NO_BOOKINGS };
    check(rt, alloc, service, (request, status, reply));
}

const NO_BOOKINGS: &str =
    "HTTP/1.1 200 OK\r\nContent-Type: text/plain\r\nContent-Length: 36\r\nConnection: close\r\n\r\noak 1995-12-18 Monday\n(no bookings)\n";

// With so many reads of one byte each a submission is served, or the fault is reported and nothing is booked.
fn check_drip(rt: &impl Abort, alloc: Global, left: usize) {
    let (request, status, reply) = FIRST[0];
    let bytes = request.as_bytes();
    let is_whole = left >= bytes.len();
    let wanted = if is_whole {
        (Ok(status), reply, left)
    } else {
        (Err(WebFault::Read), "", left)
    };
    let mut service = opening(rt, alloc);
    check_served(rt, alloc, &mut service, &mut Drip { bytes, left }, wanted);
    check_sheet(rt, alloc, &mut service, is_whole);
}

#[test]
fn reads_byte_by_byte(rt: HostRuntime) {
    for left in 0..FIRST[0].0.len() + 2 {
        check_drip(&rt, rt.alloc(), left);
    }
}

// A writer that fails after so many bytes has that prefix of the reply.
fn check_written(rt: &impl Abort, alloc: Global, service: &mut Service<ListKeeper>, room: usize) {
    let (request, _, reply) = FIRST[0];
    let mut reader = request.as_bytes();
    let mut writer = writer_of(alloc, room);
    let answered = serve_one(alloc, &mut reader, &mut writer, service);
    check_front(rt, &writer, answered.err(), reply.as_bytes(), room);
}

// The booking stands if its reply is cut.
fn check_narrow(rt: &impl Abort, alloc: Global, room: usize) {
    let mut service = opening(rt, alloc);
    check_written(rt, alloc, &mut service, room);
    check_sheet(rt, alloc, &mut service, true);
}

#[test]
fn writes_fail(rt: HostRuntime) {
    for room in 0..FIRST[0].2.len() {
        check_narrow(&rt, rt.alloc(), room);
    }
}
